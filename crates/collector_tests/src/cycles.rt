//! Single cycles, with the mutator over, and claims without a cycle. What they count was worked out
//! by hand.
ghost use Rattle.std.specs.Prelude.{◌≡◌};

use crate::collecting::{collect_alone, collect_once};
use crate::heaps::{CHAIN, close, open_chain, open_hints, open_plain, open_star};
use crate::mutating::{make_and_drop, make_hinted};
use cell_heap::{Image, NoMemory};
use cell_words::{Colour, Field};
use collector::{CycleReport, MarkStack};
use std::alloc::Global;
use std::sync::Wait;
use std::test::Fail;

/// What a closed heap of three cells shows: how many cycles there were, and the colour and the
/// fields of cell 1.
type Shown = (u32, Colour, [Field; 6]);

fn shown_by(image: &Image) -> Shown
    requires cells { image.now.cells ≡ 3 }
{
    let fields = [
        image.field(1, 0),
        image.field(1, 1),
        image.field(1, 2),
        image.field(1, 3),
        image.field(1, 4),
        image.field(1, 5),
    ];
    (image.control().cycles, image.colour(1), fields)
}

/// Makes a cell that nothing names, and then a cycle. It gives how many cells were made too.
fn collect_unlinked<R: Wait>(alloc: Global, rt: &R) -> Result<(u32, CycleReport, Shown), NoMemory> {
    let stack = MarkStack::with_room(alloc, 2)?;
    let (queue, pass, other) = open_hints(alloc, rt, 3, 1)?;
    let (heap, collector, mutator) = open_plain(alloc, 3, 2)?;
    let (mutator, made) = make_and_drop(rt, &heap, mutator, &queue, other, 1);
    let (collector, report) = collect_once(rt, &heap, collector, stack, &queue, pass);
    Ok((made, report, shown_by(&close(heap, collector, mutator))))
}

#[test]
fn an_unlinked_cell_is_freed_in_a_cycle(rt: HostRuntime) -> Result<(), Fail> {
    let report = CycleReport {
        passes: 2,
        scanned: 1,
        freed: 1,
        stacked: 0,
        spilled: 0,
    };
    let shown = (1, Colour::Blue, [Field::Null; 6]);
    assert_eq!(rt; collect_unlinked(rt.alloc(), &rt)?, (1, report, shown));
    Ok(())
}

/// The colours of the cells 1 and 2, of which one was claimed with this hint. The queue has none.
fn claimed_with<R: Wait>(
    alloc: Global,
    rt: &R,
    hint: Option<u32>,
) -> Result<(Colour, Colour), NoMemory> {
    let (queue, pass, _) = open_hints(alloc, rt, 3, 3)?;
    let (heap, collector, mutator) = open_plain(alloc, 3, 2)?;
    let mutator = make_hinted(rt, &heap, mutator, &queue, pass, hint);
    let image = close(heap, collector, mutator);
    Ok((image.colour(1), image.colour(2)))
}

/// The same with the hint of a free cell, of the anchor, of a cell past the last, and with none.
fn claimed_with_each<R: Wait>(alloc: Global, rt: &R) -> Result<[(Colour, Colour); 4], NoMemory> {
    Ok([
        claimed_with(alloc, rt, Some(2))?,
        claimed_with(alloc, rt, Some(0))?,
        claimed_with(alloc, rt, Some(3))?,
        claimed_with(alloc, rt, None)?,
    ])
}

#[test]
fn a_hint_names_the_cell_that_is_claimed_if_it_is_free(rt: HostRuntime) -> Result<(), Fail> {
    let hinted = (Colour::Blue, Colour::White);
    let first = (Colour::White, Colour::Blue);
    assert_eq!(rt;
        claimed_with_each(rt.alloc(), &rt)?,
        [hinted, first, first, first]
    );
    Ok(())
}

/// A cycle on the chain, and how many cells are blue then.
fn collect_chain<R: Wait>(alloc: Global, rt: &R) -> Result<(CycleReport, u32), NoMemory> {
    let stack = MarkStack::with_room(alloc, 1)?;
    let (queue, pass, _) = open_hints(alloc, rt, CHAIN, CHAIN)?;
    let (heap, collector, mutator) = open_chain(alloc)?;
    Ok(collect_alone(rt, heap, collector, mutator, stack, &queue, pass))
}

#[test]
fn a_chain_against_the_order_of_the_cells_takes_two_passes(rt: HostRuntime) -> Result<(), Fail> {
    let report = CycleReport {
        passes: 2,
        scanned: 1000,
        freed: 0,
        stacked: 999,
        spilled: 0,
    };
    assert_eq!(rt; collect_chain(rt.alloc(), &rt)?, (report, 0));
    Ok(())
}

/// A cycle on the star, and how many cells are blue then.
fn collect_star<R: Wait>(alloc: Global, rt: &R) -> Result<(CycleReport, u32), NoMemory> {
    let stack = MarkStack::with_room(alloc, 1)?;
    let (queue, pass, _) = open_hints(alloc, rt, 6, 6)?;
    let (heap, collector, mutator) = open_star(alloc)?;
    Ok(collect_alone(rt, heap, collector, mutator, stack, &queue, pass))
}

#[test]
fn children_that_find_the_stack_full_are_found_by_the_pass(rt: HostRuntime) -> Result<(), Fail> {
    let report = CycleReport {
        passes: 2,
        scanned: 6,
        freed: 0,
        stacked: 1,
        spilled: 4,
    };
    assert_eq!(rt; collect_star(rt.alloc(), &rt)?, (report, 0));
    Ok(())
}
