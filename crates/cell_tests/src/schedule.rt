//! The schedule of an unlinked cell, which was worked out by hand, on the words of a table.
ghost use Rattle.std.specs.Prelude.{◌≡◌};

use crate::in_runs::cycle_in_runs;
use crate::unlinked::{close_one, first_cycle, make_and_leave, open_one};
use cell_heap::{Image, NoMemory};
use cell_words::{Colour, Field};
use std::alloc::Global;
use std::test::Fail;

/// The schedule has 48 events, of which five are the mutator's.
const EVENTS: u32 = 43;

/// The collector's 43 events in so many calls, where it makes runs of them.
const CALLS: u32 = 29;

/// What a closed heap of three cells shows: how many cycles there were, the cells' colours, and
/// the fields of cell 1.
type Shown = (u32, [Colour; 3], [Field; 6]);

fn shown_by(image: &Image) -> Shown
    requires cells { image.now.cells ≡ 3 }
{
    let colours = [image.colour(0), image.colour(1), image.colour(2)];
    let fields = [
        image.field(1, 0),
        image.field(1, 1),
        image.field(1, 2),
        image.field(1, 3),
        image.field(1, 4),
        image.field(1, 5),
    ];
    (image.control().cycles, colours, fields)
}

/// How many cells the mutator claimed, how many events the collector's first cycle took, how many
/// cells it freed, and what the heap shows at its close.
fn scheduled(alloc: Global) -> Result<((u64, u32, u64), Shown), NoMemory> {
    let (heap, mut collector, mut mutator) = open_one(alloc)?;
    make_and_leave(&heap, &mut mutator);
    let claims = mutator.claims();
    let events = first_cycle(&heap, &mut collector);
    let counts = (claims, events, collector.freed());
    Ok((counts, shown_by(&close_one(heap, collector, mutator))))
}

#[test]
fn an_unlinked_cell_is_freed_in_a_cycle(rt: HostRuntime) -> Result<(), Fail> {
    let shown = (
        1,
        [Colour::White, Colour::Blue, Colour::Blue],
        [Field::Null; 6],
    );
    assert_eq!(rt; scheduled(rt.alloc())?, ((1, EVENTS, 1), shown));
    Ok(())
}

/// The same, where the collector makes runs of events; and how many calls its cycle took.
fn scheduled_in_runs(alloc: Global) -> Result<((u64, u32, u64), Shown), NoMemory> {
    let (heap, mut collector, mut mutator) = open_one(alloc)?;
    make_and_leave(&heap, &mut mutator);
    let claims = mutator.claims();
    let calls = cycle_in_runs(&heap, &mut collector);
    let counts = (claims, calls, collector.freed());
    Ok((counts, shown_by(&close_one(heap, collector, mutator))))
}

#[test]
fn runs_of_events_free_the_same_cell(rt: HostRuntime) -> Result<(), Fail> {
    let shown = (
        1,
        [Colour::White, Colour::Blue, Colour::Blue],
        [Field::Null; 6],
    );
    assert_eq!(rt; scheduled_in_runs(rt.alloc())?, ((1, CALLS, 1), shown));
    Ok(())
}
