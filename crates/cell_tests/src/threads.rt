//! Two mutators on threads of their own. What is asserted stands on every schedule.
ghost use Rattle.std.specs.Prelude.{◌≡◌};
ghost use Rattle.cell_tests.specs.Working.{IsDone, IsOut};

use crate::closing::{close_two, open_two};
use crate::counter::Added;
use crate::working::work;
use cell_heap::{CellHeap, Image, MutSeat, NoMemory};
use cell_words::{Colour, Field};
use std::alloc::Global;
use std::test::Fail;
use std::thread::{self, Threads};

const TRIES: u32 = 300;

/// Both mutators work, each on a thread of its own.
fn work_both<R: Threads>(
    rt: &R,
    heap: &CellHeap<Added>,
    first: MutSeat<Added>,
    second: MutSeat<Added>,
) -> ((MutSeat<Added>, u64), (MutSeat<Added>, u64))
    requires first { IsOut heap.now 0 first × (first.me.number ≡ 0) }
    requires second { IsOut heap.now 0 second × (second.me.number ≡ 1) }
    ensures first { IsDone heap.now result.0.1 result.0.0 × (result.0.0.me.number ≡ 0) }
    ensures second { IsDone heap.now result.1.1 result.1.0 × (result.1.0.me.number ≡ 1) }
{
    thread::join(
        rt,
        move || -> (MutSeat<Added>, u64)
            requires { IsOut heap.now 0 first × (first.me.number ≡ 0) }
            ensures { IsDone heap.entry.now result.1 result.0 × (result.0.me.number ≡ 0) }
        { work(heap, first, TRIES) },
        move || -> (MutSeat<Added>, u64)
            requires { IsOut heap.now 0 second × (second.me.number ≡ 1) }
            ensures { IsDone heap.entry.now result.1 result.0 × (result.0.me.number ≡ 1) }
        { work(heap, second, TRIES) },
    )
}

/// The colours of the cells of a closed heap that has six.
fn colours_of(image: &Image) -> [Colour; 6]
    requires cells { image.now.cells ≡ 6 }
{
    [
        image.colour(0),
        image.colour(1),
        image.colour(2),
        image.colour(3),
        image.colour(4),
        image.colour(5),
    ]
}

/// What both have claimed and added, the counter in the end, and the colours of the cells.
type Counted = ((u64, u64), (u64, u64), Field, [Colour; 6]);

fn counted<R: Threads>(alloc: Global, rt: &R) -> Result<Counted, NoMemory> {
    let (heap, collector, first, second) = open_two(alloc, 6)?;
    let (first, second) = work_both(rt, &heap, first, second);
    let claims = (first.0.claims(), second.0.claims());
    let added = (first.1, second.1);
    let image = close_two(heap, collector, first, second);
    Ok((claims, added, image.field(0, 0), colours_of(&image)))
}

#[test]
fn two_mutators_share_a_counter(rt: HostRuntime) -> Result<(), Fail> {
    let (claims, added, counter, colours) = counted(rt.alloc(), &rt)?;
    let claimed = claims.0.checked_add(claims.1);
    let sum = added.0.checked_add(added.1).map(Field::Num);
    assert_eq!(rt;
        (claimed, Some(counter), colours),
        (Some(5), sum, [Colour::White; 6])
    );
    Ok(())
}
