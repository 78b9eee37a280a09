//! The collector taken apart, and its moves.
ghost use Rattle.std.specs.Prelude.{◌≡◌, ◌<◌};
ghost use Rattle.collector.specs.Stepping.{Steps};
ghost use Rattle.collector.specs.Stretches.{Kept};
ghost use Rattle.heap_c.specs.Keeping.{IsWorked, collector_of};

use crate::rule::Rule;
use crate::sharing::{Sharing, Unnoted};
use cell_heap::{CellHeap, ColSeat};
use collector::{Collector, CycleReport, MarkStack, Step, Went};
use std::marker::Model;

/// How many cycles a collector makes.
const MOST_CYCLES: u32 = 4_000_000_000;

/// A collector's seat and its mark stack, and how many mutators have answered the handshake.
#[derive(Drop)]
pub(crate) struct Works {
    pub(crate) seat: ColSeat<Rule>,
    pub(crate) stack: MarkStack,
    pub(crate) heard: u32,
}

impl Model for Works {
    ghost use Rattle.std.specs.Coded.{codes};
    ghost use Rattle.cell_words.specs.contracts.terms.Term as term;
    ghost use Rattle.heap_c.specs.Keeping.{Worked};

    ghost Value = { Worked };

    ghost coded = { Prim.hlevel (codes, term.the_row.coded) };

    ghost view = { λ w. record { seat = w.seat; stack = w.stack; heard = w.heard } };
}

/// What the moves came to since the opening, and the freed cells that are not noted yet.
#[derive(Clone, Copy, Drop)]
pub(crate) struct Counts {
    pub(crate) passes: u64,
    pub(crate) scanned: u64,
    pub(crate) freed: u64,
    pub(crate) stacked: u64,
    pub(crate) spilled: u64,
    pub(crate) unnoted: Unnoted,
}

impl Counts {
    /// With those of one move more. They wrap.
    fn add(&mut self, came: CycleReport) {
        self.passes = self.passes.wrapping_add(came.passes);
        self.scanned = self.scanned.wrapping_add(came.scanned);
        self.freed = self.freed.wrapping_add(came.freed);
        self.stacked = self.stacked.wrapping_add(came.stacked);
        self.spilled = self.spilled.wrapping_add(came.spilled);
    }
}

/// How moves went.
#[derive(Clone, Copy, Debug, PartialEq, Eq)]
pub(crate) enum How {
    More,
    Asks,
    Ended,
    /// all cycles were made
    Spent,
}

/// Notes what one move came to: how it went.
fn noted(sharing: &Sharing, counts: &mut Counts, step: Step) -> How {
    counts.add(step.came);
    if let Some(cell) = step.freed {
        sharing.add_freed(cell, &mut counts.unnoted);
    }
    match step.went {
        Went::More => How::More,
        Went::Asks => How::Asks,
        Went::Ended => How::Ended,
    }
}

/// One move.
fn move_once(
    collector: &mut Collector<'_, Rule>,
    heard: &mut u32,
    sharing: &Sharing,
    counts: &mut Counts,
) -> How
    requires steps { Steps heard.old collector.old }
    ensures steps { Steps heard.new collector.new }
    ensures kept { Kept collector.old collector.new }
{
    if MOST_CYCLES <= collector.control().cycles {
        return How::Spent;
    }
    let step = collector.step(*heard);
    *heard = step.heard;
    noted(sharing, counts, step)
}

/// Makes at most so many moves: up to one at which a mutator has to answer, or that ends a cycle.
fn moves_on(
    collector: &mut Collector<'_, Rule>,
    heard: &mut u32,
    sharing: &Sharing,
    counts: &mut Counts,
    moves: u32,
) -> How
    requires steps { Steps heard.old collector.old }
    ensures steps { Steps heard.new collector.new }
    ensures kept { Kept collector.old collector.new }
{
    for _ in 0..moves {
        let how = move_once(collector, heard, sharing, counts);
        if how != How::More {
            return how;
        }
    }
    How::More
}

/// The same with a collector that is taken apart.
pub(crate) fn work(
    heap: &CellHeap<Rule>,
    works: Works,
    sharing: &Sharing,
    counts: &mut Counts,
    moves: u32,
) -> (Works, How)
    requires worked { IsWorked heap.now works }
    ensures worked { IsWorked heap.now result.0 }
    ensures kept { Kept (collector_of heap.now works) (collector_of heap.now result.0) }
{
    let Works {
        seat,
        stack,
        mut heard,
    } = works;
    let mut collector = Collector::resume(heap, seat, stack);
    let how = moves_on(&mut collector, &mut heard, sharing, counts, moves);
    sharing.note(&mut counts.unnoted);
    let (seat, stack) = collector.into_parts();
    (Works { seat, stack, heard }, how)
}
