//! One move of the collector at a time, for a caller in which nothing may wait: no call here
//! sleeps, yields or takes memory. A move that has to wait for a mutator says so, and is made again
//! later.
//!
//! An owner that keeps the heap by a counted reference takes the collector apart between its calls,
//! into the seat and the stack, and puts it together again.
ghost use Rattle.std.specs.Prelude.{ℕ, ◌≡◌, ◌<◌, IfSome};
ghost use Rattle.cell_words.specs.declared.controls.Stage.TheVariants as stage;
ghost use Rattle.collector.specs.Bound.{Bound, IsBound, cells_of, control_of};
ghost use Rattle.collector.specs.Counting.{nothing};
ghost use Rattle.collector.specs.Offering.{freed_since};
ghost use Rattle.collector.specs.Stepping.{Moved, Steps, Stops, Told, freed_in};
ghost use Rattle.collector.specs.Stretches.{Kept};
ghost use Rattle.collector.specs.Underway.{IsUnderway, WentOn};
ghost use Rattle.collector.specs.declared.report.CycleReport.{CycleReport};
ghost use Rattle.core_machine.specs.State.{greatest_cycles};

use crate::collecting::Collector;
use crate::mark_stack::MarkStack;
use crate::report::CycleReport;
use cell_heap::ColSeat;
use cell_words::Stage;
use heap_rule::Keeping;
use heap_table::CellHeap;

/// How a move went.
#[derive(Clone, Copy, Debug, PartialEq, Eq)]
pub enum Went {
    /// it was made
    More,
    /// a mutator that is in has to answer the handshake first
    Asks,
    /// it was made, and ended a cycle
    Ended,
}

/// The outcome of a move.
#[derive(Clone, Copy, Debug, PartialEq, Eq)]
pub struct Step {
    /// how many mutators have answered this handshake; the next move wants it back
    pub heard: u32,
    pub went: Went,
    /// what the move counts for in its cycle's report
    pub came: CycleReport,
    /// the cell that it freed
    pub freed: Option<u32>,
}

impl<'a, P: Keeping> Collector<'a, P> {
    /// The collector as an owner keeps it: its seat, and the stack with all that is on it.
    pub fn into_parts(self) -> (ColSeat<P>, MarkStack)
        ensures seat { result.0 ≡ self.entry.seat }
        ensures stack { result.1 ≡ self.entry.stack }
        ensures bound { IsBound self.entry.heap result.0 self.entry.heap.shape.mutators result.1 }
    {
        let Collector { seat, stack, .. } = self;
        (seat, stack)
    }

    /// The collector again, of the parts that it was taken apart into.
    pub fn resume(heap: &'a CellHeap<P>, seat: ColSeat<P>, stack: MarkStack) -> Collector<'a, P>
        requires bound { IsBound heap.now seat heap.now.shape.mutators stack }
        ensures collector { result ≡ record { heap = heap.now; seat = seat; stack = stack } }
    {
        let mutators = heap.mutators();
        Collector {
            heap,
            seat,
            mutators,
            stack,
        }
    }

    /// Makes one move: begins a cycle, hears the next mutator or answers for it while it is out,
    /// clears a cell, looks at some cells and scans the gray ones, sweeps a cell, or goes on to the
    /// next stage. Where it `Asks`, make it again once mutators have had time to answer. How many
    /// words of the heap a move loads and stores has a bound that is the same for all heaps.
    ///
    /// `heard` is what the move before has given; before the first one any number.
    pub fn step(&mut self, heard: u32) -> Step
        requires steps { Steps heard self.old }
        requires cycles { (control_of self.old).cycles < greatest_cycles }
        ensures steps { Steps result.heard self.new }
        ensures told { Told (control_of self.old).stage result.went result.came self.old self.new }
        ensures begun { (control_of self.old).stage ≡ stage.Idle
            → IsUnderway nothing self.old self.new }
        ensures leads { (start : Bound P) (so_far : CycleReport) → IsUnderway so_far start self.old
            → WentOn result.went so_far result.came start self.new }
        ensures stops { Stops result.went (control_of self.old).stage heard result.heard self.old }
        ensures kept { Kept self.old self.new }
        ensures freed { freed_since self.old self.new ≡ freed_in result.freed }
        ensures there { IfSome result.freed (λ cell. cell < cells_of self.old) }
    {
        self.move_on(heard)
    }

    /// The stage that it is in.
    fn stage(&self) -> Stage
        ensures stage { result ≡ (control_of self.now).stage }
    {
        self.control().stage
    }

    /// The move of its stage.
    fn move_on(&mut self, heard: u32) -> Step
        requires steps { Steps heard self.old }
        requires cycles { (control_of self.old).cycles < greatest_cycles }
        ensures stops { Stops result.went (control_of self.old).stage heard result.heard self.old }
        ensures moved { Moved (control_of self.old).stage result self.old self.new }
    {
        match self.stage() {
            Stage::Idle => self.first_move(),
            Stage::Sync1 => self.hear_or_clear(heard),
            Stage::Clear => self.clear_next(),
            Stage::Sync2 => self.hear_or_mark(heard),
            Stage::Trace => self.hear_or_trace(heard),
            Stage::Sweep => self.sweep_next(),
        }
    }

    /// Begins a cycle.
    fn first_move(&mut self) -> Step
        requires idle { (control_of self.old).stage ≡ stage.Idle }
        requires cycles { (control_of self.old).cycles < greatest_cycles }
        ensures stops { (heard : ℕ) → Stops result.went (control_of self.old).stage heard
            result.heard self.old }
        ensures moved { Moved stage.Idle result self.old self.new }
    {
        self.begin();
        Step {
            heard: 0,
            went: Went::More,
            came: CycleReport::nothing(),
            freed: None,
        }
    }
}
