//! A whole cycle: its stages one after the other, each when the one before has done its work.
ghost use Rattle.std.specs.Prelude.{◌≡◌, ◌<◌, ◌+◌, ◌^◌, IsTrue, None, replicate, true, false};
ghost use Rattle.cell_heap.specs.Telling.{FindsKnown};
ghost use Rattle.cell_words.specs.declared.controls.Stage.TheVariants as stage;
ghost use Rattle.collector.specs.Bound.{KeepsWork, cells_of, control_of, mutators_of, part_of};
ghost use Rattle.collector.specs.Bound.{takes};
ghost use Rattle.collector.specs.Counting.{Counts, Does, nothing};
ghost use Rattle.collector.specs.Cycles.{Heard, IsAsked, Reported};
ghost use Rattle.collector.specs.Offering.{OffersAll, freed_since};
ghost use Rattle.collector.specs.Over.{AllOver, Hears, HearsBeside};
ghost use Rattle.collector.specs.Replay.{fresh_work_of, work_of};
ghost use Rattle.collector.specs.Stack.{emptied};
ghost use Rattle.collector.specs.Stretches.{Stretch};
ghost use Rattle.core_machine.specs.Collector.{nobody_answered};
ghost use Rattle.core_machine.specs.State.{greatest_cycles};
ghost use Rattle.core_machine.specs.declared.events.Event.TheVariants as event;
ghost use Rattle.core_machine.specs.declared.events.Found.TheVariants as finds;
ghost use Rattle.core_machine.specs.declared.progress.Sweeping.TheVariants as sweeping;
ghost use Rattle.free_cells.specs.Hints.{cells_of as hinted_of, counts_of, queue_of};

use crate::asking::either;
use crate::collecting::Collector;
use crate::report::CycleReport;
use cell_words::Stage;
use free_cells::Hints;
use heap_rule::Keeping;
use std::sync::Wait;

/// The report of a cycle, and whether one of its handshakes found every mutator over.
#[derive(Clone, Copy)]
pub(crate) struct Made {
    pub report: CycleReport,
    pub over: bool,
}

impl<'a, P: Keeping> Collector<'a, P> {
    /// Clearing.
    fn clear_stage(&mut self)
        requires stage { (control_of self.old).stage ≡ stage.Clear }
        requires first { (part_of self.old).cursor ≡ 0 }
        ensures does { Does nothing self.old self.new }
        ensures control { control_of self.new
            ≡ record (control_of self.old) { stage = stage.Sync2 } }
        ensures nobody { (part_of self.new).answered ≡ nobody_answered (part_of self.old).answered }
        ensures work { KeepsWork (part_of self.old) (part_of self.new) }
    {
        self.clear_all();
        self.post_once(Stage::Sync2);
    }

    /// The second handshake, the mark of the anchor, and the third handshake. It gives whether one
    /// of both found every mutator over.
    fn anchor_stage<R: Wait>(&mut self, rt: &R) -> bool
        requires stage { (control_of self.old).stage ≡ stage.Sync2 }
        requires nobody { (part_of self.old).answered ≡ replicate (mutators_of self.old) false }
        ensures hears { Hears result 0 (mutators_of self.old) self.old self.new }
        ensures control { control_of self.new
            ≡ record (control_of self.old) { stage = stage.Trace } }
        ensures all { (part_of self.new).answered ≡ replicate (mutators_of self.new) true }
        ensures first { (part_of self.new).cursor ≡ 0 }
        ensures work { KeepsWork (part_of self.old) (part_of self.new) }
    {
        let over = self.await_all(rt);
        self.anchor_once();
        self.post_once(Stage::Trace);
        let again = self.await_all(rt);
        either(over, again)
    }

    /// Tracing and sweeping.
    fn free_stage<R: Wait>(&mut self, rt: &R, hints: &mut Hints<'_>) -> CycleReport
        requires stage { (control_of self.old).stage ≡ stage.Trace }
        requires some { 0 < cells_of self.old }
        requires all { (part_of self.old).answered ≡ replicate (mutators_of self.old) true }
        requires first { (part_of self.old).cursor ≡ 0 }
        requires scan { (part_of self.old).scan ≡ None }
        requires hints { hinted_of (queue_of hints.old) ≡ cells_of self.old }
        ensures does { Does result self.old self.new }
        ensures few { result.freed < 2 ^ 32 }
        ensures control { control_of self.new ≡ record (control_of self.old)
            { stage = stage.Sweep; position = cells_of self.old } }
        ensures queue { queue_of hints.new ≡ queue_of hints.old }
        ensures offered { OffersAll (freed_since self.old self.new) (counts_of hints.old) (counts_of hints.new) }
        ensures puts { (counts_of hints.new).puts ≡ (counts_of hints.old).puts + result.freed }
    {
        let traced = self.trace_all(rt);
        self.post_once(Stage::Sweep);
        let freed = self.sweep_all(rt, hints);
        CycleReport { freed, ..traced }
    }

    /// All of a cycle from clearing on, but its last event.
    fn collect<R: Wait>(&mut self, rt: &R, hints: &mut Hints<'_>) -> Made
        requires stage { (control_of self.old).stage ≡ stage.Clear }
        requires first { (part_of self.old).cursor ≡ 0 }
        requires some { 0 < cells_of self.old }
        requires nobody { nobody_answered (part_of self.old).answered
            ≡ replicate (mutators_of self.old) false }
        requires scan { (part_of self.old).scan ≡ None }
        requires hints { hinted_of (queue_of hints.old) ≡ cells_of self.old }
        ensures hears { HearsBeside result.report result.over 0 (mutators_of self.old)
            self.old self.new }
        ensures few { result.report.freed < 2 ^ 32 }
        ensures control { control_of self.new ≡ record (control_of self.old)
            { stage = stage.Sweep; position = cells_of self.old } }
        ensures queue { queue_of hints.new ≡ queue_of hints.old }
        ensures offered { OffersAll (freed_since self.old self.new) (counts_of hints.old)
            (counts_of hints.new) }
        ensures puts { (counts_of hints.new).puts
            ≡ (counts_of hints.old).puts + result.report.freed }
    {
        self.clear_stage();
        let over = self.anchor_stage(rt);
        let report = self.free_stage(rt, hints);
        Made { report, over }
    }

    /// All of a cycle but its first and its last event.
    fn work<R: Wait>(&mut self, rt: &R, hints: &mut Hints<'_>) -> Made
        requires stage { (control_of self.old).stage ≡ stage.Sync1 }
        requires some { 0 < cells_of self.old }
        requires nobody { (part_of self.old).answered ≡ replicate (mutators_of self.old) false }
        requires scan { (part_of self.old).scan ≡ None }
        requires hints { hinted_of (queue_of hints.old) ≡ cells_of self.old }
        ensures made { Stretch (λ events.
            Counts (work_of self.old) (work_of self.new) result.report events
            × (IsTrue result.over → AllOver 0 (mutators_of self.old) events)
            × IsAsked (mutators_of self.old) result.report events) self.old self.new }
        ensures few { result.report.freed < 2 ^ 32 }
        ensures control { control_of self.new ≡ record (control_of self.old)
            { stage = stage.Sweep; position = cells_of self.old } }
        ensures queue { queue_of hints.new ≡ queue_of hints.old }
        ensures offered { OffersAll (freed_since self.old self.new) (counts_of hints.old) (counts_of hints.new) }
        ensures puts { (counts_of hints.new).puts
            ≡ (counts_of hints.old).puts + result.report.freed }
    {
        let over = self.await_all(rt);
        let _mutators = self.mutators();
        self.post_once(Stage::Clear);
        let made = self.collect(rt, hints);
        Made {
            report: made.report,
            over: either(over, made.over),
        }
    }

    /// Begins a cycle: nothing is on the stack, no scan goes on, and nobody has answered.
    pub(crate) fn begin(&mut self)
        requires idle { (control_of self.old).stage ≡ stage.Idle }
        requires cycles { (control_of self.old).cycles < greatest_cycles }
        ensures told { self.new ≡ takes (record self.old { stack = emptied self.old.stack })
            (event.Post stage.Sync1) finds.Stored }
        ensures known { FindsKnown self.old.seat.me (event.Post stage.Sync1) finds.Stored }
        ensures some { 0 < cells_of self.old }
        ensures nobody { (part_of self.new).answered ≡ replicate (mutators_of self.old) false }
        ensures scan { (part_of self.new).scan ≡ None }
    {
        let _cells = self.cells();
        let _mutators = self.mutators();
        let _scan = self.scanning();
        self.empty_stack();
        self.post_once(Stage::Sync1);
    }

    /// One whole cycle.
    pub(crate) fn one_cycle<R: Wait>(&mut self, rt: &R, hints: &mut Hints<'_>) -> Made
        requires idle { (control_of self.old).stage ≡ stage.Idle }
        requires cycles { (control_of self.old).cycles < greatest_cycles }
        requires hints { hinted_of (queue_of hints.old) ≡ cells_of self.old }
        ensures heard { Stretch (Heard (fresh_work_of self.old) (mutators_of self.old)
            result.report result.over) self.old self.new }
        ensures few { result.report.freed < 2 ^ 32 }
        ensures control { control_of self.new ≡ record (control_of self.old)
            { position = 0; cycles = (control_of self.old).cycles + 1 } }
        ensures queue { queue_of hints.new ≡ queue_of hints.old }
        ensures offered { OffersAll (freed_since self.old self.new) (counts_of hints.old) (counts_of hints.new) }
        ensures puts { (counts_of hints.new).puts
            ≡ (counts_of hints.old).puts + result.report.freed }
    {
        self.begin();
        let made = self.work(rt, hints);
        self.post_once(Stage::Idle);
        made
    }

    /// Runs one whole cycle, from the request of the first handshake until nothing is left to do.
    /// The number of each freed cell is offered to the hints.
    pub fn cycle<R: Wait>(&mut self, rt: &R, hints: &mut Hints<'_>) -> CycleReport
        requires idle { (control_of self.old).stage ≡ stage.Idle }
        requires cycles { (control_of self.old).cycles < greatest_cycles }
        requires hints { hinted_of (queue_of hints.old) ≡ cells_of self.old }
        ensures report { Stretch (Reported (fresh_work_of self.old) (mutators_of self.old) result)
            self.old self.new }
        ensures control { control_of self.new ≡ record (control_of self.old)
            { position = 0; cycles = (control_of self.old).cycles + 1 } }
        ensures queue { queue_of hints.new ≡ queue_of hints.old }
        ensures offered { OffersAll (freed_since self.old self.new) (counts_of hints.old) (counts_of hints.new) }
        ensures puts { (counts_of hints.new).puts ≡ (counts_of hints.old).puts + result.freed }
    {
        let made = self.one_cycle(rt, hints);
        made.report
    }
}
