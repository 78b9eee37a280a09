//! The moves of the stages after the first one, and what each leaves for the next.
ghost use Rattle.std.specs.Prelude.{ℕ, ◌≡◌, ◌<◌, ◌≤◌, ◌∷◌, [], IfSome, None, true, false};
ghost use Rattle.cell_heap.specs.Telling.{FindsKnown};
ghost use Rattle.cell_words.specs.declared.controls.Stage.TheVariants as stage;
ghost use Rattle.collector.specs.Bound.{TakesColour, cells_of, control_of, may};
ghost use Rattle.collector.specs.Bound.{mutators_of, part_of, takes};
ghost use Rattle.collector.specs.Counting.{Does, frees, nothing};
ghost use Rattle.collector.specs.Offering.{freed_since};
ghost use Rattle.collector.specs.Stepping.{IsAsking, IsClearing, IsSweeping, IsTracing, LaterMove};
ghost use Rattle.collector.specs.Stepping.{Moved, Stops, counted_in, freed_in};
ghost use Rattle.collector.specs.Underway.{is_ended};
ghost use Rattle.core_machine.specs.Words.{is_gray, is_handshake};
ghost use Rattle.core_machine.specs.declared.events.Event.TheVariants as event;
ghost use Rattle.core_machine.specs.declared.events.Found.TheVariants as finds;
ghost use Rattle.core_machine.specs.declared.progress.Sweeping.TheVariants as sweeping;

use crate::collecting::Collector;
use crate::report::CycleReport;
use crate::stepping::{Step, Went};
use cell_words::{Colour, Stage};
use heap_rule::Keeping;

/// What the cells count for that a move has freed.
fn counted_in(freed: Option<u32>) -> CycleReport
    ensures counted { result ≡ counted_in freed }
{
    CycleReport {
        passes: 0,
        scanned: 0,
        freed: if freed.is_some() { 1 } else { 0 },
        stacked: 0,
        spilled: 0,
    }
}

impl<'a, P: Keeping> Collector<'a, P> {
    /// Looks whether the next mutator has answered.
    fn hear(&mut self, heard: u32) -> Step
        requires asks { is_handshake (control_of self.old).stage ≡ true }
        requires asking { IsAsking heard self.old }
        requires mutator { heard < mutators_of self.old }
        ensures asking { IsAsking result.heard self.new }
        ensures does { Does nothing self.old self.new }
        ensures told { LaterMove result.went result.came self.old self.new }
        ensures control { control_of self.new ≡ control_of self.old }
        ensures cursor { (part_of self.new).cursor ≡ (part_of self.old).cursor }
        ensures stops { Stops result.went (control_of self.old).stage heard result.heard self.old }
        ensures freed { result.freed ≡ None }
        ensures on { is_ended result.went ≡ false }
        ensures came { result.came ≡ nothing }
    {
        let _mutators = self.mutators();
        let tried = self.try_answer(heard);
        if tried.answered {
            return Step {
                heard: heard + 1,
                went: Went::More,
                came: CycleReport::nothing(),
                freed: None,
            };
        }
        Step {
            heard,
            went: Went::Asks,
            came: CycleReport::nothing(),
            freed: None,
        }
    }

    /// The first handshake; and then clearing begins.
    pub(crate) fn hear_or_clear(&mut self, heard: u32) -> Step
        requires stage { (control_of self.old).stage ≡ stage.Sync1 }
        requires asking { IsAsking heard self.old }
        ensures stops { Stops result.went (control_of self.old).stage heard result.heard self.old }
        ensures moved { Moved stage.Sync1 result self.old self.new }
    {
        if heard < self.mutators() {
            return self.hear(heard);
        }
        self.post_once(Stage::Clear);
        Step {
            heard,
            went: Went::More,
            came: CycleReport::nothing(),
            freed: None,
        }
    }

    fn clear_once(&mut self)
        requires may { may self.old event.ClearCell ≡ true }
        ensures told { TakesColour self.old event.ClearCell self.new }
    {
        self.seat.clear(self.heap);
    }

    /// Clears a cell; and after the last one the second handshake begins.
    pub(crate) fn clear_next(&mut self) -> Step
        requires stage { (control_of self.old).stage ≡ stage.Clear }
        requires clearing { IsClearing self.old }
        ensures stops { (heard : ℕ) → Stops result.went (control_of self.old).stage heard
            result.heard self.old }
        ensures moved { Moved stage.Clear result self.old self.new }
    {
        let _mutators = self.mutators();
        if self.cursor() < self.cells() {
            self.clear_once();
            return Step {
                heard: 0,
                went: Went::More,
                came: CycleReport::nothing(),
                freed: None,
            };
        }
        self.post_once(Stage::Sync2);
        Step {
            heard: 0,
            went: Went::More,
            came: CycleReport::nothing(),
            freed: None,
        }
    }

    /// The second handshake; and then the mark of the anchor, and the third handshake begins.
    pub(crate) fn hear_or_mark(&mut self, heard: u32) -> Step
        requires stage { (control_of self.old).stage ≡ stage.Sync2 }
        requires asking { IsAsking heard self.old }
        ensures stops { Stops result.went (control_of self.old).stage heard result.heard self.old }
        ensures moved { Moved stage.Sync2 result self.old self.new }
    {
        if heard < self.mutators() {
            return self.hear(heard);
        }
        self.anchor_once();
        self.post_once(Stage::Trace);
        Step {
            heard: 0,
            went: Went::More,
            came: CycleReport::nothing(),
            freed: None,
        }
    }

    /// The third handshake; and then tracing.
    pub(crate) fn hear_or_trace(&mut self, heard: u32) -> Step
        requires stage { (control_of self.old).stage ≡ stage.Trace }
        requires tracing { IsTracing heard self.old }
        ensures stops { Stops result.went (control_of self.old).stage heard result.heard self.old }
        ensures moved { Moved stage.Trace result self.old self.new }
    {
        if heard < self.mutators() {
            return self.hear(heard);
        }
        self.trace_on(heard)
    }

    /// Makes some looks at cells, and scans those that are gray; and after the last pass the sweep
    /// begins.
    fn trace_on(&mut self, heard: u32) -> Step
        requires stage { (control_of self.old).stage ≡ stage.Trace }
        requires tracing { IsTracing heard self.old }
        requires all { mutators_of self.old ≤ heard }
        ensures stops { Stops result.went (control_of self.old).stage heard result.heard self.old }
        ensures moved { Moved stage.Trace result self.old self.new }
    {
        let _cells = self.cells();
        if self.is_traced() {
            self.post_once(Stage::Sweep);
            return Step {
                heard,
                went: Went::More,
                came: CycleReport::nothing(),
                freed: None,
            };
        }
        let came = self.trace_some();
        Step {
            heard,
            went: Went::More,
            came,
            freed: None,
        }
    }

    fn sweep_look_once(&mut self) -> Colour
        requires may { may self.old event.SweepLook ≡ true }
        ensures told { self.new ≡ takes self.old event.SweepLook (finds.Colour result) }
        ensures known { FindsKnown self.old.seat.me event.SweepLook (finds.Colour result) }
        ensures not_gray { is_gray result ≡ false }
    {
        self.seat.sweep_look(self.heap)
    }

    fn whiten_once(&mut self)
        requires may { may self.old event.Whiten ≡ true }
        ensures told { self.new ≡ takes self.old event.Whiten finds.Stored }
        ensures known { FindsKnown self.old.seat.me event.Whiten finds.Stored }
    {
        self.seat.whiten(self.heap);
    }

    /// Wipes and frees the white cell at the position, whose number it gives.
    fn free_white(&mut self) -> u32
        requires found { (part_of self.old).sweep ≡ sweeping.Wiping 0 }
        ensures cell { result ≡ (control_of self.old).position }
        ensures does { Does (frees 1) self.old self.new }
        ensures control { control_of self.new ≡ control_of self.old }
        ensures done { (part_of self.new).sweep ≡ sweeping.Done }
        ensures freed { freed_since self.old self.new ≡ result ∷ [] }
    {
        let cell = self.control().position;
        self.wipe_all();
        self.free_once();
        cell
    }

    /// Looks at the cell at the position: frees a white one, whose number it gives, and makes a
    /// black one white.
    fn settle(&mut self) -> Option<u32>
        requires stage { (control_of self.old).stage ≡ stage.Sweep }
        requires fresh { (part_of self.old).sweep ≡ sweeping.Fresh }
        requires there { (control_of self.old).position < cells_of self.old }
        ensures does { Does (counted_in result) self.old self.new }
        ensures control { control_of self.new ≡ control_of self.old }
        ensures done { (part_of self.new).sweep ≡ sweeping.Done }
        ensures freed { freed_since self.old self.new ≡ freed_in result }
        ensures cell { IfSome result (λ cell. cell < cells_of self.old) }
    {
        match self.sweep_look_once() {
            Colour::Blue => None,
            Colour::White => Some(self.free_white()),
            Colour::Gray => unreachable!(),
            Colour::Black => {
                self.whiten_once();
                None
            }
        }
    }

    /// Sweeps a cell; and after the last one the cycle ends.
    pub(crate) fn sweep_next(&mut self) -> Step
        requires stage { (control_of self.old).stage ≡ stage.Sweep }
        requires sweeping { IsSweeping self.old }
        ensures stops { (heard : ℕ) → Stops result.went (control_of self.old).stage heard
            result.heard self.old }
        ensures moved { Moved stage.Sweep result self.old self.new }
    {
        if self.control().position < self.cells() {
            let freed = self.settle();
            self.advance_once();
            return Step {
                heard: 0,
                went: Went::More,
                came: counted_in(freed),
                freed,
            };
        }
        self.post_once(Stage::Idle);
        Step {
            heard: 0,
            went: Went::Ended,
            came: CycleReport::nothing(),
            freed: None,
        }
    }
}
