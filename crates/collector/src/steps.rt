//! The seat's calls as this crate uses them: an event each, but the last three.
ghost use Rattle.std.specs.Prelude.{◌≡◌, ◌≤◌, ◌<◌, ◌^◌, None, Some, true};
ghost use Rattle.cell_heap.specs.Runs.{SeesOn, SweepsOn};
ghost use Rattle.cell_heap.specs.Scans.{ScansCell};
ghost use Rattle.cell_heap.specs.Telling.{AnswersOut, AtCollectorEvent, FindsKnown};
ghost use Rattle.cell_words.specs.declared.controls.Stage.TheVariants as stage;
ghost use Rattle.collector.specs.Bound.{HaveAnswered, TakesColour, cells_of, control_of, may};
ghost use Rattle.collector.specs.Bound.{part_of, scan_at, takes};
ghost use Rattle.collector.specs.Counting.{Does, nothing};
ghost use Rattle.core_machine.specs.declared.events.Event.TheVariants as event;
ghost use Rattle.core_machine.specs.declared.events.Found.TheVariants as finds;
ghost use Rattle.core_machine.specs.declared.progress.Sweeping.TheVariants as sweeping;

use crate::collecting::Collector;
use cell_words::{Colour, Presence, Stage};
use core_machine::Scanning;
use heap_rule::Keeping;

impl<'a, P: Keeping> Collector<'a, P> {
    /// How many cells were freed in all.
    pub(crate) fn freed(&self) -> u64
        ensures freed { result ≡ (part_of self.now).number_freed }
        ensures few { result < 2 ^ 63 }
    {
        self.seat.freed()
    }

    /// The cell that this pass of tracing has come to.
    pub(crate) fn cursor(&self) -> u32
        ensures cursor { result ≡ (part_of self.now).cursor }
    {
        self.seat.cursor()
    }

    /// Whether this pass has met no gray cell.
    pub(crate) fn is_clean(&self) -> bool
        ensures clean { result ≡ (part_of self.now).clean }
    {
        self.seat.is_clean()
    }

    /// The scan of a gray cell, while there is one.
    pub(crate) fn scanning(&self) -> Option<Scanning>
        ensures scan { result ≡ (part_of self.now).scan }
        ensures none { (control_of self.now).stage ≡ stage.Idle → result ≡ None }
    {
        self.seat.scanning()
    }

    pub(crate) fn post_once(&mut self, stage: Stage)
        requires may { may self.old (event.Post stage) ≡ true }
        ensures told { self.new ≡ takes self.old (event.Post stage) finds.Stored }
        ensures known { FindsKnown self.old.seat.me (event.Post stage) finds.Stored }
    {
        self.seat.post(self.heap, stage);
    }

    pub(crate) fn poll_once(&mut self, mutator: u32) -> Presence
        requires may { may self.old (event.Poll mutator) ≡ true }
        ensures heap { self.new.heap ≡ self.old.heap }
        ensures stack { self.new.stack ≡ self.old.stack }
        ensures table { self.new.seat.table ≡ self.old.seat.table }
        ensures told { AtCollectorEvent P.fixed self.old.seat.me (event.Poll mutator)
            (finds.Presence result) self.new.seat.me }
        ensures known { FindsKnown self.old.seat.me (event.Poll mutator) (finds.Presence result) }
    {
        self.seat.poll(self.heap, mutator)
    }

    pub(crate) fn answer_out_once(&mut self, mutator: u32, over: bool) -> bool
        requires may { may self.old (event.AnswerOut mutator over) ≡ true }
        ensures heap { self.new.heap ≡ self.old.heap }
        ensures stack { self.new.stack ≡ self.old.stack }
        ensures table { self.new.seat.table ≡ self.old.seat.table }
        ensures told { AnswersOut P.fixed self.old.seat.me mutator over result self.new.seat.me }
    {
        self.seat.answer_out(self.heap, mutator, over)
    }

    pub(crate) fn anchor_once(&mut self)
        requires may { may self.old event.Anchor ≡ true }
        ensures told { TakesColour self.old event.Anchor self.new }
    {
        self.seat.anchor(self.heap);
    }

    pub(crate) fn see_once(&mut self, cell: u32) -> Colour
        requires may { may self.old (event.See cell) ≡ true }
        ensures told { self.new ≡ takes self.old (event.See cell) (finds.Colour result) }
        ensures known { FindsKnown self.old.seat.me (event.See cell) (finds.Colour result) }
    {
        self.seat.see(self.heap, cell)
    }

    pub(crate) fn wipe_once(&mut self)
        requires may { may self.old event.Wipe ≡ true }
        ensures told { self.new ≡ takes self.old event.Wipe finds.Stored }
        ensures known { FindsKnown self.old.seat.me event.Wipe finds.Stored }
    {
        self.seat.wipe(self.heap);
    }

    pub(crate) fn free_once(&mut self)
        requires may { may self.old event.Free ≡ true }
        ensures told { self.new ≡ takes self.old event.Free finds.Stored }
        ensures known { FindsKnown self.old.seat.me event.Free finds.Stored }
    {
        self.seat.free(self.heap);
    }

    pub(crate) fn advance_once(&mut self)
        requires may { may self.old event.Advance ≡ true }
        ensures told { self.new ≡ takes self.old event.Advance finds.Stored }
        ensures known { FindsKnown self.old.seat.me event.Advance finds.Stored }
    {
        self.seat.advance(self.heap);
    }

    /// Sweeps on over cells that stay, up to a white one, whose number it gives.
    pub(crate) fn sweep_on(&mut self) -> Option<u32>
        requires stage { (control_of self.old).stage ≡ stage.Sweep }
        requires fresh { (part_of self.old).sweep ≡ sweeping.Fresh }
        requires within { (control_of self.old).position ≤ cells_of self.old }
        ensures does { Does nothing self.old self.new }
        ensures swept { SweepsOn result self.old.seat self.new.seat }
    {
        self.seat.sweep_on(self.heap)
    }

    /// Goes on with a pass by cells that are not gray, up to a gray one, whose number it gives.
    pub(crate) fn see_on(&mut self) -> Option<u32>
        requires stage { (control_of self.old).stage ≡ stage.Trace }
        requires answered { HaveAnswered self.old }
        requires scan { (part_of self.old).scan ≡ None }
        requires within { (part_of self.old).cursor ≤ cells_of self.old }
        ensures heap { self.new.heap ≡ self.old.heap }
        ensures stack { self.new.stack ≡ self.old.stack }
        ensures seen { SeesOn result self.old.seat self.new.seat }
    {
        self.seat.see_on(self.heap)
    }

    /// Scans all fields of a cell, and makes it black. It gives the cells that were shaded, by
    /// field.
    pub(crate) fn scan_on(&mut self, cell: u32) -> [Option<u32>; 5]
        requires scan { (part_of self.old).scan ≡ Some (scan_at cell 0) }
        ensures heap { self.new.heap ≡ self.old.heap }
        ensures stack { self.new.stack ≡ self.old.stack }
        ensures scanned { ScansCell result self.old.seat self.new.seat }
    {
        self.seat.scan_cell(self.heap, cell)
    }
}
