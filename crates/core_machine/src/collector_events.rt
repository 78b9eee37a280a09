//! The fifteen kinds of event of the collector.
ghost use Rattle.core_machine.specs.Takes.{Takes};
ghost use Rattle.core_machine.specs.Collector.{posted_control};
ghost use Rattle.core_machine.specs.Handshakes.{wanted_of};
ghost use Rattle.core_machine.specs.declared.events.Event.TheVariants as event;
ghost use Rattle.core_machine.specs.InRange.{InRange};
ghost use Rattle.core_machine.specs.Next.{next};
ghost use Rattle.std.specs.Prelude.{◌+◌, ◌<◌, ◌≡◌, ◌^◌};

use crate::collector_conditions::{is_black_found, may_blacken, may_free, may_scan, may_wipe};
use crate::machine::{Machine, NotNow};
use crate::progress::{Sweeping, scan_shaded, scanned, sweep_of};
use crate::words::{answered_out, cleared, may_answer_out, same_status, shaded};
use cell_words::modes::requested;
use cell_words::{Colour, Control, Field, Stage, Status};

impl Machine {
    fn wanted(&self) -> Status
        ensures wanted { result ≡ wanted_of self.now }
    {
        requested(self.control.stage)
    }

    pub(crate) fn post(&mut self, target: Stage) -> Result<(), NotNow>
        requires { InRange self.old }
        ensures event { Takes result self.old (next self.old (event.Post target)) self.new }
    {
        if !self.post_can(target) {
            return Err(NotNow);
        }
        self.control = posted_control(self.control, target);
        self.collector.post(target);
        Ok(())
    }

    pub(crate) fn duty(&mut self, on: bool) -> Result<(), NotNow>
        requires { InRange self.old }
        ensures event { Takes result self.old (next self.old (event.Duty on)) self.new }
    {
        if !self.at_stage(Stage::Idle) {
            return Err(NotNow);
        }
        self.control.duty = on;
        Ok(())
    }

    pub(crate) fn poll(&mut self, i: u32) -> Result<(), NotNow>
        requires { InRange self.old }
        ensures event { Takes result self.old (next self.old (event.Poll i)) self.new }
    {
        if !self.poll_can(i) {
            return Err(NotNow);
        }
        let is_answer = same_status(self.presence(i).status, self.wanted());
        self.collector.answer(i as usize, is_answer);
        Ok(())
    }

    pub(crate) fn answer_out(&mut self, i: u32, over: bool) -> Result<(), NotNow>
        requires { InRange self.old }
        ensures event { Takes result self.old (next self.old (event.AnswerOut i over)) self.new }
    {
        if !self.answer_out_can(i) {
            return Err(NotNow);
        }
        let wanted = self.wanted();
        let found = self.presence(i);
        self.presences[i as usize] = answered_out(wanted, over, found);
        self.collector
            .answer(i as usize, may_answer_out(wanted, over, found));
        Ok(())
    }

    pub(crate) fn clear(&mut self) -> Result<(), NotNow>
        requires { InRange self.old }
        ensures event { Takes result self.old (next self.old event.ClearCell) self.new }
    {
        if !self.clear_can() {
            return Err(NotNow);
        }
        let cell = self.cursor();
        let found = self.colour(cell);
        self.colours[cell as usize] = cleared(found);
        self.collector.advance();
        Ok(())
    }

    pub(crate) fn mark_anchor(&mut self) -> Result<(), NotNow>
        requires { InRange self.old }
        ensures event { Takes result self.old (next self.old event.Anchor) self.new }
    {
        if !self.anchor_can() {
            return Err(NotNow);
        }
        let found = self.colour(0);
        self.colours[0] = shaded(found);
        self.collector.mark_anchor();
        Ok(())
    }

    pub(crate) fn see(&mut self, cell: u32) -> Result<(), NotNow>
        requires { InRange self.old }
        ensures event { Takes result self.old (next self.old (event.See cell)) self.new }
    {
        if !self.see_can(cell) {
            return Err(NotNow);
        }
        let found = self.colour(cell);
        self.collector.see(self.cells, cell, found);
        Ok(())
    }

    pub(crate) fn scan_field(&mut self) -> Result<(), NotNow>
        requires { InRange self.old }
        ensures event { Takes result self.old (next self.old event.Scan) self.new }
    {
        let Some(scan) = self.scan() else {
            return Err(NotNow);
        };
        if !may_scan(Some(scan)) {
            return Err(NotNow);
        }
        let found = self.field(scan.cell, scan.next);
        self.collector.set_scan(Some(scanned(scan, found)));
        Ok(())
    }

    pub(crate) fn shade(&mut self) -> Result<(), NotNow>
        requires { InRange self.old }
        ensures event { Takes result self.old (next self.old event.Shade) self.new }
    {
        let Some(scan) = self.scan() else {
            return Err(NotNow);
        };
        let Some(child) = scan.child else {
            return Err(NotNow);
        };
        let found = self.colour(child);
        self.colours[child as usize] = shaded(found);
        self.collector.set_scan(Some(scan_shaded(scan)));
        Ok(())
    }

    pub(crate) fn blacken(&mut self) -> Result<(), NotNow>
        requires { InRange self.old }
        ensures event { Takes result self.old (next self.old event.Blacken) self.new }
    {
        let Some(scan) = self.scan() else {
            return Err(NotNow);
        };
        if !may_blacken(Some(scan)) {
            return Err(NotNow);
        }
        self.colours[scan.cell as usize] = Colour::Black;
        self.collector.set_scan(None);
        Ok(())
    }

    pub(crate) fn sweep_look(&mut self) -> Result<(), NotNow>
        requires { InRange self.old }
        ensures event { Takes result self.old (next self.old event.SweepLook) self.new }
    {
        if !self.sweep_look_can() {
            return Err(NotNow);
        }
        let found = self.colour(self.control.position);
        self.collector.set_sweep(sweep_of(found));
        Ok(())
    }

    pub(crate) fn wipe(&mut self) -> Result<(), NotNow>
        requires { InRange self.old }
        ensures event { Takes result self.old (next self.old event.Wipe) self.new }
    {
        let Sweeping::Wiping(wiped) = self.sweep() else {
            return Err(NotNow);
        };
        if !may_wipe(Sweeping::Wiping(wiped)) {
            return Err(NotNow);
        }
        self.set_field(self.control.position, wiped, Field::Null);
        self.collector.set_sweep(Sweeping::Wiping(wiped + 1));
        Ok(())
    }

    pub(crate) fn free(&mut self) -> Result<(), NotNow>
        requires { InRange self.old }
        ensures event { Takes result self.old (next self.old event.Free) self.new }
    {
        if !may_free(self.sweep()) {
            return Err(NotNow);
        }
        let cell = self.control.position as usize;
        self.colours[cell] = Colour::Blue;
        self.collector.free(cell);
        Ok(())
    }

    pub(crate) fn whiten(&mut self) -> Result<(), NotNow>
        requires { InRange self.old }
        ensures event { Takes result self.old (next self.old event.Whiten) self.new }
    {
        if !is_black_found(self.sweep()) {
            return Err(NotNow);
        }
        self.colours[self.control.position as usize] = Colour::White;
        self.collector.set_sweep(Sweeping::Done);
        Ok(())
    }

    pub(crate) fn advance(&mut self) -> Result<(), NotNow>
        requires { InRange self.old }
        ensures event { Takes result self.old (next self.old event.Advance) self.new }
    {
        if !self.advance_can() {
            return Err(NotNow);
        }
        self.control.position += 1;
        self.collector.set_sweep(Sweeping::Fresh);
        Ok(())
    }
}

/// The control of the next stage.
fn posted_control(control: Control, target: Stage) -> Control
    requires { control.cycles + 1 < 2 ^ 32 }
    ensures control { result ≡ posted_control control target }
{
    match target {
        Stage::Idle => Control {
            stage: target,
            position: 0,
            cycles: control.cycles + 1,
            ..control
        },
        Stage::Sweep => Control {
            stage: target,
            position: 0,
            ..control
        },
        Stage::Sync1 | Stage::Clear | Stage::Sync2 | Stage::Trace => {
            Control {
                stage: target,
                ..control
            }
        }
    }
}
