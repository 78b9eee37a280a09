//! A whole cycle of the plain collector in one call.
//!
//! The turns end because each event leaves less to do: specs/Left has the number that falls, and
//! proofs/Finishing why. With every mutator out nothing holds a handshake up.
ghost use Rattle.core_machine.specs.declared.events.Event.{Event};
ghost use Rattle.dlg_core.specs.Left.{IsOnItsWay};
ghost use Rattle.dlg_core.specs.Plain.{next_plain_of};
ghost use Rattle.dlg_core.specs.PlainCycle.{HasFinished, all_out, ends_cycle};
ghost use Rattle.dlg_core.specs.PlainCycle.{may_finish, turn_with};
ghost use Rattle.dlg_core.specs.Runs.{LeadsTo};
ghost use Rattle.dlg_core.specs.Safe.{IsSafe};
ghost use Rattle.std.specs.Prelude.{IfErr, IfOk, Some, false, length, true, ◌+◌, ◌≡◌};

use crate::machine::Core;
use cell_words::{GREATEST_CYCLES, Stage};
use core_machine::{Event, NotNow};

impl Core {
    /// Takes a whole cycle of the plain collector, and says how many events it had. A caller that
    /// has no threads collects by it. It goes over all cells, as often as tracing needs, and takes
    /// no memory.
    pub fn finish_cycle(&mut self) -> Result<u64, NotNow>
        ensures finished { IfOk result (λ taken. HasFinished self.old taken self.new) }
        ensures possible { IfOk result (λ taken. may_finish self.old ≡ true) }
        ensures refused { IfErr result (λ refusal. (may_finish self.old ≡ false) × (self.new ≡ self.old)) }
        ensures safe { IsSafe self.new }
    {
        let _ = &self.machine;
        if !self.may_finish() {
            return Err(NotNow);
        }
        Ok(self.turns())
    }

    // Whether a cycle may begin here, and nobody is in who would have to answer.
    fn may_finish(&self) -> bool
        ensures { result ≡ may_finish self.now }
    {
        let control = self.control();
        control.stage == Stage::Idle && control.cycles < GREATEST_CYCLES && self.are_out()
    }

    // Whether every mutator is out.
    fn are_out(&self) -> bool
        ensures { result ≡ all_out self.now }
    {
        let machine = &self.machine;
        for m in 0..machine.mutators() {
            if machine.presence(m).inside {
                return false;
            }
        }
        true
    }

    // The turns of a cycle, and how many events they had.
    fn turns(&mut self) -> u64
        requires { may_finish self.old ≡ true }
        ensures finished { HasFinished self.old result self.new }
        ensures safe { IsSafe self.new }
    {
        let _ = &self.machine;
        let mut taken = 0;
        let _mutators = self.mutators();
        loop {
            let _ = &self.machine;
            let event = self.next_plain().unwrap();
            taken += self.turn(event);
            if ends_cycle(event) {
                return taken;
            }
        }
    }

    // A turn, and how many events it had.
    fn turn(&mut self, event: Event) -> u64
        requires plain { next_plain_of self.old ≡ Some event }
        requires way { IsOnItsWay self.old }
        ensures leads { LeadsTo self.old (turn_with event) self.new }
        ensures many { result ≡ length (turn_with event) }
        ensures safe { IsSafe self.new }
    {
        let _ = &self.machine;
        let looks = self.look(event);
        self.apply(event).unwrap();
        looks + 1
    }

    // The look before an answer for a mutator, and before another event nothing.
    fn look(&mut self, event: Event) -> u64
        requires plain { next_plain_of self.old ≡ Some event }
        requires way { IsOnItsWay self.old }
        ensures stays { self.new ≡ self.old }
        ensures many { result + 1 ≡ length (turn_with event) }
    {
        let _ = &self.machine;
        match event {
            Event::AnswerOut(m, _) => {
                self.apply(Event::Poll(m)).unwrap();
                1
            }
            _ => 0,
        }
    }
}

fn ends_cycle(event: Event) -> bool
    ensures { result ≡ ends_cycle event }
{
    matches!(event, Event::Post(Stage::Idle))
}
