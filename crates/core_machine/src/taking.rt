//! The one call that takes an event.
ghost use Rattle.core_machine.specs.InRange.{InRange};
ghost use Rattle.core_machine.specs.Next.{next};
ghost use Rattle.core_machine.specs.Takes.{Takes};
ghost use Rattle.std.specs.Prelude.{◌≡◌};

use crate::events::Event;
use crate::machine::{Machine, NotNow};

impl Machine {
    /// Takes the event, if it can happen. It takes no memory.
    pub fn apply(&mut self, event: Event) -> Result<(), NotNow>
        requires { InRange self.old }
        ensures event { Takes result self.old (next self.old event) self.new }
        ensures range { InRange self.new }
        ensures cells { self.new.cells ≡ self.old.cells }
        ensures mutators { self.new.mutators ≡ self.old.mutators }
    {
        self.take(event)
    }

    fn take(&mut self, event: Event) -> Result<(), NotNow>
        requires { InRange self.old }
        ensures event { Takes result self.old (next self.old event) self.new }
    {
        match event {
            Event::Begin(i) => self.begin(i),
            Event::Look(i) => self.look(i),
            Event::Read(i, place, f) => self.read(i, place, f),
            Event::Fetch(i, place, f) => self.fetch(i, place, f),
            Event::Mark(i, place) => self.mark(i, place),
            Event::Write(i, place, f, old, new) => self.write(i, place, f, old, new),
            Event::Store(i, new) => self.store(i, new),
            Event::Claim(i, cell) => self.claim(i, cell),
            Event::Fill(i, place, f, value) => self.fill(i, place, f, value),
            Event::Seal(i, place, kind) => self.seal(i, place, kind),
            Event::Answer(i) => self.answer(i),
            Event::Keep(i, count, from, copies) => self.keep(i, count, from, copies),
            Event::End(i) => self.end(i),
            Event::Over(i) => self.over(i),
            Event::Post(target) => self.post(target),
            Event::Duty(on) => self.duty(on),
            Event::Poll(i) => self.poll(i),
            Event::AnswerOut(i, over) => self.answer_out(i, over),
            Event::ClearCell => self.clear(),
            Event::Anchor => self.mark_anchor(),
            Event::See(cell) => self.see(cell),
            Event::Scan => self.scan_field(),
            Event::Shade => self.shade(),
            Event::Blacken => self.blacken(),
            Event::SweepLook => self.sweep_look(),
            Event::Wipe => self.wipe(),
            Event::Free => self.free(),
            Event::Whiten => self.whiten(),
            Event::Advance => self.advance(),
        }
    }
}
