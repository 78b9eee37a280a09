//! The fourteen kinds of event of a mutator.
ghost use Rattle.core_machine.specs.declared.events.Event.TheVariants as event;
ghost use Rattle.core_machine.specs.Takes.{Takes};
ghost use Rattle.core_machine.specs.InRange.{InRange};
ghost use Rattle.core_machine.specs.Next.{next};

use crate::machine::{Machine, NotNow};
use crate::words::{born_colour, claimed, kind_field, shaded, written};
use cell_words::modes::next_status;
use cell_words::{Field, Kind, Presence};

impl Machine {
    pub(crate) fn begin(&mut self, i: u32) -> Result<(), NotNow>
        requires { InRange self.old }
        ensures event { Takes result self.old (next self.old (event.Begin i)) self.new }
    {
        if !self.may_begin(i) {
            return Err(NotNow);
        }
        let presence = self.presence(i);
        self.presences[i as usize] = Presence {
            inside: true,
            ..presence
        };
        self.parts.begin(i as usize);
        Ok(())
    }

    pub(crate) fn look(&mut self, i: u32) -> Result<(), NotNow>
        requires { InRange self.old }
        ensures event { Takes result self.old (next self.old (event.Look i)) self.new }
    {
        if !self.look_can(i) {
            return Err(NotNow);
        }
        self.parts.look(i as usize, self.control);
        Ok(())
    }

    pub(crate) fn read(&mut self, i: u32, place: usize, f: usize) -> Result<(), NotNow>
        requires { InRange self.old }
        ensures event { Takes result self.old (next self.old (event.Read i place f)) self.new }
    {
        if !self.read_can(i, place, f) {
            return Err(NotNow);
        }
        let found = self.field(self.held(i, place), f);
        self.parts.read(i as usize, found);
        Ok(())
    }

    pub(crate) fn fetch(&mut self, i: u32, place: usize, f: usize) -> Result<(), NotNow>
        requires { InRange self.old }
        ensures event { Takes result self.old (next self.old (event.Fetch i place f)) self.new }
    {
        if !self.fetch_can(i, place, f) {
            return Err(NotNow);
        }
        let found = self.field(self.held(i, place), f);
        self.parts.fetch(i as usize, place, f, found);
        Ok(())
    }

    pub(crate) fn mark(&mut self, i: u32, place: usize) -> Result<(), NotNow>
        requires { InRange self.old }
        ensures event { Takes result self.old (next self.old (event.Mark i place)) self.new }
    {
        if !self.mark_can(i, place) {
            return Err(NotNow);
        }
        let cell = self.held(i, place);
        let found = self.colour(cell);
        self.colours[cell as usize] = shaded(found);
        self.parts.mark(i as usize, cell);
        Ok(())
    }

    pub(crate) fn write(
        &mut self,
        i: u32,
        place: usize,
        f: usize,
        old: Field,
        new: Field,
    ) -> Result<(), NotNow>
        requires { InRange self.old }
        ensures event { Takes result self.old
            (next self.old (event.Write i place f old new)) self.new }
    {
        if !self.write_can(i, place, f, old, new) {
            return Err(NotNow);
        }
        let cell = self.held(i, place);
        let found = self.field(cell, f);
        self.set_field(cell, f, written(found, old, new));
        self.parts.spend(i as usize);
        Ok(())
    }

    pub(crate) fn store(&mut self, i: u32, new: Field) -> Result<(), NotNow>
        requires { InRange self.old }
        ensures event { Takes result self.old (next self.old (event.Store i new)) self.new }
    {
        if !self.store_can(i, new) {
            return Err(NotNow);
        }
        let begun = self.begun(i);
        self.set_field(self.held(i, begun.place), begun.f, new);
        self.parts.spend(i as usize);
        Ok(())
    }

    pub(crate) fn claim(&mut self, i: u32, cell: u32) -> Result<(), NotNow>
        requires { InRange self.old }
        ensures event { Takes result self.old (next self.old (event.Claim i cell)) self.new }
    {
        if !self.claim_can(i, cell) {
            return Err(NotNow);
        }
        let found = self.colour(cell);
        let born = born_colour(self.presence(i).status, self.mode(i), cell);
        self.colours[cell as usize] = claimed(found, born);
        self.parts.claim(i as usize, cell, found);
        Ok(())
    }

    pub(crate) fn fill(
        &mut self,
        i: u32,
        place: usize,
        f: usize,
        value: Field,
    ) -> Result<(), NotNow>
        requires { InRange self.old }
        ensures event { Takes result self.old
            (next self.old (event.Fill i place f value)) self.new }
    {
        if !self.fill_can(i, place, f, value) {
            return Err(NotNow);
        }
        self.set_field(self.held(i, place), f, value);
        Ok(())
    }

    pub(crate) fn seal(&mut self, i: u32, place: usize, kind: Kind) -> Result<(), NotNow>
        requires { InRange self.old }
        ensures event { Takes result self.old (next self.old (event.Seal i place kind)) self.new }
    {
        if !self.seal_can(i, place) {
            return Err(NotNow);
        }
        self.set_field(self.held(i, place), 5, kind_field(kind));
        Ok(())
    }

    pub(crate) fn answer(&mut self, i: u32) -> Result<(), NotNow>
        requires { InRange self.old }
        ensures event { Takes result self.old (next self.old (event.Answer i)) self.new }
    {
        if !self.answer_can(i) {
            return Err(NotNow);
        }
        let presence = self.presence(i);
        self.presences[i as usize] = Presence {
            status: next_status(presence.status),
            ..presence
        };
        self.parts.spend(i as usize);
        Ok(())
    }

    pub(crate) fn keep(
        &mut self,
        i: u32,
        count: usize,
        from: usize,
        copies: usize,
    ) -> Result<(), NotNow>
        requires { InRange self.old }
        ensures event { Takes result self.old
            (next self.old (event.Keep i count from copies)) self.new }
    {
        if !self.keep_can(i, count, from, copies) {
            return Err(NotNow);
        }
        self.parts.keep(i as usize, count, from, copies);
        Ok(())
    }

    pub(crate) fn end(&mut self, i: u32) -> Result<(), NotNow>
        requires { InRange self.old }
        ensures event { Takes result self.old (next self.old (event.End i)) self.new }
    {
        if !self.is_in(i) {
            return Err(NotNow);
        }
        let presence = self.presence(i);
        self.presences[i as usize] = Presence {
            inside: false,
            ..presence
        };
        self.parts.end(i as usize);
        Ok(())
    }

    pub(crate) fn over(&mut self, i: u32) -> Result<(), NotNow>
        requires { InRange self.old }
        ensures event { Takes result self.old (next self.old (event.Over i)) self.new }
    {
        if !self.may_begin(i) {
            return Err(NotNow);
        }
        let presence = self.presence(i);
        self.presences[i as usize] = Presence {
            over: true,
            ..presence
        };
        Ok(())
    }
}
