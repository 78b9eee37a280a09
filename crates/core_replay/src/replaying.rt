//! A replay on its way: one event, and the turns of the plain collector.
//!
//! The turns of a line `plain` end because each leaves the collector less to do: dlg_core's
//! specs/Left has the number that falls.
ghost use Rattle.core_machine.specs.Takes.{Takes};
ghost use Rattle.core_replay.specs.Outcomes.{outcome_by, told_by, turn_with_last};
ghost use Rattle.core_replay.specs.Replay.{shown};
ghost use Rattle.core_replay.specs.ReplayText.{ending_of};
ghost use Rattle.core_replay.specs.Standing.{HasFallen, opened, taken_by};
ghost use Rattle.core_replay.specs.Turns.{PlainLeads, is_post, looked, turn_of};
ghost use Rattle.core_replay.specs.ScheduleValue.{are_sizes};
ghost use Rattle.dlg_core.specs.Plain.{next_plain_of};
ghost use Rattle.dlg_core.specs.PlainCycle.{look_before};
ghost use Rattle.std.specs.Prelude.{IfOk, IsTrue, Some, string_bytes, ◌+◌, ◌<◌, ◌^◌, ◌≡◌, ◌≤◌};

use crate::replay_text::{cell_line, last_lines};
use crate::start::Sizes;
use cell_words::{Field, Row};
use core_machine::{Event, NotNow};
use dlg_core::{Core, NoMemory};
use std::alloc::Global;
use std::marker::Model;

/// The core of a replay, and how many events it has taken.
#[derive(Drop)]
pub(crate) struct Replaying {
    core: Core,
    taken: u64,
}

impl Model for Replaying {
    ghost use Rattle.core_replay.specs.Standing.{IsReplayed, Standing};

    ghost Value = { Standing };

    ghost view = { λ r. record { core = r.core; taken = r.taken } };

    ghost invariant = { λ r. IsReplayed r.core };
}

/// How a turn of the plain collector ended.
#[derive(Clone, Copy)]
pub(crate) enum Turned {
    Posted,
    GoesOn,
    Stuck,
}

/// The only cell in use when a replay begins: a box with a null payload.
const ANCHOR: Row = [
    Field::Null,
    Field::Null,
    Field::Null,
    Field::Null,
    Field::Null,
    Field::Num(2),
];

impl Replaying {
    /// Before the first step.
    pub(crate) fn open(alloc: Global, sizes: Sizes) -> Result<Replaying, NoMemory>
        requires { IsTrue (are_sizes sizes) }
        ensures { IfOk result (λ replaying. replaying ≡ opened sizes) }
    {
        let core = Core::open(alloc, sizes.cells, sizes.mutators, sizes.room, &[ANCHOR])?;
        Ok(Replaying { core, taken: 0 })
    }

    /// Takes the event and counts it, if it can happen.
    pub(crate) fn take(&mut self, event: Event) -> Result<(), NotNow>
        requires { self.old.taken + 1 < 2 ^ 64 }
        ensures event { Takes result self.old (taken_by self.old event) self.new }
    {
        self.core.apply(event)?;
        self.taken += 1;
        Ok(())
    }

    /// Takes the turns of the plain collector up to the one that posts, and says whether it came
    /// to that.
    pub(crate) fn plain(&mut self) -> bool
        requires { self.old.taken + 2 ^ 18 < 2 ^ 64 }
        ensures outcome { PlainLeads (outcome_by result self.new) self.old }
        ensures few { self.new.taken ≤ self.old.taken + 2 ^ 18 }
    {
        let _ = &self.core;
        loop {
            match self.turn() {
                Turned::Posted => return true,
                Turned::GoesOn => {}
                Turned::Stuck => return false,
            }
        }
    }

    // The next event of the plain collector, if it has one.
    fn turn(&mut self) -> Turned
        requires { self.old.taken + 2 < 2 ^ 64 }
        ensures turn { turn_of self.old ≡ turn_with_last result self.new }
        ensures falls { result ≡ Turned.GoesOn → HasFallen self.old self.new }
        ensures few { self.new.taken ≤ self.old.taken + 2 }
    {
        match self.core.next_plain() {
            Some(event) => self.turn_with(event),
            None => Turned::Stuck,
        }
    }

    // This event, and before an answer for a mutator a look at it.
    fn turn_with(&mut self, event: Event) -> Turned
        requires plain { next_plain_of self.old.core ≡ Some event }
        requires room { self.old.taken + 2 < 2 ^ 64 }
        ensures turn { turn_of self.old ≡ turn_with_last result self.new }
        ensures falls { result ≡ Turned.GoesOn → HasFallen self.old self.new }
        ensures few { self.new.taken ≤ self.old.taken + 2 }
    {
        let _ = &self.core;
        if let Err(NotNow) = self.look(event) {
            return Turned::Stuck;
        }
        if let Err(NotNow) = self.take(event) {
            return Turned::Stuck;
        }
        if posts(event) {
            Turned::Posted
        } else {
            Turned::GoesOn
        }
    }

    // The look before an answer for a mutator. Before another event there is none.
    fn look(&mut self, event: Event) -> Result<(), NotNow>
        requires { self.old.taken + 1 < 2 ^ 64 }
        ensures look { Takes result self.old (looked self.old (look_before event)) self.new }
    {
        match event {
            Event::AnswerOut(m, _) => self.take(Event::Poll(m)),
            _ => Ok(()),
        }
    }

    /// The line of the cell, or nothing where there is no such cell.
    pub(crate) fn show(&self, alloc: Global, cell: u32) -> Result<Option<String>, NoMemory>
        ensures { IfOk result (λ told. shown self.now cell ≡ told_by told self.now) }
    {
        if cell >= self.core.cells() {
            return Ok(None);
        }
        let line = cell_line(alloc, &self.core, cell)?;
        Ok(Some(line))
    }

    /// The last two lines of the text.
    pub(crate) fn ending(&self, alloc: Global) -> Result<String, NoMemory>
        ensures { IfOk result (λ text. string_bytes text ≡ ending_of self.now) }
    {
        last_lines(alloc, self.taken, self.core.free_count())
    }
}

fn posts(event: Event) -> bool
    ensures { result ≡ is_post event }
{
    matches!(event, Event::Post(_))
}
