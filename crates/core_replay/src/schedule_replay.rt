//! A schedule taken by a core, step by step.
ghost use Rattle.core_replay.specs.Outcomes.{told_by};
ghost use Rattle.core_replay.specs.Replay.{IsReplayText, Leads, Writes};
ghost use Rattle.core_replay.specs.ReplayText.{ending_of};
ghost use Rattle.std.specs.Prelude.{IfOk, List, length, string_bytes, ℕ, ◌*◌, ◌++◌, ◌+◌, ◌<◌, ◌^◌};
ghost use Rattle.std.specs.Prelude.{◌≡◌, ◌≤◌};

use crate::line::Numbered;
use crate::replay_text::refusal_line;
use crate::replaying::Replaying;
use crate::schedule::Schedule;
use crate::step::Step;
use dlg_core::NoMemory;
use std::alloc::Global;

/// The replay text of the schedule: a line for each cell that is shown, a line where a step could
/// not be taken, how many events were taken and how many cells are free at the end.
pub fn replay(alloc: Global, schedule: &Schedule) -> Result<Vec<u8>, NoMemory>
    ensures text { IfOk result (λ text. IsReplayText schedule.now text.items) }
{
    let mut replaying = Replaying::open(alloc, schedule.sizes())?;
    replaying.whole(alloc, schedule.steps())
}

impl Replaying {
    // Takes the steps, and gives what they write, with the last two lines.
    fn whole(&mut self, alloc: Global, steps: &[Numbered]) -> Result<Vec<u8>, NoMemory>
        requires { self.old.taken + length steps.now * 2 ^ 18 < 2 ^ 64 }
        ensures text { IfOk result (λ text. (lines : List ℕ)
            × Writes self.old steps.now lines self.new × (text.items ≡ lines ++ ending_of self.new)) }
    {
        let mut text = self.steps(alloc, steps)?;
        text.extend_from_slice(self.ending(alloc)?.as_bytes())?;
        Ok(text)
    }

    // Takes the steps, and gives what they write.
    fn steps(&mut self, alloc: Global, steps: &[Numbered]) -> Result<Vec<u8>, NoMemory>
        requires { self.old.taken + length steps.now * 2 ^ 18 < 2 ^ 64 }
        ensures text { IfOk result (λ text. Writes self.old steps.now text.items self.new) }
    {
        let mut text = Vec::new(alloc);
        for numbered in steps {
            match self.step(alloc, numbered.step)? {
                Some(shown) => text.extend_from_slice(shown.as_bytes())?,
                None => {
                    text.extend_from_slice(refusal_line(alloc, numbered.line)?.as_bytes())?;
                    return Ok(text);
                }
            }
        }
        Ok(text)
    }

    // Takes a step and gives what it writes, or nothing where it could not be taken to its end.
    fn step(&mut self, alloc: Global, step: Step) -> Result<Option<String>, NoMemory>
        requires { self.old.taken + 2 ^ 18 < 2 ^ 64 }
        ensures outcome { IfOk result (λ told. Leads self.old step (told_by told self.new)) }
        ensures few { self.new.taken ≤ self.old.taken + 2 ^ 18 }
    {
        let went = match step {
            Step::Take(event) => self.take(event).is_ok(),
            Step::Plain => self.plain(),
            Step::Show(cell) => return self.show(alloc, cell),
        };
        Ok(if went { Some(String::new(alloc)) } else { None })
    }
}
