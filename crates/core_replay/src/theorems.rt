//! Laws of the definitions: the contracts of functions that do nothing.
ghost use Rattle.core_replay.specs.Replay.{IsReplayText};
ghost use Rattle.core_replay.specs.ScheduleValue.{ScheduleValue, are_sizes};
ghost use Rattle.std.specs.Prelude.{IsTrue, List, ℕ, ◌≡◌};

/// A schedule has one replay text at most.
pub fn a_schedule_has_one_text()
    ensures { (schedule : ScheduleValue) (one other : List ℕ)
        → IsReplayText schedule one → IsReplayText schedule other → one ≡ other }
{}

/// A schedule has a replay text, if its sizes are such as a core can have.
pub fn every_schedule_has_a_text()
    ensures { (schedule : ScheduleValue) → IsTrue (are_sizes schedule.sizes)
        → (text : List ℕ) × IsReplayText schedule text }
{}
