//! Schedules of the collector's events as text, and the core machine run by them.
//!
//! `read_schedule` reads a whole schedule by a fixed grammar: the layer above may rely on its steps
//! being those of the definition, and on a fault naming the first faulty line and what is wrong
//! there. `replay` takes the steps with the core machine, and gives exactly the text that the
//! definition has of them.
//!
//! Reading order: `fault`, `numbers`, `start`, `step`, `verb`, `event`, `line`, `schedule`;
//! then specs/Replay and specs/Turns; `schedule_replay`, `replaying`, `replay_text`, `theorems`.
#![tactic(auto)]

mod event;
mod fault;
mod line;
mod numbers;
mod replay_text;
mod replaying;
mod schedule;
mod schedule_replay;
mod start;
mod step;
pub mod theorems;
mod verb;

pub use crate::fault::{ScheduleError, ScheduleFault, ScheduleKind};
pub use crate::line::Numbered;
pub use crate::schedule::{Schedule, read_schedule};
pub use crate::schedule_replay::replay;
pub use crate::start::Sizes;
pub use crate::step::Step;
