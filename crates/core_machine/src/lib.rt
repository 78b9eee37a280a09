//! The core machine of the collector: its state, its kinds of event, and a struct that takes
//! them.
//!
//! The definitions in specs/ are the subject itself: what the state is made of, when an event can
//! happen, what it finds and what it leaves. They bound nothing, and each layer above cites them.
//! `Machine` is the state in memory. Its contracts say that a call is exactly one event of those
//! definitions, and that a call which answers `NotNow` had no such event and changed nothing.
//!
//! What holds of every run, as that no reachable cell is free, is not said here. `Machine` asks of
//! its caller the ranges that its indexing and counting rest on, `InRange`. They hold at the
//! opening, and every event keeps them.
//!
//! Reading order: `events`; specs/State with its parts Own and Collector; the event table in
//! specs/Operations, Mutation, Handshakes, Tracing, Sweep and Next; specs/Conditions, what each
//! event needs under names; then `opening`, `taking` and `machine`. For the layers that share the
//! words among threads: specs/Table, WordOperations, Frames and Trail.
#![tactic(auto)]

mod collector_conditions;
mod collector_events;
mod collector_part;
mod events;
mod machine;
mod mutator_conditions;
mod mutator_events;
mod mutator_part;
mod mutator_parts;
mod opening;
mod own_part;
mod pending;
mod places;
mod progress;
mod taking;
mod words;

pub use collector_part::CollectorPart;
pub use events::{Event, Found, Taken};
pub use machine::{Machine, NotNow};
pub use own_part::OwnPart;
pub use pending::Pending;
pub use places::Held;
pub use progress::{Scanning, Sweeping};
pub use std::alloc::AllocError as NoMemory;
