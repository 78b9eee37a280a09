//! A client between its setup and its end: what its thread takes with it, and gives back.
use client_run::Session;

/// What the worker of a client has of its own.
#[derive(Drop)]
pub struct Client {
    pub session: Session,
    /// memory ran out for an answer, and it stopped there
    pub failed: bool,
}
