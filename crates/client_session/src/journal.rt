//! What a client keeps of its commands. It borrows the heap for each answer alone: so a log
//! outlives its heap, and whoever owns both decides who joins the mutator.
ghost use Rattle.std.specs.Prelude.{◌≡◌, ◌≤◌, []};
ghost use Rattle.client_session.specs.Turns.{InStep};
ghost use Rattle.client_history.specs.State.{ClientState};
ghost use Rattle.doc_records.specs.Trees.{tree_of};
ghost use Rattle.doc_tree.specs.Tree.{empty};

use doc_model::Log;
use run_limits::MOST_CLIENTS;
use std::alloc::Global;

/// How many versions can be asked for, the number of the last that can be made, and how many
/// private records there is room for.
#[derive(Clone, Copy, Debug, PartialEq, Eq)]
pub struct Limits {
    pub keep: u32,
    pub versions: u32,
    pub minor: u32,
}

/// A client's log, with the place of its last entry. The commands that it answers are calls of
/// `answer`.
#[derive(Debug, Drop)]
pub struct Journal {
    pub limits: Limits,
    pub last: u64,
    pub log: Log,
}

impl Journal {
    /// The journal of a client that was answered nothing yet.
    pub fn new(alloc: Global, client: u32, limits: Limits) -> Journal
        requires client { (1 ≤ client) × (client ≤ MOST_CLIENTS) }
        ensures limits { result.limits ≡ limits }
        ensures last { result.last ≡ 0 }
        ensures client { result.log.client ≡ client }
        ensures entries { result.log.entries ≡ [] }
        ensures step { (s : ClientState) → s.pass.keep ≡ limits.keep → s.pass.commits ≡ []
            → tree_of s.draft ≡ empty → InStep result s }
    {
        Journal {
            limits,
            last: 0,
            log: Log::new(alloc, client),
        }
    }

    pub fn log(&self) -> &Log
        ensures { result.now ≡ self.now.log }
    {
        &self.log
    }

    pub fn into_log(self) -> Log
        ensures { result ≡ self.log }
    {
        self.log
    }
}
