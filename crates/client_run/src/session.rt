//! A session: a journal, a private heap with the memory to copy it, and a draft.
ghost use Rattle.std.specs.Prelude.{◌≡◌, ◌<◌, ◌≤◌, IfOk, OnErr, false, length, true};
ghost use Rattle.client_run.specs.Answers.{Answered, CollectsNone, HoldsNoMore, IsSameClient};
ghost use Rattle.client_run.specs.Answers.{Unanswered};
ghost use Rattle.client_run.specs.Own.{IsNewSession, MayAnswer};
ghost use Rattle.client_history.specs.Demands.{is_reading, may_hold_more};
ghost use Rattle.free_cells.specs.Hints.{queue_of};

use crate::over::answer_over;
use aged_nursery::AgedNursery;
use client_history::{Documents, LEAST_MINOR};
use client_session::{Journal, Limits};
use client_trees::NodeAt;
use doc_model::{Command, Log, Reply};
use doc_tree::NoMemory;
use free_cells::Hints;
use minor_heap::MinorField;
use mutator_seat::Mutator;
use promotion::Promoter;
use run_limits::{MOST_CLIENTS, MOST_COMMANDS};
use std::alloc::Global;
use std::sync::Wait;

/// What a client keeps from one command to the next. Its commands are calls of `answer`, each with
/// the same mutator.
pub struct Session {
    pub journal: Journal,
    pub nursery: AgedNursery,
    pub promoter: Promoter,
    pub draft: NodeAt,
    /// so many places are held between commands
    pub base: usize,
}

impl Drop for Session {
    fn drop(self) {
        let Session {
            journal: _journal,
            nursery: _nursery,
            promoter: _promoter,
            draft: _,
            base: _,
        } = self;
    }
}

impl Session {
    /// The session of a client that was answered nothing yet. All its memory but the log's is taken
    /// here. Its mutator is one that is in, holds the anchor alone and made no version.
    pub fn new(alloc: Global, client: u32, limits: Limits) -> Result<Session, NoMemory>
        requires client { (1 ≤ client) × (client ≤ MOST_CLIENTS) }
        requires minor { LEAST_MINOR ≤ limits.minor }
        ensures new { IfOk result (IsNewSession limits client) }
    {
        let mut nursery = AgedNursery::with_room(alloc, limits.minor)?;
        let promoter = Promoter::with_room(alloc, limits.minor)?;
        let fields = [
            MinorField::Null,
            MinorField::Null,
            MinorField::Num(1),
            MinorField::Num(0),
            MinorField::Null,
        ];
        match nursery.heap_mut().make(fields) {
            Ok(made) => Ok(Session {
                journal: Journal::new(alloc, client, limits),
                nursery,
                promoter,
                draft: NodeAt::Minor(made),
                base: 1,
            }),
            Err(_) => unreachable!(),
        }
    }

    /// Answers the client's next command, with an entry in its log. Where memory runs out nothing
    /// is made, and the draft and the log are as before.
    pub fn answer<'h, R: Wait>(
        &mut self,
        alloc: Global,
        rt: &R,
        hints: &mut Hints<'h>,
        m: &mut Mutator<'h, Documents>,
        command: &Command,
    ) -> Result<Reply, NoMemory>
        requires may { MayAnswer self.old m.old }
        requires few { length self.old.journal.log.entries < MOST_COMMANDS }
        ensures answered { IfOk result (Answered command.now self.old m.old self.new m.new) }
        ensures unanswered { OnErr result (Unanswered command.now self.old m.old self.new m.new) }
        ensures reads { is_reading command.now ≡ true
            → CollectsNone self.old m.old self.new m.new }
        ensures held { may_hold_more command.now ≡ false → HoldsNoMore m.old m.new }
        ensures same { IsSameClient self.old m.old self.new m.new }
        ensures queue { queue_of hints.new ≡ queue_of hints.old }
        ensures may { MayAnswer self.new m.new }
    {
        answer_over(alloc, rt, hints, m, self, command)
    }

    /// What the client was answered.
    pub fn log(&self) -> &Log
        ensures { result.now ≡ self.now.journal.log }
    {
        self.journal.log()
    }

    pub fn into_log(self) -> Log
        ensures { result ≡ self.journal.log }
    {
        let Session {
            journal,
            nursery: _nursery,
            promoter: _promoter,
            draft: _,
            base: _,
        } = self;
        journal.into_log()
    }
}
