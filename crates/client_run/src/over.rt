//! An answer over whatever stands for a mutator and its hints.
ghost use Rattle.std.specs.Prelude.{◌≡◌, ◌<◌, IfOk, OnErr, false, length, true};
ghost use Rattle.client_run.specs.Answers.{Answered, CollectsNone, HoldsNoMore, IsSameClient};
ghost use Rattle.client_run.specs.Answers.{Unanswered};
ghost use Rattle.client_run.specs.Own.{MayAnswer};
ghost use Rattle.client_history.specs.Demands.{is_reading, may_hold_more};

use crate::session::Session;
use client_heap::{OwnHeap, StoreSeat};
use doc_model::{Command, Reply};
use doc_tree::NoMemory;
use run_limits::MOST_COMMANDS;
use std::alloc::Global;
use std::sync::Wait;

/// Answers the next command. The mutator is lent for it, and the session lends its private heap:
/// both come back with all that the next command needs.
pub(crate) fn answer_over<M: StoreSeat, R: Wait>(
    alloc: Global,
    rt: &R,
    hints: &mut M::Hints,
    m: &mut M,
    session: &mut Session,
    command: &Command,
) -> Result<Reply, NoMemory>
    requires may { MayAnswer session.old (M.bound m.old) }
    requires few { length session.old.journal.log.entries < MOST_COMMANDS }
    ensures answered { IfOk result (Answered command.now session.old (M.bound m.old) session.new
        (M.bound m.new)) }
    ensures unanswered { OnErr result (Unanswered command.now session.old (M.bound m.old)
        session.new (M.bound m.new)) }
    ensures reads { is_reading command.now ≡ true
        → CollectsNone session.old (M.bound m.old) session.new (M.bound m.new) }
    ensures held { may_hold_more command.now ≡ false
        → HoldsNoMore (M.bound m.old) (M.bound m.new) }
    ensures same { IsSameClient session.old (M.bound m.old) session.new (M.bound m.new) }
    ensures queue { M.queue hints.new ≡ M.queue hints.old }
    ensures may { MayAnswer session.new (M.bound m.new) }
{
    let mut heap = OwnHeap::new(
        m,
        hints,
        &mut session.nursery,
        &mut session.promoter,
        session.draft,
        session.base,
    );
    let answered = session.journal.answer(alloc, rt, &mut heap, command);
    session.draft = heap.draft_at();
    session.base = heap.base();
    answered
}
