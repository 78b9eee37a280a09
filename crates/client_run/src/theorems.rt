//! A law on a session between two commands: the contract of a function that does nothing.
ghost use Rattle.std.specs.Prelude.{Bool};
ghost use Rattle.client_run.specs.Own.{MayAnswer};
ghost use Rattle.client_run.specs.declared.session.Session.{Session};
ghost use Rattle.mutator_seat.specs.Bound.{Bound};
ghost use Rattle.mutator_seat.specs.Stretches.{Calm, LookAndAnswer};
ghost use Rattle.version_rule.specs.Pass.{Pass};

/// A session may answer again where its mutator's call `answer` came between: what that call tells
/// of the mutator leaves all that the next command needs.
pub fn a_session_may_answer_behind_a_handshake()
    ensures { (s : Session) (m n : Bound Pass) (answered : Bool) → MayAnswer s m
        → Calm (LookAndAnswer m.seat.me.number m.seat.me.presence.status answered) m n
        → MayAnswer s n }
{}
