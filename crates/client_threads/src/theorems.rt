//! A law on the sessions that clients begin with: the contract of a function that does nothing.
ghost use Rattle.std.specs.Prelude.{◌+◌, ℕ};
ghost use Rattle.client_run.specs.Own.{IsNewSession};
ghost use Rattle.client_session.specs.declared.journal.Limits.{Limits};
ghost use Rattle.client_run.specs.declared.session.Session.{Session};
ghost use Rattle.client_threads.specs.Clients.{IsReady, IsSessionFor, places_for};
ghost use Rattle.client_threads.specs.declared.clients.Client.{Client};
ghost use Rattle.free_cells.specs.declared.queue.FreeQueue.{FreeQueue};
ghost use Rattle.heap_table.specs.Seats.{HeapId};
ghost use Rattle.mutator_threads.specs.declared.worker.Worker.{Worker};
ghost use Rattle.version_rule.specs.Pass.{Pass};

/// A session asks of its mutator's room only a lower bound: a session that may answer by each
/// mutator of the room that its private heap needs may answer by each that has more. So a session
/// for that room is just a new session of client_run, and a ready client has one.
pub fn a_session_answers_with_more_room()
    ensures new { (l : Limits) (client : ℕ) (s : Session)
        → IsSessionFor l client (places_for l.minor) s → IsNewSession l client s }
    ensures each { (l : Limits) (client room : ℕ) (s : Session) → IsNewSession l client s
        → IsSessionFor l client room s }
    ensures ready { (heap : HeapId) (queue : FreeQueue) (l : Limits)
        (number : ℕ) (client : Worker Pass Client) → IsReady heap queue l number client
        → IsNewSession l (number + 1) client.own.session }
{}
