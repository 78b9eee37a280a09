//! Laws on a client's log, its pass and its trail, and on the logs of a run: the contracts of
//! functions that do nothing.
ghost use Rattle.std.specs.Prelude.{ℕ, ◌≡◌, ◌≤◌, ◌++◌, true, List, [], ◌∷◌, length, is_some};
ghost use Rattle.doc_model.specs.Answers.{Limits, full_place, is_full};
ghost use Rattle.doc_model.specs.ClientLog.{ClientLog};
ghost use Rattle.doc_model.specs.declared.answer.Account.{Account};
ghost use Rattle.doc_model.specs.declared.command.Command.{Command};
ghost use Rattle.doc_model.specs.declared.command.Reply.{Reply};
ghost use Rattle.doc_records.specs.Trees.{tree_of};
ghost use Rattle.doc_tree.specs.Tree.{DocTree, empty};
ghost use Rattle.trails.specs.Asks.{Grown};
ghost use Rattle.trails.specs.Marks.{Mark};
ghost use Rattle.version_rule.specs.Fits.{Fits};
ghost use Rattle.version_rule.specs.Pass.{Pass, commit_numbers};
ghost use Rattle.version_rule.specs.Tied.{Tied};
ghost use Rattle.client_history.specs.Runs.{ShowsRun};
ghost use Rattle.client_history.specs.State.{ClientState};
ghost use Rattle.client_history.specs.Turns.{IsInStep, Lost, Turned, account_in, entry_for};
ghost use Rattle.heap_rule.specs.Shape.{Shape};
ghost use Rattle.heap_rule.specs.declared.view.View.{View};
ghost use Rattle.client_history.specs.Agreed.{LogsAgree};
ghost use Rattle.client_history.specs.Closing.{EndedStore};
ghost use Rattle.client_history.specs.Left.{AreLeft};

/// An empty log is in step with a client that has made no version and has an empty draft.
pub fn an_empty_log_is_in_step()
    ensures { (l : Limits) (s : ClientState) (log : ClientLog) → s.pass.keep ≡ l.keep
        → commit_numbers s.pass ≡ [] → tree_of s.draft ≡ empty → log.entries ≡ []
        → IsInStep l s 0 log }
{}

/// A turn that is lost leaves the log in step, and one that is answered leaves it so with the entry
/// added.
pub fn a_turn_keeps_in_step()
    ensures lost { (l : Limits) (s t : ClientState) (last : ℕ) (log : ClientLog)
        → IsInStep l s last log → Lost s t → IsInStep l t last log }
    ensures answered { (l : Limits) (s t : ClientState) (last : ℕ) (log new : ClientLog)
        (c : Command) (r : Reply) (place : ℕ) → IsInStep l s last log
        → Turned l log.client (account_in s last (length log.entries)) c s t r place
        → new.client ≡ log.client
        → new.entries ≡ log.entries
        ++ entry_for log.client (account_in s last (length log.entries)) c r place ∷ []
        → IsInStep l t place new }
{}

/// A log in step is tied to the pass: its new versions are those that the pass has made, and it
/// follows from each list of versions that the pass allows. Each version that was made took a
/// claim.
pub fn a_log_in_step_is_tied()
    ensures tied { (l : Limits) (s : ClientState) (last : ℕ) (log : ClientLog)
        → IsInStep l s last log → Tied l s.pass log }
    ensures made { (l : Limits) (s : ClientState) (last : ℕ) (log : ClientLog)
        → IsInStep l s last log → length (commit_numbers s.pass) ≤ s.claims }
{}

/// A command is answered that the heap was full only where it needs cells; get, list, size, old and
/// dget need none.
pub fn only_what_needs_cells_finds_the_heap_full()
    ensures { (l : Limits) (client : ℕ) (m : Account) (c : Command) (s t : ClientState) (r : Reply)
        (place : ℕ) (trees : List DocTree) → Turned l client m c s t r place
        → Fits trees t.pass → is_full r ≡ true
        → is_some (full_place place m c) ≡ true }
{}

/// The trail of a client whose log is in step shows what it read and where the heap was full, and
/// so does each longer one.
pub fn a_trail_shows_its_log()
    ensures { (l : Limits) (s : ClientState) (last : ℕ) (log : ClientLog) (marks : List Mark)
        → IsInStep l s last log → Grown s.marks marks → ShowsRun s.cells log.entries marks }
{}

/// Where every mutator of a heap of documents was joined and left a client's log, these logs are
/// one history of a store, and each is what its client's trail shows.
pub fn the_logs_of_a_run_agree()
    ensures { (l : Limits) (h : Shape) (words : List ℕ) (v : View Pass) (logs : List ClientLog)
        (ended : EndedStore h words v) → 1 ≤ h.mutators → length logs ≡ h.mutators
        → AreLeft l h.cells logs v.places h.mutators → LogsAgree l h words v logs ended }
{}
