//! Laws on lore and boxes, for any number of cells and any client, and what the rule of a heap says
//! between any two steps: the contracts of functions that do nothing.
ghost use Rattle.cell_words.specs.declared.fields.Field.{Field};
ghost use Rattle.core_machine.specs.declared.events.Event.{Event};
ghost use Rattle.core_machine.specs.declared.events.Event.TheVariants as event;
ghost use Rattle.core_machine.specs.InRange.{IsShaped};
ghost use Rattle.core_machine.specs.Next.{after, can};
ghost use Rattle.core_machine.specs.State.{State};
ghost use Rattle.dlg_core.specs.Consistent.{IsConsistent};
ghost use Rattle.dlg_core.specs.Safe.{IsSafe};
ghost use Rattle.dlg_core.specs.Sums.{IsBalanced};
ghost use Rattle.heap_rule.specs.Boxes.{boxes_by, boxes_of, Smaller};
ghost use Rattle.heap_rule.specs.Facts.{Facts, Proper};
ghost use Rattle.heap_rule.specs.Lore.{Lore, lore_after};
ghost use Rattle.heap_rule.specs.Laws.{CollectorShows, FoundUsedWasClaimed, GarbageWasFreed};
ghost use Rattle.heap_rule.specs.Laws.{IsLastOf, NoReachableIsFree, SeatShows, ShowsRun};
ghost use Rattle.heap_rule.specs.Laws.{UsedWasClaimed};
ghost use Rattle.heap_rule.specs.Rule.{Kept};
ghost use Rattle.heap_rule.specs.Settled.{NamesSettled};
ghost use Rattle.heap_rule.specs.Shape.{Shape};
ghost use Rattle.heap_rule.specs.Steps.{Picks, same_pass};
ghost use Rattle.heap_rule.specs.declared.view.Role.TheVariants as role;
ghost use Rattle.heap_rule.specs.declared.view.View.{View};
ghost use Rattle.atomic_table.specs.Table.{State as TableState};
ghost use Rattle.std.specs.Prelude.{Bool, true, length, ℕ, ◌≡◌};
ghost use mathlib.Core.Option.{some};
ghost use lib.ListN.{get_elem?};

use crate::keeping::Keeping;

/// The facts on lore stay with every event that spares fixed fields and seals what has a term:
/// records have their terms, fresh cells are their mutator's alone, and what each mutator knows is
/// so.
pub fn facts_on_lore_stay()
    ensures { (fixed : ℕ → Bool) (s : State) (l : Lore) (e : Event) → IsShaped s → IsConsistent s
        → Facts fixed s l → can s e ≡ true → Proper fixed s l e
        → Facts fixed (after s e) (lore_after s l e) }
{}

/// The boxes after such an event are a smaller map than those before it; after a write that was
/// made and after a store than those with the new entry, and there and after a fill with what the
/// value names.
pub fn boxes_grow_smaller()
    ensures { (fixed : ℕ → Bool) (s : State) (l : Lore) (e : Event) → IsShaped s → IsConsistent s
        → Facts fixed s l → can s e ≡ true → Proper fixed s l e
        → Smaller (boxes_by s l e) (boxes_of (after s e) (lore_after s l e)) }
{}

/// A read that leaves its pass keeps any client's rule, and so does a fetch.
pub fn a_read_keeps_any_rule<P: Keeping>()
    ensures read { (v : View P) (i place f : ℕ) → Picks P.holds P.fixed same_pass v
        (event.Read i place f) }
    ensures fetch { (v : View P) (i place f : ℕ) → Picks P.holds P.fixed same_pass v
        (event.Fetch i place f) }
{}

/// A fill of a raw cell with null, with a number or with a cell that is known as a record or as a
/// box that is not fresh keeps any client's rule, with the pass as it is.
pub fn a_settled_fill_keeps_any_rule<P: Keeping>()
    ensures { (v : View P) (place f : ℕ) (value : Field) → NamesSettled v value
        → Picks P.holds P.fixed same_pass v (event.Fill v.number place f value) }
{}

/// Between any two steps, whatever seats there are and in whatever threads: the words of a table
/// with the rule show a safe core state, which is the last one of a run from the opening; and all
/// that the laws below say one by one.
pub fn a_table_shows_a_safe_run<S, P: Keeping>()
    ensures { (h : Shape) (s : TableState S (View P)) → Kept P.opening P.holds P.fixed h s
        → ShowsRun P.opening P.holds P.fixed h s }
{}

/// The words are those of the state that the run from the opening ends in.
pub fn the_words_end_a_run<S, P: Keeping>()
    ensures { (h : Shape) (s : TableState S (View P)) (k : Kept P.opening P.holds P.fixed h s)
        → IsLastOf h s.words k.ledger.run k.ledger.core }
{}

/// The state is safe, and the colour word of no cell that the anchor or a mutator reaches is that
/// of a free one.
pub fn no_reachable_cell_is_free<S, P: Keeping>()
    ensures safe { (h : Shape) (s : TableState S (View P)) (k : Kept P.opening P.holds P.fixed h s)
        → IsSafe k.ledger.core }
    ensures words { (h : Shape) (s : TableState S (View P))
        (k : Kept P.opening P.holds P.fixed h s) → NoReachableIsFree s.words k.ledger.core }
{}

/// A mutator's seat has that one's room, own part, presence, knowledge and pass, and its trail is
/// the mutator's events of the run; what it holds is reachable.
pub fn a_seat_shows_its_mutator<S, P: Keeping>()
    ensures { (h : Shape) (s : TableState S (View P)) (k : Kept P.opening P.holds P.fixed h s)
        (j : ℕ) (v : View P) → get_elem? s.views j ≡ some v → v.role ≡ role.Mutator
        → SeatShows k.ledger.core k.ledger.lore k.ledger.passes k.ledger.run v }
{}

/// The collector's seat has the control, the collector's part and its events of the run, and what
/// each mutator left whose seat was joined.
pub fn the_collectors_seat_shows_its_part<S, P: Keeping>()
    ensures { (h : Shape) (s : TableState S (View P)) (k : Kept P.opening P.holds P.fixed h s)
        (j : ℕ) (v : View P) → get_elem? s.views j ≡ some v → v.role ≡ role.Collector
        → CollectorShows P.opening h k.ledger.core k.ledger.passes k.ledger.run v }
{}

/// The first rows and all claims are the cells that are not free and all that were freed.
pub fn claims_and_frees_agree<S, P: Keeping>()
    ensures { (h : Shape) (s : TableState S (View P)) (k : Kept P.opening P.holds P.fixed h s)
        → IsBalanced (length h.first) k.ledger.core }
{}

/// A cell that is not free is a first row or was claimed in the run; and so is one that some claim
/// of the run found not free, before that claim.
pub fn what_is_used_was_claimed<S, P: Keeping>()
    ensures now { (h : Shape) (s : TableState S (View P)) (k : Kept P.opening P.holds P.fixed h s)
        → UsedWasClaimed h k.ledger.run k.ledger.core }
    ensures found { (h : Shape) (s : TableState S (View P))
        (k : Kept P.opening P.holds P.fixed h s) → FoundUsedWasClaimed h k.ledger.run }
{}

/// Garbage before two whole cycles of the run, wherever they stand in it, is freed by their end.
pub fn garbage_of_a_run_is_freed<S, P: Keeping>()
    ensures { (h : Shape) (s : TableState S (View P)) (k : Kept P.opening P.holds P.fixed h s)
        → GarbageWasFreed h k.ledger.run k.ledger.core.rooms }
{}

/// The client's rule stands on the boxes and the passes, and the facts on lore stand.
pub fn the_clients_rule_stands<S, P: Keeping>()
    ensures rule { (h : Shape) (s : TableState S (View P)) (k : Kept P.opening P.holds P.fixed h s)
        → P.holds (boxes_of k.ledger.core k.ledger.lore) k.ledger.passes }
    ensures facts { (h : Shape) (s : TableState S (View P))
        (k : Kept P.opening P.holds P.fixed h s) → Facts P.fixed k.ledger.core k.ledger.lore }
{}
