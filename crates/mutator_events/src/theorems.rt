//! What follows from the clauses of a seat's calls, for any client: the contracts of functions that
//! do nothing.
ghost use Rattle.cell_words.specs.Term.{Term, part};
ghost use Rattle.cell_words.specs.declared.fields.Field.{Field};
ghost use Rattle.core_machine.specs.declared.events.Event.TheVariants as event;
ghost use Rattle.core_machine.specs.declared.events.Found.{Found};
ghost use Rattle.core_machine.specs.declared.events.Found.TheVariants as finds;
ghost use Rattle.heap_rule.specs.Asks.{MayRead, known_of};
ghost use Rattle.heap_rule.specs.Parts.{ShowsPart};
ghost use Rattle.heap_rule.specs.declared.known.Known.TheVariants as knows;
ghost use Rattle.heap_rule.specs.declared.known.Learned.{Learned};
ghost use Rattle.heap_rule.specs.declared.view.View.{View};
ghost use Rattle.mutator_events.specs.Events.{AtEvent};
ghost use Rattle.std.specs.Prelude.{ℕ, ◌≡◌};

use heap_rule::Keeping;

/// A read of a record whose term is known finds that part of the term: null, the number, or a
/// record that is held at the next place and has that part for its term.
pub fn a_record_tells_its_parts<P: Keeping>()
    ensures { (v w : View P) (place f : ℕ) (t : Term) (next : Learned → Found → P → P)
        (found : Field) → MayRead v place f → known_of v place ≡ knows.Record t
        → AtEvent P.holds P.fixed v (event.Read v.number place f) next (finds.Field found) w
        → ShowsPart (part f t) v w found }
{}
