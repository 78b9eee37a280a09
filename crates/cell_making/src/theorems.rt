//! Laws on a mutator that works from the anchor on: the contracts of functions that do nothing.
ghost use Rattle.std.specs.Prelude.{◌≡◌, ◌<◌, true, length, ℕ};
ghost use Rattle.cell_words.specs.declared.fields.Field.{Field};
ghost use Rattle.core_machine.specs.State.{field_of};
ghost use Rattle.core_machine.specs.declared.events.Event.TheVariants as event;
ghost use Rattle.core_machine.specs.declared.events.Found.TheVariants as finds;
ghost use Rattle.heap_rule.specs.Asks.{IsSealedValue, is_sealed, known_of, target};
ghost use Rattle.heap_rule.specs.Steps.{same_pass};
ghost use Rattle.mutator_events.specs.declared.values.Value.TheVariants as values;
ghost use Rattle.mutator_events.specs.Events.{AtEvent};
ghost use Rattle.mutator_events.specs.Values.{field_at};
ghost use Rattle.mutator_seat.specs.Bound.{Bound, held_cells, takes};
ghost use Rattle.cell_making.specs.Resting.{HasPass, Loose, Rests};

use heap_rule::Keeping;

/// The cut to the anchor brings it to rest, whatever it held.
pub fn a_cut_brings_to_rest<P: Keeping>()
    ensures rests { (a b : Bound P) → b ≡ takes a (event.Keep a.seat.me.number 1 0 0)
        (finds.Presence a.seat.me.presence) → (room : ℕ) → Loose room a → Rests room b }
    ensures pass { (a b : Bound P) → b ≡ takes a (event.Keep a.seat.me.number 1 0 0)
        (finds.Presence a.seat.me.presence) → HasPass a.seat.me.pass a b }
{}

/// A read finds the word that its field has at that step.
pub fn a_read_finds_the_word<P: Keeping>()
    ensures { (a b : Bound P) → b.heap ≡ a.heap → b.seat.table ≡ a.seat.table → (place f : ℕ)
        → place < length a.seat.me.own.held → (found : Field)
        → (step : AtEvent P.holds P.fixed a.seat.me (event.Read a.seat.me.number place f) same_pass
        (finds.Field found) b.seat.me) → (x : ℕ) (w : Field) → target a.seat.me place ≡ x
        → field_of step.core x f ≡ w → found ≡ w }
{}

/// What is known to be sealed may be named in a write.
pub fn a_sealed_place_may_be_named<P: Keeping>()
    ensures { (m : Bound P) (place : ℕ) → place < length m.seat.me.own.held
        → is_sealed (known_of m.seat.me place) ≡ true
        → IsSealedValue (held_cells m) m.seat.me.known
        (field_at m.seat.me.own.held (values.Held place)) }
{}
