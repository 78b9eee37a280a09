//! Laws on what calls leave of held places: the contracts of functions that do nothing.
ghost use Rattle.std.specs.Prelude.{◌≡◌, ◌≢◌, ◌<◌, ◌≤◌, ◌∷◌, ◌++◌, [], length, List, take, true, ℕ};
ghost use Rattle.cell_words.specs.declared.fields.Field.{Field};
ghost use Rattle.core_machine.specs.declared.events.Event.TheVariants as event;
ghost use Rattle.core_machine.specs.declared.events.Found.{Found};
ghost use Rattle.core_machine.specs.declared.events.Found.TheVariants as finds;
ghost use Rattle.core_machine.specs.Words.{same_field};
ghost use Rattle.heap_rule.specs.declared.known.Learned.{Learned};
ghost use Rattle.heap_rule.specs.Asks.{known_of, target};
ghost use Rattle.held_places.specs.Calls.{Goes, Holds, KnownBehind, KnownNamed, Overwrote};
ghost use Rattle.held_places.specs.Calls.{StaysKnown, WasRead};
ghost use Rattle.mutator_events.specs.declared.values.Value.{Value};
ghost use Rattle.mutator_events.specs.Events.{AtEvent};
ghost use Rattle.mutator_events.specs.Values.{field_at};
ghost use Rattle.mutator_seat.specs.Bound.{Bound, held_cells, takes};
ghost use Rattle.mutator_seat.specs.Claims.{Claimed};
ghost use Rattle.mutator_seat.specs.Stores.{Exchanged, Overwritten};
ghost use Rattle.mutator_seat.specs.Writes.{IsNamed, Updated};
ghost use Rattle.trails.specs.Asks.{Ask, wrote_at};

use heap_rule::Keeping;

/// Two calls, one after the other, leave what one call that does both leaves.
pub fn calls_join<P: Keeping>()
    ensures trail { (first second : List Ask) (a b c : Bound P) → Goes first a b
        → Goes second b c → Goes (first ++ second) a c }
    ensures places { (first second : List ℕ) (a b c : Bound P) → Holds P.fixed first a b
        → Holds P.fixed second b c → Holds P.fixed (first ++ second) a c }
{}

/// A read holds the cell that it finds, after all others, and the trail shows it.
pub fn a_read_holds_what_it_finds<P: Keeping>()
    ensures { (next : Learned → Found → P → P) (a b : Bound P) (place f : ℕ) (found : Field)
        → b.heap ≡ a.heap → b.seat.table ≡ a.seat.table → place < length a.seat.me.own.held
        → AtEvent P.holds P.fixed a.seat.me (event.Read a.seat.me.number place f) next
        (finds.Field found) b.seat.me → WasRead P.fixed a b place f found }
{}

/// The trail shows a write, with what it found: the write was made if that is the old value. What
/// is known of a place stays, except that of a fresh cell which the write changes or names.
pub fn a_write_is_shown<P: Keeping>()
    ensures trail { (next : Learned → Found → P → P) (a b : Bound P) (place f : ℕ)
        (old new : Value) (found : Field) → Updated P.holds P.fixed next a place f old new found b
        → Goes (wrote_at (target a.seat.me place) f (field_at a.seat.me.own.held old)
        (field_at a.seat.me.own.held new) found ∷ []) a b }
    ensures places { (next : Learned → Found → P → P) (a b : Bound P) (place f : ℕ)
        (old new : Value) (found : Field) → Updated P.holds P.fixed next a place f old new found b
        → length a.seat.me.known ≡ length a.seat.me.own.held
        → KnownBehind P.fixed a b place new }
{}

/// A cut keeps what is known of the places that are left.
pub fn a_cut_keeps_the_first_places<P: Keeping>()
    ensures trail { (b c : Bound P) (n : ℕ) (p : Found)
        → c ≡ takes b (event.Keep b.seat.me.number n 0 0) p → Goes [] b c }
    ensures places { (b c : Bound P) (n : ℕ) (p : Found)
        → c ≡ takes b (event.Keep b.seat.me.number n 0 0) p → StaysKnown P.fixed n b c }
{}

/// So does a store, or the read and the exchange in its place.
pub fn a_store_keeps_places<P: Keeping>()
    ensures stored { (next : Learned → Found → P → P) (a b : Bound P) (place f : ℕ) (new : Value)
        → place < length a.seat.me.own.held → IsNamed a.seat.me.own.held new
        → Overwritten P.holds P.fixed next a place f new b → Overwrote P.fixed a b place new }
    ensures exchanged { (reads next : Learned → Found → P → P) (a b : Bound P) (place f : ℕ)
        (new : Value) (seen found : Field) → place < length a.seat.me.own.held
        → IsNamed a.seat.me.own.held new
        → Exchanged P.holds P.fixed reads next a place f new seen found b
        → Overwrote P.fixed a b place new }
{}

/// A fresh box that a store names is known as a box from then on, and so is one that a write names
/// which was made: it need not be read back.
pub fn a_named_box_is_known<P: Keeping>()
    ensures stored { (next : Learned → Found → P → P) (a b : Bound P) (place f : ℕ) (new : Value)
        → place < length a.seat.me.own.held → IsNamed a.seat.me.own.held new
        → Overwritten P.holds P.fixed next a place f new b → KnownNamed a b new }
    ensures exchanged { (reads next : Learned → Found → P → P) (a b : Bound P) (place f : ℕ)
        (new : Value) (seen : Field) → place < length a.seat.me.own.held
        → IsNamed a.seat.me.own.held new
        → Exchanged P.holds P.fixed reads next a place f new seen seen b → KnownNamed a b new }
    ensures written { (next : Learned → Found → P → P) (a b : Bound P) (place f : ℕ)
        (old new : Value) (found : Field) → Updated P.holds P.fixed next a place f old new found b
        → length a.seat.me.known ≡ length a.seat.me.own.held
        → same_field found (field_at a.seat.me.own.held old) ≡ true → KnownNamed a b new }
{}

/// A claim holds a cell that stood at no place, after all others. What was known is still known.
pub fn a_claim_holds_a_new_cell<P: Keeping>()
    ensures trail { (a b : Bound P) (fresh : ℕ) → Claimed a fresh b → Goes [] a b }
    ensures places { (a b : Bound P) (fresh : ℕ) → Claimed a fresh b
        → StaysKnown P.fixed (length a.seat.me.own.held) a b }
    ensures apart { (a b : Bound P) (fresh : ℕ) → Claimed a fresh b → (place : ℕ)
        → place < length a.seat.me.own.held → target b.seat.me place ≢ target b.seat.me fresh }
{}

/// A keep of the first places with one more holds that one's cell after them, and what is known of
/// each is still known.
pub fn a_keep_moves_one_place<P: Keeping>()
    ensures trail { (b c : Bound P) (n place : ℕ) (p : Found)
        → c ≡ takes b (event.Keep b.seat.me.number n place 1) p → Goes [] b c }
    ensures places { (b c : Bound P) (n place : ℕ) (p : Found)
        → c ≡ takes b (event.Keep b.seat.me.number n place 1) p
        → place < length b.seat.me.own.held → n ≤ length b.seat.me.own.held
        → length b.seat.me.known ≡ length b.seat.me.own.held
        → held_cells c ≡ take n (held_cells b) ++ target b.seat.me place ∷ [] }
    ensures known { (b c : Bound P) (n place : ℕ) (p : Found)
        → c ≡ takes b (event.Keep b.seat.me.number n place 1) p
        → place < length b.seat.me.own.held → n ≤ length b.seat.me.own.held
        → length b.seat.me.known ≡ length b.seat.me.own.held
        → StaysKnown P.fixed n b c × (known_of c.seat.me n ≡ known_of b.seat.me place) }
{}
