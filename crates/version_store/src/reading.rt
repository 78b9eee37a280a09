//! Reading versions: the latest one, and the tree of one that is held.
ghost use Rattle.std.specs.Prelude.{ℕ, ◌≡◌, ◌<◌, ◌≤◌, ◌+◌, length, true, [], ◌∷◌};
ghost use Rattle.cell_words.specs.Term.{Term};
ghost use Rattle.cell_words.specs.declared.fields.Field.TheVariants as field;
ghost use Rattle.heap_rule.specs.Asks.{target};
ghost use Rattle.trails.specs.Asks.{Shows, gave_at};
ghost use Rattle.version_rule.specs.Knowing.{KnowsVersion};
ghost use Rattle.held_places.specs.Calls.{IsCoherent, IsIn};
ghost use Rattle.version_rule.specs.Shows.{version_asks};
ghost use Rattle.version_store.specs.Held.{GivesLatest, GivesRoot, IsHeld};
ghost use Rattle.version_store.specs.Lasts.{IsSameMutator, LastsAcross, marks};
ghost use Rattle.version_store.specs.Reads.{FindsLatest, FindsNumber};
ghost use Rattle.version_store.specs.Writes.{ReadsAlone, WritesNothing};

use crate::places::STORE_PLACES;
use mutator_seat::{Mutator, Value};
use std::marker::Brand;
use version_rule::{HeldVersion, Spelling, Versions};

/// The latest version. Two reads: of the anchor's field, and of the number of the box that it
/// named. There may be a newer one by the time that this returns.
pub fn current<S: Spelling>(m: &mut Mutator<'_, Versions<S>>) -> HeldVersion
    requires inside { m.old.seat.me.presence.inside ≡ true }
    requires room { length m.old.seat.me.own.held + STORE_PLACES ≤ m.old.seat.me.room }
    ensures latest { GivesLatest m.old m.new result }
    ensures seen { m.new.seat.me.pass.seen ≡ result.number }
    ensures shows { Shows (version_asks (target m.new.seat.me result.place) result.number)
        (marks m.old) (marks m.new) }
    ensures writes { WritesNothing m.old m.new }
    ensures lasts { LastsAcross m.old m.new }
    ensures same { IsSameMutator m.old m.new }
{
    // A mutator that is in holds the anchor first.
    let _ = m.held_len();
    let newest = latest(m);
    newest
}

/// The latest version, where there is room for one place.
pub(crate) fn latest<S: Spelling>(m: &mut Mutator<'_, Versions<S>>) -> HeldVersion
    requires inside { IsIn m.old }
    requires room { length m.old.seat.me.own.held + 1 < m.old.seat.me.room }
    ensures latest { GivesLatest m.old m.new result }
    ensures seen { m.new.seat.me.pass.seen ≡ result.number }
    ensures coherent { IsCoherent m.old.seat.me }
    ensures many { length m.new.seat.me.known ≡ length m.new.seat.me.own.held }
    ensures writes { WritesNothing m.old m.new }
{
    let place = read_anchor(m);
    let number = read_number(m, place);
    HeldVersion { number, place }
}

/// Reads which box the anchor names.
fn read_anchor<S: Spelling>(m: &mut Mutator<'_, Versions<S>>) -> usize
    requires inside { IsIn m.old }
    requires room { length m.old.seat.me.own.held < m.old.seat.me.room }
    ensures latest { FindsLatest m.old m.new result }
    ensures writes { WritesNothing m.old m.new }
{
    match m.read::<Brand>(0, 0) {
        Value::Held(place) => place,
        Value::Null | Value::Num(_) => unreachable!(),
    }
}

/// Reads the number of the version at a place.
pub(crate) fn read_number<S: Spelling>(m: &mut Mutator<'_, Versions<S>>, place: usize) -> u64
    requires inside { IsIn m.old }
    requires room { length m.old.seat.me.own.held < m.old.seat.me.room }
    requires version { (number : ℕ) × ((root : Term)
        × KnowsVersion m.old.seat.me place number root) }
    ensures number { FindsNumber m.old m.new place result }
    ensures writes { WritesNothing m.old m.new }
    ensures alone { ReadsAlone m.old m.new }
{
    match m.read::<Brand>(place, 0) {
        Value::Num(number) => number,
        Value::Null | Value::Held(_) => unreachable!(),
    }
}

/// The root of the version's tree. One read, which the pass keeps from then on.
pub fn tree<S: Spelling>(m: &mut Mutator<'_, Versions<S>>, v: HeldVersion) -> usize
    requires inside { m.old.seat.me.presence.inside ≡ true }
    requires room { length m.old.seat.me.own.held + STORE_PLACES ≤ m.old.seat.me.room }
    requires version { IsHeld m.old v }
    ensures root { GivesRoot S.is_tree S.tree_of m.old m.new v result }
    ensures shows { Shows (gave_at (target m.old.seat.me v.place) 1
        (field.Cell (target m.new.seat.me result)) ∷ []) (marks m.old) (marks m.new) }
    ensures writes { WritesNothing m.old m.new }
    ensures lasts { LastsAcross m.old m.new }
    ensures same { IsSameMutator m.old m.new }
{
    // What is held is what the trail leaves.
    let _ = m.held_len();
    match m.read::<Brand>(v.place, 1) {
        Value::Held(place) => place,
        Value::Null | Value::Num(_) => unreachable!(),
    }
}
