//! Walking back along the links of versions: to an older version, and to the link that is due to be
//! cut.
ghost use Rattle.std.specs.Prelude.{◌≡◌, ◌<◌, ◌≤◌, ◌+◌, ◌⊎◌, IfErr, IfNone, IfOk, IfSome, OnErr};
ghost use Rattle.std.specs.Prelude.{OnOk, [], false, length, true};
ghost use Rattle.cell_words.specs.declared.fields.Field.{Field};
ghost use Rattle.core_machine.specs.Words.{same_field};
ghost use Rattle.mutator_events.specs.declared.values.Value.TheVariants as values;
ghost use Rattle.mutator_seat.specs.Stores.{Exchanged, MayOverwrite, Overwritten, PicksOverwrite};
ghost use Rattle.version_rule.specs.Versions.{HoldsVersions, is_fixed};
ghost use Rattle.version_store.specs.Calls.{Holds};
ghost use Rattle.held_places.specs.Calls.{IsIn};
ghost use Rattle.version_store.specs.Commits.{FindsNewer, ShowsNewer};
ghost use Rattle.version_store.specs.Held.{IsHeld};
ghost use Rattle.version_store.specs.Lasts.{IsSameMutator, LastsAcross};
ghost use Rattle.version_store.specs.Older.{GivesOlder, Trims};
ghost use Rattle.version_store.specs.Walks.{CutsOff, EndsThere, FollowsLink, LinkIsNull, LinkTaken};
ghost use Rattle.version_store.specs.Walks.{PicksLink, Stopped, Walked};
ghost use Rattle.version_store.specs.Writes.{ReadsAlone, WritesLink, WritesNothing};

use crate::fault::Cut;
use crate::places::STORE_PLACES;
use crate::reading::{latest, read_number};
use mutator_seat::{Choice, Moved, Mutator, Value};
use std::marker::Brand;
use version_rule::{HeldVersion, Spelling, Versions};

/// The version so many below. Where a link on the way is null, that version was cut off; by then so
/// many were made that a version newer than `v` is read.
pub fn older<S: Spelling>(
    m: &mut Mutator<'_, Versions<S>>,
    v: HeldVersion,
    back: u64,
) -> Result<HeldVersion, Cut>
    requires inside { m.old.seat.me.presence.inside ≡ true }
    requires room { length m.old.seat.me.own.held + STORE_PLACES ≤ m.old.seat.me.room }
    requires version { IsHeld m.old v }
    requires back { back ≤ v.number }
    requires kept { back < m.old.seat.me.pass.keep }
    ensures older { IfOk result (λ older. GivesOlder m.old m.new v back older) }
    ensures cut { IfErr result (λ cut. FindsNewer m.old m.new v cut.newer) }
    ensures shows { IfErr result (λ cut. ShowsNewer m.old m.new cut.newer) }
    ensures held { OnErr result (Holds [] m.old m.new) }
    ensures claims { m.new.seat.me.own.claims ≡ m.old.seat.me.own.claims }
    ensures writes { WritesNothing m.old m.new }
    ensures lasts { LastsAcross m.old m.new }
    ensures same { IsSameMutator m.old m.new }
{
    let held = m.held_len();
    match walk_back::<S, Brand>(m, v, back) {
        Some(found) => {
            m.keep(held, found.place, 1);
            Ok(HeldVersion {
                number: found.number,
                place: held,
            })
        }
        None => {
            let newest = latest(m);
            m.cut(held);
            Err(Cut {
                newer: newest.number,
            })
        }
    }
}

/// Cuts off what is older than the `keep` versions up to this one: the link of the oldest of these
/// becomes null, if the links still lead to it.
pub fn trim<S: Spelling>(m: &mut Mutator<'_, Versions<S>>, v: HeldVersion, keep: u64)
    requires inside { m.old.seat.me.presence.inside ≡ true }
    requires room { length m.old.seat.me.own.held + STORE_PLACES ≤ m.old.seat.me.room }
    requires version { IsHeld m.old v }
    requires setting { keep ≡ m.old.seat.me.pass.keep }
    ensures trims { keep ≤ v.number → Trims m.old m.new v keep }
    ensures nothing { v.number < keep → m.new ≡ m.old }
    ensures held { Holds [] m.old m.new }
    ensures writes { WritesNothing m.old m.new ⊎ WritesLink m.old m.new }
    ensures lasts { LastsAcross m.old m.new }
    ensures same { IsSameMutator m.old m.new }
{
    if keep <= v.number {
        let held = m.held_len();
        cut_off(m, v, keep);
        m.cut(held);
    }
}

/// Walks to the oldest version that stays, and cuts its link.
fn cut_off<S: Spelling>(m: &mut Mutator<'_, Versions<S>>, v: HeldVersion, keep: u64)
    requires inside { IsIn m.old }
    requires room { length m.old.seat.me.own.held + STORE_PLACES ≤ m.old.seat.me.room }
    requires version { IsHeld m.old v }
    requires setting { keep ≡ m.old.seat.me.pass.keep }
    requires enough { keep ≤ v.number }
    ensures cuts { CutsOff m.old m.new v keep }
    ensures writes { WritesNothing m.old m.new ⊎ WritesLink m.old m.new }
{
    match walk_back::<S, Brand>(m, v, keep.saturating_sub(1)) {
        Some(oldest) => cut_link(m, v, oldest),
        None => (),
    }
}

/// Follows so many links, or as far as one that is null. The number is read first, since a read
/// shows that as much is known as is held.
fn walk_back<S: Spelling, C: Choice<Versions<S>>>(
    m: &mut Mutator<'_, Versions<S>>,
    v: HeldVersion,
    back: u64,
) -> Option<HeldVersion>
    requires inside { IsIn m.old }
    requires room { length m.old.seat.me.own.held + STORE_PLACES ≤ m.old.seat.me.room }
    requires version { IsHeld m.old v }
    requires back { back ≤ v.number }
    requires kept { back ≤ m.old.seat.me.pass.keep }
    requires picks { PicksLink (HoldsVersions S.is_tree S.tree_of) C.next }
    ensures walked { IfSome result (λ at. Walked m.old m.new v at back) }
    ensures stopped { IfNone result (Stopped C.next m.old m.new v back) }
    ensures writes { WritesNothing m.old m.new }
    ensures alone { ReadsAlone m.old m.new }
{
    let _ = read_number(m, v.place);
    let mut at = v;
    for _ in 0..back {
        match follow::<S, C>(m, at) {
            Some(before) => at = before,
            None => return None,
        }
    }
    Some(at)
}

/// Reads the link of a version.
fn follow<S: Spelling, C: Choice<Versions<S>>>(
    m: &mut Mutator<'_, Versions<S>>,
    v: HeldVersion,
) -> Option<HeldVersion>
    requires inside { IsIn m.old }
    requires room { length m.old.seat.me.own.held < m.old.seat.me.room }
    requires version { IsHeld m.old v }
    requires later { 1 ≤ v.number }
    requires picks { PicksLink (HoldsVersions S.is_tree S.tree_of) C.next }
    ensures follows { IfSome result (λ before. FollowsLink m.old m.new v before) }
    ensures ends { IfNone result (EndsThere C.next m.old m.new v) }
    ensures writes { WritesNothing m.old m.new }
    ensures alone { ReadsAlone m.old m.new }
{
    match m.read::<C>(v.place, 2) {
        Value::Held(place) => Some(HeldVersion {
            number: v.number - 1,
            place,
        }),
        Value::Null => None,
        Value::Num(_) => unreachable!(),
    }
}

/// Makes the link of a version null, once as many versions as stay are made from it on. Where
/// another mutator has done so first, nothing is left to do.
fn cut_link<S: Spelling>(m: &mut Mutator<'_, Versions<S>>, newest: HeldVersion, oldest: HeldVersion)
    requires inside { IsIn m.old }
    requires room { length m.old.seat.me.own.held + 1 < m.old.seat.me.room }
    requires newest { IsHeld m.old newest }
    requires oldest { IsHeld m.old oldest }
    requires later { 1 ≤ oldest.number }
    requires due { oldest.number + m.old.seat.me.pass.keep ≤ newest.number + 1 }
    ensures cut { LinkIsNull m.old m.new oldest }
    ensures writes { WritesNothing m.old m.new ⊎ WritesLink m.old m.new }
{
    match follow::<S, Brand>(m, oldest) {
        Some(_) => take_link(m, newest, oldest),
        None => (),
    }
}

/// Stores null over the link of a version. Where no store may be begun, the link is exchanged for
/// null instead. If this exchange comes too late, another mutator has cut the link, and nothing is
/// left to do.
fn take_link<S: Spelling>(
    m: &mut Mutator<'_, Versions<S>>,
    newest: HeldVersion,
    oldest: HeldVersion,
)
    requires inside { IsIn m.old }
    requires room { length m.old.seat.me.own.held < m.old.seat.me.room }
    requires newest { IsHeld m.old newest }
    requires oldest { IsHeld m.old oldest }
    requires due { oldest.number + m.old.seat.me.pass.keep ≤ newest.number + 1 }
    ensures taken { LinkTaken m.old m.new oldest }
    ensures writes { WritesLink m.old m.new }
{
    let _ = newest;
    let _ = end_link::<S, Brand, Brand>(m, oldest.place);
}

/// The one write of a trim: null goes into the link of the version at a place.
fn end_link<S: Spelling, R: Choice<Versions<S>>, C: Choice<Versions<S>>>(
    m: &mut Mutator<'_, Versions<S>>,
    place: usize,
) -> Result<(), Moved>
    requires may { MayOverwrite is_fixed m.old.seat.me place 2 values.Null }
    requires rule { PicksOverwrite (HoldsVersions S.is_tree S.tree_of) is_fixed R.next C.next m.old
        place 2 values.Null }
    ensures made { OnOk result (Overwritten (HoldsVersions S.is_tree S.tree_of) is_fixed C.next m.old
        place 2 values.Null m.new ⊎ ((seen : Field) × Exchanged (HoldsVersions S.is_tree S.tree_of)
        is_fixed R.next C.next m.old place 2 values.Null seen seen m.new)) }
    ensures moved { IfErr result (λ moved. (seen : Field) × (same_field moved.found seen ≡ false)
        × Exchanged (HoldsVersions S.is_tree S.tree_of) is_fixed R.next C.next m.old place 2
        values.Null seen moved.found m.new) }
{
    m.store::<R, C>(place, 2, Value::Null)
}
