//! The commit: a new box over the version that a mutator has, and one exchange of the anchor's
//! field.
ghost use Rattle.std.specs.Prelude.{◌≡◌, ◌<◌, ◌≤◌, ◌+◌, ◌↔◌, IfErr, IfOk, OnOk, length, []};
ghost use Rattle.std.specs.Prelude.{◌⊎◌, OnErr, true, false};
ghost use Rattle.cell_words.specs.declared.fields.Field.TheVariants as field;
ghost use Rattle.core_machine.specs.Words.{same_field};
ghost use Rattle.free_cells.specs.Hints.{queue_of};
ghost use Rattle.heap_rule.specs.Asks.{target};
ghost use Rattle.mutator_events.specs.declared.values.Value.TheVariants as values;
ghost use Rattle.mutator_seat.specs.Writes.{MayUpdate, PicksUpdate, Updated};
ghost use Rattle.version_rule.specs.Versions.{HoldsVersions, is_fixed};
ghost use Rattle.version_store.specs.Calls.{Holds};
ghost use Rattle.held_places.specs.Calls.{IsIn};
ghost use Rattle.version_store.specs.Commits.{Committed, FindsNewer, Refused, ShowsRefusal};
ghost use Rattle.version_store.specs.Held.{IsHeld, IsRecord, term_at};
ghost use Rattle.version_store.specs.Lasts.{IsSameMutator, LastsAcross};
ghost use Rattle.version_store.specs.Makes.{Behind, IsClaimed, Makes, MayMake};
ghost use Rattle.version_store.specs.Writes.{Leaves, LosesOnce, WritesNothing, WritesOnce};

use crate::fault::CommitFault;
use crate::places::STORE_PLACES;
use crate::reading::latest;
use free_cells::Hints;
use mutator_seat::{Choice, Moved, Mutator, Value};
use run_limits::{MOST_COMMANDS, MOST_VERSIONS};
use std::marker::Brand;
use std::sync::Wait;
use version_rule::{HeldVersion, Spelling, Versions};

/// Makes the next version, with the tree at a place, over a version that is held. It first checks
/// whether the numbers are used up, and then claims a cell. The new version appears with one
/// exchange, of the anchor's field. The exchange is not tried again where another mutator has made
/// a version first.
pub fn commit<S: Spelling, R: Wait>(
    rt: &R,
    hints: &mut Hints<'_>,
    m: &mut Mutator<'_, Versions<S>>,
    v: HeldVersion,
    tree: usize,
    versions: u64,
) -> Result<u64, CommitFault>
    requires inside { m.old.seat.me.presence.inside ≡ true }
    requires room { length m.old.seat.me.own.held + STORE_PLACES ≤ m.old.seat.me.room }
    requires version { IsHeld m.old v }
    requires root { IsRecord m.old tree }
    requires spells { S.is_tree (term_at m.old tree) }
    requires few { length m.old.seat.me.pass.commits < MOST_COMMANDS }
    ensures number { IfOk result (λ number. number ≡ v.number + 1) }
    ensures made { OnOk result (Committed S.is_tree S.tree_of m.old m.new v tree) }
    ensures rose { OnOk result (m.new.seat.me.own.claims ≡ m.old.seat.me.own.claims + 1) }
    ensures refused { IfErr result (λ fault. Refused m.old m.new v fault) }
    ensures worn { (result ≡ Err CommitFault.Worn) ↔ (v.number ≡ versions) }
    ensures shows { IfErr result (λ fault. ShowsRefusal m.old m.new fault) }
    ensures writes { OnOk result (WritesOnce m.old m.new) }
    ensures leaves { IfErr result (λ fault. Leaves m.old m.new fault) }
    ensures held { Holds [] m.old m.new }
    ensures lasts { LastsAcross m.old m.new }
    ensures same { IsSameMutator m.old m.new }
    ensures queue { queue_of hints.new ≡ queue_of hints.old }
{
    if v.number == versions {
        return Err(CommitFault::Worn);
    }
    let held = m.held_len();
    match m.claim(rt, hints) {
        Ok(fresh) => {
            let put = put_version(m, v, tree, fresh);
            m.cut(held);
            match put {
                Ok(number) => Ok(number),
                Err(newer) => Err(CommitFault::Moved { newer }),
            }
        }
        Err(full) => Err(CommitFault::Full(full)),
    }
}

/// Makes the claimed cell a version's box and puts it over the version, if that is still the
/// latest. Otherwise it tells the number of a newer one.
fn put_version<S: Spelling>(
    m: &mut Mutator<'_, Versions<S>>,
    v: HeldVersion,
    tree: usize,
    fresh: usize,
) -> Result<u64, u64>
    requires inside { IsIn m.old }
    requires room { length m.old.seat.me.own.held + 8 ≤ m.old.seat.me.room }
    requires claimed { IsClaimed m.old fresh v.place tree }
    requires version { IsHeld m.old v }
    requires root { IsRecord m.old tree }
    requires spells { S.is_tree (term_at m.old tree) }
    requires few { length m.old.seat.me.pass.commits < MOST_COMMANDS }
    ensures number { IfOk result (λ number. number ≡ v.number + 1) }
    ensures made { OnOk result (Committed S.is_tree S.tree_of m.old m.new v tree) }
    ensures newer { IfErr result (λ newer. FindsNewer m.old m.new v newer) }
    ensures behind { Behind fresh m.old m.new }
    ensures writes { OnOk result (WritesOnce m.old m.new) }
    ensures leaves { OnErr result (WritesNothing m.old m.new ⊎ LosesOnce m.old m.new) }
{
    let newest = latest(m);
    if newest.number != v.number {
        return Err(newest.number);
    }
    make_version(m, v.number + 1, v.place, tree, fresh);
    match publish::<S, Brand>(m, v.place, tree, fresh) {
        Ok(()) => Ok(v.number + 1),
        Err(_) => Err(latest(m).number),
    }
}

/// Fills the claimed cell, and makes it a box. The version before it may have the number
/// `MOST_VERSIONS`.
fn make_version<S: Spelling>(
    m: &mut Mutator<'_, Versions<S>>,
    number: u64,
    latest: usize,
    tree: usize,
    fresh: usize,
)
    requires may { MayMake m.old fresh latest tree }
    requires small { number ≤ MOST_VERSIONS + 1 }
    ensures makes { Makes m.old m.new fresh number latest tree }
    ensures writes { WritesNothing m.old m.new }
{
    m.fill::<Brand>(fresh, 0, Value::Num(number));
    m.fill::<Brand>(fresh, 1, Value::Held(tree));
    m.fill::<Brand>(fresh, 2, Value::Held(latest));
    m.seal_box(fresh);
}

/// Exchanges the anchor's field, from the version's box to the fresh one. The tree's place only
/// serves the pass that the caller picks; at run time it does nothing.
fn publish<S: Spelling, C: Choice<Versions<S>>>(
    m: &mut Mutator<'_, Versions<S>>,
    latest: usize,
    tree: usize,
    fresh: usize,
) -> Result<(), Moved>
    requires may { MayUpdate is_fixed m.old.seat.me 0 0 (values.Held latest) (values.Held fresh) }
    requires rule { PicksUpdate (HoldsVersions S.is_tree S.tree_of) is_fixed C.next m.old 0 0
        (values.Held latest) (values.Held fresh) }
    ensures made { OnOk result (Updated (HoldsVersions S.is_tree S.tree_of) is_fixed C.next m.old 0 0
        (values.Held latest) (values.Held fresh) (field.Cell (target m.old.seat.me latest)) m.new) }
    ensures moved { IfErr result (λ moved.
        (same_field moved.found (field.Cell (target m.old.seat.me latest)) ≡ false)
        × Updated (HoldsVersions S.is_tree S.tree_of) is_fixed C.next m.old 0 0
        (values.Held latest) (values.Held fresh) moved.found m.new) }
{
    let _ = tree;
    m.update::<C>(0, 0, Value::Held(latest), Value::Held(fresh))
}
