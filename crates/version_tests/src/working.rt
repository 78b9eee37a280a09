//! The calls on versions, as the tests make them.
ghost use Rattle.std.specs.Prelude.{◌≡◌, ◌<◌, ◌≤◌, ◌+◌, length, true};
ghost use Rattle.version_store.specs.Held.{IsHeld};
ghost use Rattle.version_store.specs.Lasts.{IsSameMutator};
ghost use Rattle.version_tests.specs.Grows.{Grows, Works};

use crate::bare::Store;
use free_cells::Hints;
use mutator_seat::{Mutator, Value};
use run_limits::MOST_COMMANDS;
use std::marker::Brand;
use std::sync::Wait;
use version_store::{CommitFault, Cut, HeldVersion, commit, current, older, tree, trim};

/// The latest version.
pub(crate) fn look(m: &mut Mutator<'_, Store>) -> HeldVersion
    requires inside { m.old.seat.me.presence.inside ≡ true }
    requires room { length m.old.seat.me.own.held + 129 ≤ m.old.seat.me.room }
    ensures grows { Grows 1 0 m.old m.new }
    ensures held { IsHeld m.new result }
{
    current(m)
}

/// Commits the tree of a version again.
pub(crate) fn put<R: Wait>(
    rt: &R,
    hints: &mut Hints<'_>,
    m: &mut Mutator<'_, Store>,
    v: HeldVersion,
    versions: u64,
) -> Result<u64, CommitFault>
    requires inside { m.old.seat.me.presence.inside ≡ true }
    requires room { length m.old.seat.me.own.held + 129 ≤ m.old.seat.me.room }
    requires few { length m.old.seat.me.pass.commits < MOST_COMMANDS }
    requires version { IsHeld m.old v }
    ensures grows { Grows 1 1 m.old m.new }
{
    let root = tree(m, v);
    commit(rt, hints, m, v, root, versions)
}

/// The version so many below, if there was one.
pub(crate) fn back(
    m: &mut Mutator<'_, Store>,
    v: HeldVersion,
    steps: u64,
    keep: u64,
) -> Option<Result<HeldVersion, Cut>>
    requires inside { m.old.seat.me.presence.inside ≡ true }
    requires room { length m.old.seat.me.own.held + 129 ≤ m.old.seat.me.room }
    requires keep { m.old.seat.me.pass.keep ≡ keep }
    requires version { IsHeld m.old v }
{
    if steps <= v.number && steps < keep {
        Some(older(m, v, steps))
    } else {
        None
    }
}

/// Whether a version that is held has no link any more.
pub(crate) fn ends_chain(m: &mut Mutator<'_, Store>, v: HeldVersion) -> bool
    requires inside { m.old.seat.me.presence.inside ≡ true }
    requires room { length m.old.seat.me.own.held + 129 ≤ m.old.seat.me.room }
    requires version { IsHeld m.old v }
{
    m.read::<Brand>(v.place, 2) == Value::Null
}

/// The number of the oldest of the `keep` versions up to one, if the chain ends there.
pub(crate) fn oldest(m: &mut Mutator<'_, Store>, v: HeldVersion, keep: u64) -> Option<u64>
    requires inside { m.old.seat.me.presence.inside ≡ true }
    requires room { length m.old.seat.me.own.held + 150 ≤ m.old.seat.me.room }
    requires keep { m.old.seat.me.pass.keep ≡ keep }
    requires version { IsHeld m.old v }
{
    if keep == 0 || v.number < keep {
        return None;
    }
    match older(m, v, keep - 1) {
        Ok(oldest) if ends_chain(m, oldest) => Some(oldest.number),
        Ok(_) | Err(_) => None,
    }
}

/// Commits over the latest version, and holds only the anchor.
pub(crate) fn commit_one<R: Wait>(
    rt: &R,
    hints: &mut Hints<'_>,
    m: &mut Mutator<'_, Store>,
    keep: u64,
    commits: u32,
    versions: u64,
) -> Result<u64, CommitFault>
    requires works { Works 1 commits keep m.old }
    requires few { commits < 90000 }
    ensures works { Works 1 (commits + 1) keep m.new }
    ensures same { IsSameMutator m.old m.new }
{
    let _ = (keep, commits);
    let v = look(m);
    let made = put(rt, hints, m, v, versions);
    m.cut(1);
    made
}

/// Cuts off what is no longer kept up to the latest version, and holds only the anchor.
pub(crate) fn prune_latest(m: &mut Mutator<'_, Store>, keep: u64, commits: u32) -> u64
    requires works { Works 1 commits keep m.old }
    ensures works { Works 1 commits keep m.new }
    ensures same { IsSameMutator m.old m.new }
{
    let _ = commits;
    let newest = look(m);
    prune(m, newest, keep);
    m.cut(1);
    newest.number
}

/// Cuts off what is no longer kept.
pub(crate) fn prune(m: &mut Mutator<'_, Store>, v: HeldVersion, keep: u64)
    requires inside { m.old.seat.me.presence.inside ≡ true }
    requires room { length m.old.seat.me.own.held + 129 ≤ m.old.seat.me.room }
    requires keep { m.old.seat.me.pass.keep ≡ keep }
    requires version { IsHeld m.old v }
    ensures grows { Grows 0 0 m.old m.new }
{
    trim(m, v, keep);
}
