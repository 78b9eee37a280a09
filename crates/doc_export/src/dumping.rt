//! The dump of a version.
ghost use Rattle.std.specs.Prelude.{◌≡◌, ◌+◌, ◌≤◌, IfErr, IfOk, OnOk, length, true};
ghost use Rattle.client_trees.specs.declared.at.NodeAt.TheVariants as at;
ghost use Rattle.client_trees.specs.Nodes.{IsTreeAt, tree_at};
ghost use Rattle.doc_records.specs.Trees.{tree_of};
ghost use Rattle.doc_tree.specs.Tree.{count, height};
ghost use Rattle.mutator_seat.specs.Bound.{held_cells};
ghost use Rattle.dump_text.specs.Dump.{dump_of};
ghost use Rattle.doc_export.specs.Looks.{looks};
ghost use Rattle.doc_export.specs.Outcome.{Refuses};
ghost use Rattle.doc_export.specs.Still.{Stays};
ghost use Rattle.version_rule.specs.Pass.{reading};
ghost use Rattle.version_store.specs.Calls.{StaysKnown};
ghost use Rattle.version_store.specs.Held.{IsHeld, root_at};
ghost use Rattle.version_store.specs.Lasts.{IsSameMutator, LastsAcross, marks};

use crate::fault::DumpFault;
use crate::lines::{end, head};
use crate::walking::add_tree;
use client_history::{CALL_PLACES, Documents, WALK_PLACES};
use client_trees::{NodeAt, count};
use dump_text::MOST_NODES;
use minor_heap::MinorHeap;
use mutator_seat::Mutator;
use std::alloc::Global;
use version_store::{HeldVersion, tree};

/// Places that a dump asks for: for the walk to each node, and for the readings there.
pub(crate) const DUMP_PLACES: usize = 2 * CALL_PLACES;

/// The dump of a version. All that was held and known still is, and the private heap is as it was.
pub(crate) fn dump(
    alloc: Global,
    m: &mut Mutator<'_, Documents>,
    minor: &mut MinorHeap,
    v: HeldVersion,
) -> Result<Vec<u8>, DumpFault>
    requires inside { m.old.seat.me.presence.inside ≡ true }
    requires version { IsHeld m.old v }
    requires room { length m.old.seat.me.own.held + DUMP_PLACES ≤ m.old.seat.me.room }
    ensures dump { IfOk result
        (λ bytes. bytes.items ≡ dump_of v.number (tree_of (root_at m.old v.place))) }
    ensures few { IfOk result (λ bytes. count (tree_of (root_at m.old v.place)) ≤ MOST_NODES) }
    ensures refused { IfErr result (Refuses (count (tree_of (root_at m.old v.place)))) }
    ensures looked { OnOk result (looks (marks m.old) + count (tree_of (root_at m.old v.place))
        ≤ looks (marks m.new)) }
    ensures held { held_cells m.new ≡ held_cells m.old }
    ensures known { StaysKnown (length m.old.seat.me.own.held) m.old m.new }
    ensures pass { m.new.seat.me.pass
        ≡ reading v.number (tree_of (root_at m.old v.place)) m.old.seat.me.pass }
    ensures claims { m.new.seat.me.own.claims ≡ m.old.seat.me.own.claims }
    ensures same { IsSameMutator m.old m.new }
    ensures lasts { LastsAcross m.old m.new }
    ensures minor { minor.new ≡ minor.old }
{
    let places = m.held_len();
    let root = tree(m, v);
    let dumped = dump_tree(alloc, m, minor, v.number, root);
    m.cut(places);
    dumped
}

/// The dump of the tree at a place, under a version's number.
fn dump_tree(
    alloc: Global,
    m: &mut Mutator<'_, Documents>,
    minor: &mut MinorHeap,
    number: u64,
    root: usize,
) -> Result<Vec<u8>, DumpFault>
    requires inside { m.old.seat.me.presence.inside ≡ true }
    requires node { IsTreeAt m.old minor.old (at.Shared root) }
    requires room { length m.old.seat.me.own.held + WALK_PLACES ≤ m.old.seat.me.room }
    ensures dump { IfOk result
        (λ bytes. bytes.items ≡ dump_of number (tree_at m.old minor.old (at.Shared root))) }
    ensures few { IfOk result
        (λ bytes. count (tree_at m.old minor.old (at.Shared root)) ≤ MOST_NODES) }
    ensures refused { IfErr result
        (Refuses (count (tree_at m.old minor.old (at.Shared root)))) }
    ensures looked { OnOk result (looks (marks m.old)
        + count (tree_at m.old minor.old (at.Shared root)) ≤ looks (marks m.new)) }
    ensures keeps { Stays (length m.old.seat.me.own.held) m.old m.new }
    ensures minor { minor.new ≡ minor.old }
{
    let nodes = count(m, minor, NodeAt::Shared(root));
    if nodes > MOST_NODES {
        return Err(DumpFault::TooMany { count: nodes });
    }
    let mut bytes = head(alloc, number)?;
    add_tree(alloc, m, minor, root, b".", b"", &mut bytes)?;
    bytes.extend_from_slice(end(alloc, nodes)?.as_slice())?;
    Ok(bytes)
}
