//! The guest: alongside the clients it takes the latest version, and commits nothing.
ghost use Rattle.std.specs.Prelude.{◌≡◌, ◌+◌, ◌≤◌, length, true};
ghost use Rattle.doc_export.specs.Guests.{Copies, IsThrough, IsWaiting, TellsWithout};
ghost use Rattle.doc_records.specs.Trees.{tree_of};
ghost use Rattle.doc_tree.specs.Tree.{count};
ghost use Rattle.version_rule.specs.Pass.{reading};
ghost use Rattle.version_store.specs.Held.{IsHeld, root_at};
ghost use Rattle.version_store.specs.Lasts.{IsSameMutator, LastsAcross};

use crate::dumping::{DUMP_PLACES, dump};
use crate::ending::Ending;
use crate::fault::DumpFault;
use crate::waiting::await_end;
use beside_collector::{come_in, leave};
use client_history::{Documents, LEAST_MINOR};
use client_run::Limits;
use client_threads::await_gate;
use client_trees::{NodeAt, count};
use heap_table::CellHeap;
use minor_heap::MinorHeap;
use mutator_seat::{MutSeat, Mutator};
use outside::Gate;
use std::alloc::Global;
use std::sync::Wait;
use version_store::{HeldVersion, current, tree};

/// Places that the guest has at least: for the anchor, a version and its root, `DUMP_PLACES`, and
/// some to spare. Its mutator has those of a client, 32,768 with `LEAST_MINOR` records.
const GUEST_PLACES: usize = 20_000;

/// The guest before its turn: the seat of its mutator, and a private heap for the readers of trees,
/// which stays empty.
#[derive(Drop)]
pub(crate) struct Guest {
    /// the number of its mutator
    pub(crate) place: u32,
    pub(crate) seat: MutSeat<Documents>,
    pub(crate) minor: MinorHeap,
}

/// A version as the guest tells of it.
#[derive(Drop)]
pub(crate) struct Copied {
    pub(crate) version: u64,
    pub(crate) count: u64,
    pub(crate) bytes: Option<Vec<u8>>,
}

/// The guest after its turn. It has no version if it ran out of memory.
#[derive(Drop)]
pub(crate) struct Through {
    pub(crate) seat: MutSeat<Documents>,
    pub(crate) copied: Option<Copied>,
}

/// The guest's turn, on this thread. When some client has ended its script, or none has for long,
/// and the gate then lets the guest begin, it takes the latest version. Its mutator comes in before
/// and is over afterwards.
pub(crate) fn take_version<R: Wait, G: Ending>(
    alloc: Global,
    rt: &R,
    gate: &G,
    heap: &CellHeap<Documents>,
    limits: Limits,
    guest: Guest,
) -> Through
    requires minor { LEAST_MINOR ≤ limits.minor }
    requires guest { IsWaiting heap.now limits guest.place guest.seat }
    ensures through { IsThrough heap.now limits guest.place result }
{
    let _ = limits;
    let Guest {
        place: _,
        seat,
        mut minor,
    } = guest;
    let mut m = come_in(heap, seat);
    let _ended = await_end(gate, &mut m);
    await_gate(rt, gate, &mut m, 0, 1);
    let copied = copy_latest(alloc, &mut m, &mut minor);
    tell(gate, &copied);
    Through {
        seat: leave(m),
        copied,
    }
}

/// Tells the gate that there is a version, if there is one.
fn tell<G: Gate>(gate: &G, copied: &Option<Copied>) {
    if copied.is_some() {
        gate.done(0, 1);
    }
}

/// Takes the latest version: its number, its nodes and its dump, unless memory runs out.
fn copy_latest(
    alloc: Global,
    m: &mut Mutator<'_, Documents>,
    minor: &mut MinorHeap,
) -> Option<Copied>
    requires inside { m.old.seat.me.presence.inside ≡ true }
    requires held { length m.old.seat.me.own.held ≡ 1 }
    requires room { GUEST_PLACES ≤ m.old.seat.me.room }
    ensures copies { Copies m.old m.new result }
{
    let v = current(m);
    let dumped = dump(alloc, m, minor, v);
    let nodes = nodes_of(m, minor, v);
    match dumped {
        Ok(bytes) => Some(Copied {
            version: v.number,
            count: nodes,
            bytes: Some(bytes),
        }),
        Err(fault) => without_dump(v.number, nodes, fault),
    }
}

/// A version of which there is no dump, for this reason; no version at all where memory ran out.
fn without_dump(version: u64, nodes: u64, fault: DumpFault) -> Option<Copied>
    ensures without { TellsWithout fault version nodes result }
{
    match fault {
        DumpFault::TooMany { count: _ } => Some(Copied {
            version,
            count: nodes,
            bytes: None,
        }),
        DumpFault::NoMemory => None,
    }
}

/// How many nodes the tree of a version has.
fn nodes_of(m: &mut Mutator<'_, Documents>, minor: &mut MinorHeap, v: HeldVersion) -> u64
    requires inside { m.old.seat.me.presence.inside ≡ true }
    requires version { IsHeld m.old v }
    requires room { length m.old.seat.me.own.held + DUMP_PLACES ≤ m.old.seat.me.room }
    ensures count { result ≡ count (tree_of (root_at m.old v.place)) }
    ensures pass { m.new.seat.me.pass
        ≡ reading v.number (tree_of (root_at m.old v.place)) m.old.seat.me.pass }
    ensures same { IsSameMutator m.old m.new }
    ensures lasts { LastsAcross m.old m.new }
{
    let root = tree(m, v);
    count(m, minor, NodeAt::Shared(root))
}
