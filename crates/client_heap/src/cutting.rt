//! Cutting the private heap back. Records name only older ones, so no record on which a node stands
//! is newer than its own.
ghost use Rattle.std.specs.Prelude.{◌≡◌, ◌≤◌, length};
ghost use Rattle.client_heap.specs.Ages.{Ages, is_there, up_to};

use aged_nursery::AgedNursery;
use client_trees::NodeAt;
use minor_heap::MinorHeap;

/// How many private records there are up to a node's own.
fn up_to(heap: &MinorHeap, node: NodeAt) -> u32
    requires there { is_there heap.now.records node }
    ensures count { result ≡ up_to node }
{
    let _records = heap.len();
    match node {
        NodeAt::Minor(r) => r.number + 1,
        NodeAt::Shared(_) => 0,
    }
}

/// Drops all private records that are newer than a node's own.
pub(crate) fn cut_newer(nursery: &mut AgedNursery, node: NodeAt)
    requires there { is_there nursery.old.heap.records node }
    ensures node { Ages nursery.old.heap.records nursery.new.heap.records node node }
    ensures kept { length nursery.new.heap.records ≡ up_to node }
    ensures fewer { length nursery.new.heap.records ≤ length nursery.old.heap.records }
    ensures room { nursery.new.heap.room ≡ nursery.old.heap.room }
    ensures records { nursery.new.records ≡ nursery.old.records }
{
    // Records name older ones.
    let _records = nursery.heap().len();
    let kept = up_to(nursery.heap(), node);
    nursery.cut_back(kept);
}
