//! A mutator of documents with its hints: what a client's heap needs of both in addition to what
//! trees need. The calls take the private heap in use; `make_room` and `make_room_for` take the
//! nursery, since they alone may age.
ghost use Rattle.std.specs.Prelude.{◌≡◌, ◌<◌, ◌≤◌, ◌+◌, IfErr, IfOk, OnErr};
ghost use Rattle.std.specs.Prelude.{OnOk, Err, [], IfSome, IsNone, None, Ok, length, max};
ghost use Rattle.std.specs.Prelude.{◌==◌, true};
ghost use Rattle.client_heap.specs.Carries.{Carries, Follows};
ghost use Rattle.client_heap.specs.Shows.{node_term};
ghost use Rattle.client_heap.specs.Sound.{HasRoom, IsCleared, IsSound, is_cleared};
ghost use Rattle.client_trees.specs.Records.{is_shared};
ghost use Rattle.client_trees.specs.declared.at.NodeAt.TheVariants as at;
ghost use Rattle.client_trees.specs.Nodes.{IsTreeAt, tree_at};
ghost use Rattle.doc_records.specs.Trees.{IsTreeNode, tree_of};
ghost use Rattle.free_cells.specs.declared.queue.FreeQueue.{FreeQueue};
ghost use Rattle.heap_rule.specs.Asks.{target};
ghost use Rattle.trails.specs.Asks.{Shows};
ghost use Rattle.trails.specs.Claims.{IsFull};
ghost use Rattle.trails.specs.Stretches.{Had};
ghost use Rattle.version_rule.specs.Pass.{commit_numbers, committed};
ghost use Rattle.version_rule.specs.Shows.{version_asks};
ghost use Rattle.version_store.specs.Calls.{Holds};
ghost use Rattle.version_store.specs.Commits.{FindsNewer};
ghost use Rattle.version_store.specs.Held.{GivesLatest, GivesRoot, IsHeld, root_at};
ghost use Rattle.version_store.specs.Lasts.{IsSameMutator, LastsAcross, marks};
ghost use Rattle.version_store.specs.Older.{GivesOlder, Trims};

use aged_nursery::AgedNursery;
use client_history::{CALL_PLACES, Documents, READY_ROOM, SETTLED_ROOM};
use client_session::CommitRefusal;
use client_trees::{ClientSeat, NodeAt};
use minor_heap::MinorHeap;
use mutator_seat::HeapFull;
use promotion::Promoter;
use run_limits::MOST_COMMANDS;
use std::sync::Wait;
use version_store::{Cut, HeldVersion, STORE_PLACES};

/// A client's seat with what the versions of a store and its own heap need of it.
pub trait StoreSeat: ClientSeat<Pass = Documents> {
    /// The hints that it works with, borrowed for as long as its heap is.
    type Hints;

    /// The queue that the hints are of.
    ghost queue: { Self.Hints → FreeQueue };

    /// The latest version.
    fn current(&mut self) -> HeldVersion
        requires inside { (Self.bound self.old).seat.me.presence.inside ≡ true }
        requires room { length (Self.bound self.old).seat.me.own.held + STORE_PLACES
            ≤ (Self.bound self.old).seat.me.room }
        ensures latest { GivesLatest (Self.bound self.old) (Self.bound self.new) result }
        ensures seen { (Self.bound self.new).seat.me.pass.seen ≡ result.number }
        ensures shows { Shows (version_asks (target (Self.bound self.new).seat.me result.place)
            result.number) (marks (Self.bound self.old)) (marks (Self.bound self.new)) }
        ensures lasts { LastsAcross (Self.bound self.old) (Self.bound self.new) }
        ensures same { IsSameMutator (Self.bound self.old) (Self.bound self.new) };

    /// The root of a version's tree.
    fn tree(&mut self, v: HeldVersion) -> usize
        requires inside { (Self.bound self.old).seat.me.presence.inside ≡ true }
        requires room { length (Self.bound self.old).seat.me.own.held + STORE_PLACES
            ≤ (Self.bound self.old).seat.me.room }
        requires version { IsHeld (Self.bound self.old) v }
        ensures root { GivesRoot IsTreeNode tree_of (Self.bound self.old) (Self.bound self.new) v
            result }
        ensures lasts { LastsAcross (Self.bound self.old) (Self.bound self.new) }
        ensures same { IsSameMutator (Self.bound self.old) (Self.bound self.new) };

    /// The version so many below, or a newer one that was read.
    fn older(&mut self, v: HeldVersion, back: u64) -> Result<HeldVersion, Cut>
        requires inside { (Self.bound self.old).seat.me.presence.inside ≡ true }
        requires room { length (Self.bound self.old).seat.me.own.held + STORE_PLACES
            ≤ (Self.bound self.old).seat.me.room }
        requires version { IsHeld (Self.bound self.old) v }
        requires back { back ≤ v.number }
        requires kept { back < (Self.bound self.old).seat.me.pass.keep }
        ensures older { IfOk result (λ older.
            GivesOlder (Self.bound self.old) (Self.bound self.new) v back older) }
        ensures cut { IfErr result (λ cut.
            FindsNewer (Self.bound self.old) (Self.bound self.new) v cut.newer) }
        ensures held { OnErr result (Holds [] (Self.bound self.old) (Self.bound self.new)) }
        ensures claims { (Self.bound self.new).seat.me.own.claims
            ≡ (Self.bound self.old).seat.me.own.claims }
        ensures lasts { LastsAcross (Self.bound self.old) (Self.bound self.new) }
        ensures same { IsSameMutator (Self.bound self.old) (Self.bound self.new) };

    /// Cuts off what is older than the `keep` versions up to this one.
    fn trim(&mut self, v: HeldVersion, keep: u64)
        requires inside { (Self.bound self.old).seat.me.presence.inside ≡ true }
        requires room { length (Self.bound self.old).seat.me.own.held + STORE_PLACES
            ≤ (Self.bound self.old).seat.me.room }
        requires version { IsHeld (Self.bound self.old) v }
        requires setting { keep ≡ (Self.bound self.old).seat.me.pass.keep }
        ensures trims { keep ≤ v.number → Trims (Self.bound self.old) (Self.bound self.new) v keep }
        ensures nothing { v.number < keep → Self.bound self.new ≡ Self.bound self.old }
        ensures held { Holds [] (Self.bound self.old) (Self.bound self.new) }
        ensures lasts { LastsAcross (Self.bound self.old) (Self.bound self.new) }
        ensures same { IsSameMutator (Self.bound self.old) (Self.bound self.new) };

    /// Makes a node the draft.
    fn make_draft(&mut self, minor: &MinorHeap, draft: &mut NodeAt, base: &mut usize, at: NodeAt)
        requires sound { IsSound (Self.bound self.old) minor.now draft.old base.old }
        requires node { IsTreeAt (Self.bound self.old) minor.now at }
        requires room { length (Self.bound self.old).seat.me.own.held + length minor.now.records
            + SETTLED_ROOM ≤ (Self.bound self.old).seat.me.room }
        ensures sound { IsSound (Self.bound self.new) minor.now draft.new base.new }
        ensures term { node_term (Self.bound self.new) minor.now draft.new
            ≡ node_term (Self.bound self.old) minor.now at }
        ensures pass { (Self.bound self.new).seat.me.pass ≡ (Self.bound self.old).seat.me.pass }
        ensures held { length (Self.bound self.new).seat.me.own.held
            ≤ length (Self.bound self.old).seat.me.own.held }
        ensures follows { Follows (Self.bound self.old) (Self.bound self.new) minor.now minor.now };

    /// Whether the nodes at two places are in the same cell, and so have the same term.
    fn is_same(&mut self, minor: &MinorHeap, first: usize, second: usize) -> bool
        requires inside { (Self.bound self.old).seat.me.presence.inside ≡ true }
        requires first { IsTreeAt (Self.bound self.old) minor.now (at.Shared first) }
        requires second { IsTreeAt (Self.bound self.old) minor.now (at.Shared second) }
        ensures same { result ≡ (target (Self.bound self.old).seat.me first
            == target (Self.bound self.old).seat.me second) }
        ensures term { result ≡ true → node_term (Self.bound self.old) minor.now (at.Shared first)
            ≡ node_term (Self.bound self.old) minor.now (at.Shared second) }
        ensures carries { Carries (length (Self.bound self.old).seat.me.own.held)
            (Self.bound self.old) (Self.bound self.new) minor.now minor.now }
        ensures held { length (Self.bound self.new).seat.me.own.held
            ≡ length (Self.bound self.old).seat.me.own.held }
        ensures pass { (Self.bound self.new).seat.me.pass ≡ (Self.bound self.old).seat.me.pass }
        ensures claims { (Self.bound self.new).seat.me.own.claims
            ≡ (Self.bound self.old).seat.me.own.claims };

    /// Whether there is room for an edit, so that none has to be made.
    fn has_room(&self, minor: &MinorHeap) -> bool
        ensures room { result ≡ is_cleared (Self.bound self.now) minor.now };

    /// Answers a handshake, if one is asked for.
    fn safe_point(&mut self, minor: &MinorHeap)
        requires inside { (Self.bound self.old).seat.me.presence.inside ≡ true }
        ensures carries { Carries (length (Self.bound self.old).seat.me.own.held)
            (Self.bound self.old) (Self.bound self.new) minor.now minor.now }
        ensures held { length (Self.bound self.new).seat.me.own.held
            ≡ length (Self.bound self.old).seat.me.own.held }
        ensures pass { (Self.bound self.new).seat.me.pass ≡ (Self.bound self.old).seat.me.pass }
        ensures claims { (Self.bound self.new).seat.me.own.claims
            ≡ (Self.bound self.old).seat.me.own.claims };

    /// A node as one of the shared heap: a private one is promoted.
    fn share<R: Wait>(
        &mut self,
        rt: &R,
        hints: &mut Self::Hints,
        minor: &MinorHeap,
        promoter: &mut Promoter,
        node: NodeAt,
    ) -> Result<NodeAt, HeapFull>
        requires inside { (Self.bound self.old).seat.me.presence.inside ≡ true }
        requires room { length (Self.bound self.old).seat.me.own.held
            + length minor.now.records + CALL_PLACES ≤ (Self.bound self.old).seat.me.room }
        requires copies { minor.now.room ≤ promoter.old }
        requires node { IsTreeAt (Self.bound self.old) minor.now node }
        ensures node { IfOk result (λ made. IsTreeAt (Self.bound self.new) minor.now made) }
        ensures tree { IfOk result (λ made. tree_at (Self.bound self.new) minor.now made
            ≡ tree_at (Self.bound self.old) minor.now node) }
        ensures shared { IfOk result (λ made. is_shared made ≡ true) }
        ensures full { OnErr result (Had (IsFull (Self.bound self.old).seat.me.shape.cells)
            (marks (Self.bound self.old)) (marks (Self.bound self.new))) }
        ensures carries { Carries (length (Self.bound self.old).seat.me.own.held)
            (Self.bound self.old) (Self.bound self.new) minor.now minor.now }
        ensures held { length (Self.bound self.new).seat.me.own.held
            ≤ length (Self.bound self.old).seat.me.own.held + 1 }
        ensures pass { (Self.bound self.new).seat.me.pass ≡ (Self.bound self.old).seat.me.pass }
        ensures promoter { promoter.new ≡ promoter.old }
        ensures queue { queue hints.new ≡ queue hints.old };

    /// Makes the next version, with the tree of a shared node.
    fn commit<R: Wait>(
        &mut self,
        rt: &R,
        hints: &mut Self::Hints,
        minor: &MinorHeap,
        v: HeldVersion,
        node: NodeAt,
        versions: u64,
    ) -> Result<u64, CommitRefusal>
        requires inside { (Self.bound self.old).seat.me.presence.inside ≡ true }
        requires room { length (Self.bound self.old).seat.me.own.held + STORE_PLACES
            ≤ (Self.bound self.old).seat.me.room }
        requires version { IsHeld (Self.bound self.old) v }
        requires node { IsTreeAt (Self.bound self.old) minor.now node }
        requires shared { is_shared node ≡ true }
        requires below { v.number < versions }
        requires few { length (commit_numbers (Self.bound self.old).seat.me.pass) < MOST_COMMANDS }
        ensures number { IfOk result (λ number. number ≡ v.number + 1) }
        ensures pass { OnOk result ((Self.bound self.new).seat.me.pass ≡ committed (v.number + 1)
            (tree_of (root_at (Self.bound self.old) v.place))
            (tree_at (Self.bound self.old) minor.now node) (Self.bound self.old).seat.me.pass) }
        ensures rose { OnOk result ((Self.bound self.old).seat.me.own.claims
            < (Self.bound self.new).seat.me.own.claims) }
        ensures same { OnErr result (commit_numbers (Self.bound self.new).seat.me.pass
            ≡ commit_numbers (Self.bound self.old).seat.me.pass) }
        ensures moved { result ≡ Err CommitRefusal.Moved
            → v.number < (Self.bound self.new).seat.me.pass.seen }
        ensures full { result ≡ Err CommitRefusal.Full
            → Had (IsFull (Self.bound self.old).seat.me.shape.cells)
            (marks (Self.bound self.old)) (marks (Self.bound self.new)) }
        ensures carries { Carries (length (Self.bound self.old).seat.me.own.held)
            (Self.bound self.old) (Self.bound self.new) minor.now minor.now }
        ensures held { length (Self.bound self.new).seat.me.own.held
            ≡ length (Self.bound self.old).seat.me.own.held }
        ensures queue { queue hints.new ≡ queue hints.old };

    /// collected.
    fn make_room<R: Wait>(
        &mut self,
        rt: &R,
        hints: &mut Self::Hints,
        nursery: &mut AgedNursery,
        promoter: &mut Promoter,
        draft: &mut NodeAt,
        base: &mut usize,
    ) -> Result<(), HeapFull>
        requires sound { IsSound (Self.bound self.old) nursery.old.heap draft.old base.old }
        requires whole { nursery.old.heap.room ≡ nursery.old.records }
        requires copies { nursery.old.heap.room ≤ promoter.old }
        requires ready { length (Self.bound self.old).seat.me.own.held
            + length nursery.old.heap.records + READY_ROOM ≤ (Self.bound self.old).seat.me.room }
        ensures sound { IsSound (Self.bound self.new) nursery.new.heap draft.new base.new }
        ensures records { nursery.new.records ≡ nursery.old.records }
        ensures cleared { OnOk result (IsCleared (Self.bound self.new) nursery.new.heap) }
        ensures idle { IsCleared (Self.bound self.old) nursery.old.heap
            → (Self.bound self.new ≡ Self.bound self.old) × (nursery.new ≡ nursery.old)
            × (draft.new ≡ draft.old) × (base.new ≡ base.old) }
        ensures full { OnErr result (Had (IsFull (Self.bound self.old).seat.me.shape.cells)
            (marks (Self.bound self.old)) (marks (Self.bound self.new))) }
        ensures kept { length (Self.bound self.new).seat.me.own.held
            + length nursery.new.heap.records
            ≤ length (Self.bound self.old).seat.me.own.held + length nursery.old.heap.records }
        ensures term { node_term (Self.bound self.new) nursery.new.heap draft.new
            ≡ node_term (Self.bound self.old) nursery.old.heap draft.old }
        ensures small { base.new ≤ max base.old 2 }
        ensures follows { Follows (Self.bound self.old) (Self.bound self.new) nursery.old.heap
            nursery.new.heap }
        ensures pass { (Self.bound self.new).seat.me.pass ≡ (Self.bound self.old).seat.me.pass }
        ensures promoter { promoter.new ≡ promoter.old }
        ensures queue { queue hints.new ≡ queue hints.old };

    /// records age once, or are collected.
    fn make_room_for<R: Wait>(
        &mut self,
        rt: &R,
        hints: &mut Self::Hints,
        nursery: &mut AgedNursery,
        promoter: &mut Promoter,
        draft: &mut NodeAt,
        base: &mut usize,
        tree: NodeAt,
    ) -> Result<Option<NodeAt>, HeapFull>
        requires sound { IsSound (Self.bound self.old) nursery.old.heap draft.old base.old }
        requires node { IsTreeAt (Self.bound self.old) nursery.old.heap tree }
        requires whole { nursery.old.heap.room ≡ nursery.old.records }
        requires copies { nursery.old.heap.room ≤ promoter.old }
        requires ready { length (Self.bound self.old).seat.me.own.held
            + length nursery.old.heap.records + READY_ROOM ≤ (Self.bound self.old).seat.me.room }
        ensures sound { IsSound (Self.bound self.new) nursery.new.heap draft.new base.new }
        ensures records { nursery.new.records ≡ nursery.old.records }
        ensures room { OnOk result (HasRoom (Self.bound self.new) nursery.new.heap) }
        ensures unmoved { HasRoom (Self.bound self.old) nursery.old.heap → result ≡ Ok None }
        ensures idle { IfOk result (λ moved. IsNone moved
            → (Self.bound self.new ≡ Self.bound self.old)
            × (nursery.new ≡ nursery.old) × (draft.new ≡ draft.old) × (base.new ≡ base.old)) }
        ensures node { IfOk result (λ moved.
            IfSome moved (IsTreeAt (Self.bound self.new) nursery.new.heap)) }
        ensures tree { IfOk result (λ moved. IfSome moved (λ next.
            tree_at (Self.bound self.new) nursery.new.heap next
            ≡ tree_at (Self.bound self.old) nursery.old.heap tree)) }
        ensures full { OnErr result (Had (IsFull (Self.bound self.old).seat.me.shape.cells)
            (marks (Self.bound self.old)) (marks (Self.bound self.new))) }
        ensures kept { length (Self.bound self.new).seat.me.own.held
            + length nursery.new.heap.records
            ≤ length (Self.bound self.old).seat.me.own.held + length nursery.old.heap.records }
        ensures term { node_term (Self.bound self.new) nursery.new.heap draft.new
            ≡ node_term (Self.bound self.old) nursery.old.heap draft.old }
        ensures small { base.new ≤ max base.old 2 }
        ensures follows { Follows (Self.bound self.old) (Self.bound self.new) nursery.old.heap
            nursery.new.heap }
        ensures pass { (Self.bound self.new).seat.me.pass ≡ (Self.bound self.old).seat.me.pass }
        ensures promoter { promoter.new ≡ promoter.old }
        ensures queue { queue hints.new ≡ queue hints.old };
}
