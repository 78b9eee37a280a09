//! Making the next version: the node is promoted, and then committed. The promoted copy stays if
//! the commit comes too late, and the next commit may use it.
ghost use Rattle.std.specs.Prelude.{◌≡◌, ◌<◌, ◌≤◌, ◌+◌, Err, IfOk, OnErr};
ghost use Rattle.std.specs.Prelude.{OnOk, length, true};
ghost use Rattle.client_heap.specs.Carries.{Carries};
ghost use Rattle.client_trees.specs.Records.{is_shared};
ghost use Rattle.client_trees.specs.declared.at.NodeAt.TheVariants as at;
ghost use Rattle.client_trees.specs.Nodes.{IsTreeAt, tree_at};
ghost use Rattle.doc_records.specs.Trees.{tree_of};
ghost use Rattle.free_cells.specs.Hints.{queue_of};
ghost use Rattle.trails.specs.Claims.{IsFull};
ghost use Rattle.trails.specs.Stretches.{Had};
ghost use Rattle.version_rule.specs.Pass.{commit_numbers, committed};
ghost use Rattle.version_store.specs.Held.{IsHeld, root_at};
ghost use Rattle.version_store.specs.Lasts.{marks};

use client_history::{CALL_PLACES, Documents};
use client_session::CommitRefusal;
use client_trees::NodeAt;
use free_cells::Hints;
use minor_heap::{MinorHeap, MinorRef};
use mutator_seat::{HeapFull, Mutator};
use promotion::Promoter;
use run_limits::MOST_COMMANDS;
use std::sync::Wait;
use version_store::{CommitFault, HeldVersion, STORE_PLACES};

/// A private node as a shared one, at the end of the held list.
fn promote<R: Wait>(
    rt: &R,
    hints: &mut Hints<'_>,
    m: &mut Mutator<'_, Documents>,
    minor: &MinorHeap,
    promoter: &mut Promoter,
    r: MinorRef,
) -> Result<usize, HeapFull>
    requires inside { m.old.seat.me.presence.inside ≡ true }
    requires node { IsTreeAt m.old minor.now (at.Minor r) }
    requires copies { minor.now.room ≤ promoter.old }
    requires room { length m.old.seat.me.own.held + length minor.now.records
        ≤ m.old.seat.me.room }
    ensures node { IfOk result (λ place. IsTreeAt m.new minor.now (at.Shared place)) }
    ensures tree { IfOk result (λ place. tree_at m.new minor.now (at.Shared place)
        ≡ tree_at m.old minor.now (at.Minor r)) }
    ensures full { OnErr result (Had (IsFull m.old.seat.me.shape.cells) (marks m.old)
        (marks m.new)) }
    ensures carries { Carries (length m.old.seat.me.own.held) m.old m.new minor.now minor.now }
    ensures held { length m.new.seat.me.own.held ≤ length m.old.seat.me.own.held + 1 }
    ensures pass { m.new.seat.me.pass ≡ m.old.seat.me.pass }
    ensures promoter { promoter.new ≡ promoter.old }
    ensures queue { queue_of hints.new ≡ queue_of hints.old }
{
    let _held = m.held_len();
    let _records = minor.len();
    let _spare = minor.spare();
    match promoter.promote(rt, hints, m, minor, r) {
        Ok(place) => Ok(place),
        Err(full) => Err(full),
    }
}

/// Makes the next version, with the tree of the node at a place.
pub(crate) fn commit_shared<R: Wait>(
    rt: &R,
    hints: &mut Hints<'_>,
    m: &mut Mutator<'_, Documents>,
    minor: &MinorHeap,
    v: HeldVersion,
    place: usize,
    versions: u64,
) -> Result<u64, CommitRefusal>
    requires inside { m.old.seat.me.presence.inside ≡ true }
    requires room { length m.old.seat.me.own.held + STORE_PLACES ≤ m.old.seat.me.room }
    requires version { IsHeld m.old v }
    requires node { IsTreeAt m.old minor.now (at.Shared place) }
    requires below { v.number < versions }
    requires few { length (commit_numbers m.old.seat.me.pass) < MOST_COMMANDS }
    ensures number { IfOk result (λ number. number ≡ v.number + 1) }
    ensures pass { OnOk result (m.new.seat.me.pass ≡ committed (v.number + 1)
        (tree_of (root_at m.old v.place)) (tree_at m.old minor.now (at.Shared place))
        m.old.seat.me.pass) }
    ensures rose { OnOk result (m.old.seat.me.own.claims < m.new.seat.me.own.claims) }
    ensures same { OnErr result (commit_numbers m.new.seat.me.pass
        ≡ commit_numbers m.old.seat.me.pass) }
    ensures moved { result ≡ Err CommitRefusal.Moved → v.number < m.new.seat.me.pass.seen }
    ensures full { result ≡ Err CommitRefusal.Full → Had (IsFull m.old.seat.me.shape.cells)
        (marks m.old) (marks m.new) }
    ensures carries { Carries (length m.old.seat.me.own.held) m.old m.new minor.now minor.now }
    ensures held { length m.new.seat.me.own.held ≡ length m.old.seat.me.own.held }
    ensures queue { queue_of hints.new ≡ queue_of hints.old }
{
    let _held = m.held_len();
    let _records = minor.len();
    match version_store::commit(rt, hints, m, v, place, versions) {
        Ok(number) => Ok(number),
        Err(CommitFault::Moved { .. }) => Err(CommitRefusal::Moved),
        Err(CommitFault::Full(_)) => Err(CommitRefusal::Full),
        Err(CommitFault::Worn) => unreachable!(),
    }
}

/// A node as a shared one: a private one is promoted, and a shared one is itself.
pub(crate) fn share<R: Wait>(
    rt: &R,
    hints: &mut Hints<'_>,
    m: &mut Mutator<'_, Documents>,
    minor: &MinorHeap,
    promoter: &mut Promoter,
    node: NodeAt,
) -> Result<NodeAt, HeapFull>
    requires inside { m.old.seat.me.presence.inside ≡ true }
    requires room { length m.old.seat.me.own.held + length minor.now.records + CALL_PLACES
        ≤ m.old.seat.me.room }
    requires copies { minor.now.room ≤ promoter.old }
    requires node { IsTreeAt m.old minor.now node }
    ensures node { IfOk result (λ made. IsTreeAt m.new minor.now made) }
    ensures tree { IfOk result (λ made. tree_at m.new minor.now made
        ≡ tree_at m.old minor.now node) }
    ensures shared { IfOk result (λ made. is_shared made ≡ true) }
    ensures full { OnErr result (Had (IsFull m.old.seat.me.shape.cells) (marks m.old)
        (marks m.new)) }
    ensures carries { Carries (length m.old.seat.me.own.held) m.old m.new minor.now minor.now }
    ensures held { length m.new.seat.me.own.held ≤ length m.old.seat.me.own.held + 1 }
    ensures pass { m.new.seat.me.pass ≡ m.old.seat.me.pass }
    ensures promoter { promoter.new ≡ promoter.old }
    ensures queue { queue_of hints.new ≡ queue_of hints.old }
{
    match node {
        NodeAt::Shared(_) => Ok(node),
        NodeAt::Minor(r) => match promote(rt, hints, m, minor, promoter, r) {
            Ok(place) => Ok(NodeAt::Shared(place)),
            Err(full) => Err(full),
        },
    }
}
