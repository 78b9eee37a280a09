//! A batch: edits one after another, each of the tree that the one before it made, and then one
//! version.
ghost use Rattle.std.specs.Prelude.{ℕ, ◌≡◌, ◌≤◌, ◌<◌, ◌+◌, IfOk, IfSome, IsOk, None, Ok, OnErr};
ghost use Rattle.client_session.specs.Batches.{Moves, Works};
ghost use Rattle.client_session.specs.Handles.{Edits, Still};
ghost use Rattle.doc_tree.specs.Edits.{answered};
ghost use Rattle.client_session.specs.Turns.{Begins, Ends, MayTurn};
ghost use Rattle.client_history.specs.Progress.{MakesNone};
ghost use Rattle.client_history.specs.State.{ClientState};
ghost use Rattle.doc_model.specs.Answers.{all_made, edit_made};
ghost use Rattle.doc_model.specs.declared.command.Command.TheVariants as command;
ghost use Rattle.doc_records.specs.Trees.{tree_of};
ghost use Rattle.trails.specs.Claims.{IsFull};
ghost use Rattle.trails.specs.Stretches.{Had};

use crate::committing::{attached, begin};
use crate::drafting::refused;
use crate::given::{Given, Opened, Worked, brief};
use crate::heap::ClientHeap;
use crate::journal::Journal;
use client_history::{EDIT_SPARE, NEXT_ROOM, SETTLED_ROOM};
use doc_model::{Edit, Reply};
use doc_tree::{EditFault, NoMemory};
use std::sync::Wait;

/// One edit of the tree of a node.
fn edited<H: ClientHeap>(heap: &mut H, root: H::At, edit: &Edit) -> Result<H::At, EditFault>
    requires room { NEXT_ROOM ≤ (H.state heap.old).room }
    requires spare { EDIT_SPARE ≤ (H.state heap.old).spare }
    requires node { (H.shown heap.old).is_node root }
    ensures tree { answered (H.shown heap.new).tree result ≡ edit_made
        (tree_of (H.state heap.old).draft) edit.now ((H.shown heap.old).tree root) }
    ensures node { IfOk result (λ at. (H.shown heap.new).is_node at) }
    ensures edits { Edits 8 (H.state heap.old) (H.state heap.new) }
    ensures still { Still (H.shown heap.old) (H.shown heap.new) }
    ensures lent { H.lent heap.new ≡ H.lent heap.old }
{
    match edit {
        Edit::Put { path, text } => {
            let put = heap.set_text(root, path, text);
            put
        }
        Edit::Del { path } => {
            let deleted = heap.delete(root, path);
            deleted
        }
        Edit::Copy { from, to } => {
            let copied = attached(heap, root, from, to);
            copied
        }
        Edit::Publish { path } => {
            let draft = heap.draft();
            let published = heap.attach(root, path, draft);
            published
        }
    }
}

/// Room for one more edit of a tree in the making. Where a collection made it, the latest version
/// is read again, and there is none to go on from where that is a newer one.
fn room_for<H: ClientHeap, R: Wait>(
    rt: &R,
    heap: &mut H,
    opened: Opened<H::At>,
) -> Result<Option<Opened<H::At>>, H::Full>
    requires room { SETTLED_ROOM ≤ (H.state heap.old).room }
    requires version { (H.shown heap.old).is_version opened.version }
    requires node { (H.shown heap.old).is_node opened.root }
    requires seen { opened.version.number ≤ (H.state heap.old).pass.seen }
    ensures moves { IfOk result (λ moved. IfSome moved (λ next. Moves (H.state heap.new)
        (H.shown heap.old) (H.shown heap.new) opened next)) }
    ensures newer { result ≡ Ok None → opened.version.number < (H.state heap.new).pass.seen }
    ensures none { MakesNone (H.state heap.old) (H.state heap.new) }
    ensures full { OnErr result (Had (IsFull (H.state heap.old).cells) (H.state heap.old).marks
        (H.state heap.new).marks) }
    ensures kept { (H.state heap.old).room ≤ (H.state heap.new).room + 1 }
    ensures lent { H.lent heap.new ≡ H.lent heap.old }
{
    match heap.make_room_for(rt, opened.root) {
        Ok(None) => Ok(Some(opened)),
        Ok(Some(root)) => {
            let latest = heap.current();
            if latest.number == opened.version.number {
                Ok(Some(Opened {
                    version: latest,
                    root,
                }))
            } else {
                Ok(None)
            }
        }
        Err(full) => Err(full),
    }
}

/// Edits one after another, from a version's root on, with room made for each.
fn make_all<H: ClientHeap, R: Wait>(
    rt: &R,
    heap: &mut H,
    opened: Opened<H::At>,
    edits: &[Edit],
) -> Worked<H::At>
    requires room { SETTLED_ROOM ≤ (H.state heap.old).room }
    requires version { (H.shown heap.old).is_version opened.version }
    requires node { (H.shown heap.old).is_node opened.root }
    requires seen { opened.version.number ≤ (H.state heap.old).pass.seen }
    ensures works { Works (H.state heap.old) (H.state heap.new) (H.shown heap.new)
        opened.version.number (all_made (tree_of (H.state heap.old).draft) edits.now
        ((H.shown heap.old).tree opened.root)) result }
    ensures lent { H.lent heap.new ≡ H.lent heap.old }
{
    let mut working = opened;
    for edit in edits {
        match room_for(rt, heap, working) {
            Ok(Some(roomy)) => match edited(heap, roomy.root, edit) {
                Ok(root) => {
                    working = Opened {
                        version: roomy.version,
                        root,
                    };
                }
                Err(fault) => return Worked::Refused(fault),
            },
            Ok(None) => return Worked::Outrun,
            Err(_) => return Worked::Full,
        }
    }
    Worked::Made(working)
}

impl Journal {
    /// The edits of a batch, over the version that was read for it, and the ends of that. A refused
    /// edit answers with that version, whatever other clients made meanwhile.
    fn batch_over<H: ClientHeap, R: Wait>(
        &self,
        rt: &R,
        heap: &mut H,
        opened: Opened<H::At>,
        edits: &[Edit],
    ) -> Result<Option<Given>, NoMemory>
        requires may { MayTurn self.now (H.state heap.old) }
        requires room { SETTLED_ROOM ≤ (H.state heap.old).room }
        requires version { (H.shown heap.old).is_version opened.version }
        requires node { (H.shown heap.old).is_node opened.root }
        requires seen { opened.version.number ≤ (H.state heap.old).pass.seen }
        ensures ends { (s : ClientState) → MayTurn self.now s
            → Begins s (H.state heap.old) (H.shown heap.old) opened
            → Ends self.now (command.Batch edits.now) s (H.state heap.new) result }
        ensures spared { IsOk result }
        ensures lent { H.lent heap.new ≡ H.lent heap.old }
    {
        let shown = opened.version.number;
        match make_all(rt, heap, opened, edits) {
            Worked::Made(made) => {
                let ended = self.commit(rt, heap, made.version, made.root);
                ended
            }
            Worked::Refused(fault) => match refused(fault, shown) {
                Ok(given) => Ok(Some(given)),
                Err(error) => Err(error),
            },
            Worked::Outrun => Ok(None),
            Worked::Full => Ok(Some(brief!(Reply::Full { shown }, shown))),
        }
    }

    /// The latest version with all edits of a batch, or with none of them.
    pub(crate) fn batch<H: ClientHeap, R: Wait>(
        &self,
        rt: &R,
        heap: &mut H,
        edits: &doc_model::Edits,
    ) -> Result<Option<Given>, NoMemory>
        requires may { MayTurn self.now (H.state heap.old) }
        requires room { SETTLED_ROOM ≤ (H.state heap.old).room }
        ensures ends { Ends self.now (command.Batch edits.now) (H.state heap.old)
            (H.state heap.new) result }
        ensures spared { IsOk result }
        ensures lent { H.lent heap.new ≡ H.lent heap.old }
    {
        match begin(rt, heap) {
            Ok(opened) => {
                let ended = self.batch_over(rt, heap, opened, edits.edits());
                ended
            }
            Err(shown) => Ok(Some(brief!(Reply::Full { shown }, shown))),
        }
    }
}
