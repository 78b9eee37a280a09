//! The commands that make a version: an edit of the latest one, and the commit.
ghost use Rattle.std.specs.Prelude.{◌≡◌, ◌≤◌, ◌<◌, IfErr, IfOk, IsOk, Ok, Result, Some, false};
ghost use Rattle.std.specs.Prelude.{true};
ghost use Rattle.client_session.specs.Carries.{Deletes, Makes, Stands, Tries, Works};
ghost use Rattle.client_session.specs.Handles.{Edits, Still};
ghost use Rattle.client_session.specs.Turns.{Begins, Ends, FindsFull, MayTurn, account_of, bounds};
ghost use Rattle.client_history.specs.Progress.{runs_out};
ghost use Rattle.client_history.specs.State.{ClientState};
ghost use Rattle.client_history.specs.Turns.{Begun};
ghost use Rattle.doc_tree.specs.Edits.{answered};
ghost use Rattle.doc_model.specs.Answers.{attached, full_place};
ghost use Rattle.doc_model.specs.declared.command.Command.{Command};
ghost use Rattle.doc_model.specs.declared.command.Command.TheVariants as command;
ghost use Rattle.doc_tree.specs.Tree.{DocTree, node};

use crate::carrying::carried;
use crate::drafting::refused;
use crate::given::{Along, Edited, Given, Opened, Tried, brief};
use crate::heap::ClientHeap;
use crate::journal::Journal;
use crate::reading::open;
use crate::refusal::CommitRefusal;
use crate::waiting::{back_off, waits_over};
use client_history::{EDIT_SPARE, NEXT_ROOM, SETTLED_ROOM};
use doc_model::Reply;
use doc_tree::{EditFault, NoMemory, Path, Text};
use std::alloc::Global;
use std::sync::Wait;
use thread_waits::Backoff;
use version_rule::HeldVersion;

/// Makes room for an edit and reads the latest version. Where the heap is full, that version's
/// number.
pub(crate) fn begin<H: ClientHeap, R: Wait>(rt: &R, heap: &mut H) -> Result<Opened<H::At>, u64>
    requires room { SETTLED_ROOM ≤ (H.state heap.old).room }
    ensures begins { IfOk result (λ opened.
        Begins (H.state heap.old) (H.state heap.new) (H.shown heap.new) opened) }
    ensures shared { IfOk result (λ opened. H.shared opened.root ≡ true) }
    ensures full { IfErr result (λ shown. FindsFull (H.state heap.old) (H.state heap.new) shown) }
    ensures lent { H.lent heap.new ≡ H.lent heap.old }
{
    match heap.make_room(rt) {
        Ok(()) => Ok(open(heap)),
        Err(_) => Err(heap.current().number),
    }
}

/// The tree with the node at one path also at another.
pub(crate) fn attached<H: ClientHeap>(
    heap: &mut H,
    root: H::At,
    from: &Path,
    to: &Path,
) -> Result<H::At, EditFault>
    requires room { NEXT_ROOM ≤ (H.state heap.old).room }
    requires spare { EDIT_SPARE ≤ (H.state heap.old).spare }
    requires node { (H.shown heap.old).is_node root }
    ensures tree { answered (H.shown heap.new).tree result ≡ attached to.now
        ((H.shown heap.old).tree root) (node «from».now ((H.shown heap.old).tree root)) }
    ensures node { IfOk result (λ at. (H.shown heap.new).is_node at) }
    ensures edits { Edits 8 (H.state heap.old) (H.state heap.new) }
    ensures still { Still (H.shown heap.old) (H.shown heap.new) }
    ensures lent { H.lent heap.new ≡ H.lent heap.old }
{
    match heap.node(root, from) {
        Some(sub) => {
            let edited = heap.attach(root, to, sub);
            edited
        }
        None => Err(EditFault::Absent),
    }
}

impl Journal {
    /// Makes a shared node's tree the next version, over one that was the latest at the last look.
    fn commit_shared<H: ClientHeap, R: Wait>(
        &self,
        rt: &R,
        heap: &mut H,
        version: HeldVersion,
        at: H::At,
    ) -> Tried<H::At>
        requires may { MayTurn self.now (H.state heap.old) }
        requires room { 9001 ≤ (H.state heap.old).room }
        requires version { (H.shown heap.old).is_version version }
        requires node { (H.shown heap.old).is_node at }
        requires shared { H.shared at ≡ true }
        requires below { version.number < self.now.limits.versions }
        ensures tries { Tries self.now version.number (H.state heap.old) (H.state heap.new)
            (H.shown heap.old) (H.shown heap.new) at result }
        ensures lent { H.lent heap.new ≡ H.lent heap.old }
    {
        let shown = version.number;
        match heap.commit(rt, version, at, u64::from(self.limits.versions)) {
            Ok(made) => {
                let latest = heap.current();
                heap.trim(latest, u64::from(self.limits.keep));
                Tried::Answered(brief!(Reply::Committed { shown: made }, made))
            }
            Err(CommitRefusal::Moved) => Tried::Lost(at),
            Err(CommitRefusal::Full) => Tried::Answered(brief!(Reply::Full { shown }, shown)),
        }
    }

    /// Tries to make a node's tree the next version, over one that was the latest. The try is lost
    /// where another client was faster; a look at the latest version comes first, since what the
    /// edit made would be promoted in vain.
    fn try_commit<H: ClientHeap, R: Wait>(
        &self,
        rt: &R,
        heap: &mut H,
        version: HeldVersion,
        at: H::At,
    ) -> Tried<H::At>
        requires may { MayTurn self.now (H.state heap.old) }
        requires room { SETTLED_ROOM ≤ (H.state heap.old).room }
        requires version { (H.shown heap.old).is_version version }
        requires node { (H.shown heap.old).is_node at }
        requires seen { version.number ≤ (H.state heap.old).pass.seen }
        ensures tries { Tries self.now version.number (H.state heap.old) (H.state heap.new)
            (H.shown heap.old) (H.shown heap.new) at result }
        ensures lent { H.lent heap.new ≡ H.lent heap.old }
    {
        let shown = version.number;
        let latest = heap.current();
        if latest.number != shown {
            return Tried::Lost(at);
        }
        if shown >= u64::from(self.limits.versions) {
            return Tried::Answered(brief!(Reply::Worn { shown }, shown));
        }
        match heap.share(rt, at) {
            Ok(shared) => {
                let tried = self.commit_shared(rt, heap, version, shared);
                tried
            }
            Err(_) => Tried::Answered(brief!(Reply::Full { shown }, shown)),
        }
    }

    /// Tries to make a node's tree the next version, and waits where the try is lost.
    fn commit_or_wait<H: ClientHeap, R: Wait>(
        &self,
        rt: &R,
        heap: &mut H,
        version: HeldVersion,
        at: H::At,
        backoff: &mut Backoff,
    ) -> Tried<H::At>
        requires may { MayTurn self.now (H.state heap.old) }
        requires room { SETTLED_ROOM ≤ (H.state heap.old).room }
        requires version { (H.shown heap.old).is_version version }
        requires node { (H.shown heap.old).is_node at }
        requires seen { version.number ≤ (H.state heap.old).pass.seen }
        ensures tries { Tries self.now version.number (H.state heap.old) (H.state heap.new)
            (H.shown heap.old) (H.shown heap.new) at result }
        ensures lent { H.lent heap.new ≡ H.lent heap.old }
    {
        match self.try_commit(rt, heap, version, at) {
            Tried::Answered(given) => Tried::Answered(given),
            Tried::Lost(made) => {
                back_off(heap, backoff);
                Tried::Lost(made)
            }
        }
    }

    /// Makes a node's tree the next version, over one that was the latest. The turn is lost where
    /// another client was faster.
    pub(crate) fn commit<H: ClientHeap, R: Wait>(
        &self,
        rt: &R,
        heap: &mut H,
        version: HeldVersion,
        at: H::At,
    ) -> Result<Option<Given>, NoMemory>
        requires may { MayTurn self.now (H.state heap.old) }
        requires room { SETTLED_ROOM ≤ (H.state heap.old).room }
        requires version { (H.shown heap.old).is_version version }
        requires node { (H.shown heap.old).is_node at }
        requires seen { version.number ≤ (H.state heap.old).pass.seen }
        ensures ends { (c : Command) (s : ClientState)
            → Begun (bounds self.now.limits) (account_of self.now s) c version.number s
            (H.state heap.old) (Ok ((H.shown heap.old).tree at))
            → full_place version.number (account_of self.now s) c ≡ Some version.number
            → Ends self.now c s (H.state heap.new) result }
        ensures spared { IsOk result }
        ensures lent { H.lent heap.new ≡ H.lent heap.old }
    {
        let mut backoff = waits_over(self.log.client(), version);
        match self.commit_or_wait(rt, heap, version, at, &mut backoff) {
            Tried::Answered(given) => Ok(Some(given)),
            Tried::Lost(_) => Ok(None),
        }
    }

    /// Makes what an edit made the next version. Where another client was faster it is carried
    /// over, after a wait, to the version that is then the latest, and tried again there; the turn
    /// is lost where that cannot be.
    fn commit_along<H: ClientHeap, R: Wait>(
        &self,
        alloc: Global,
        rt: &R,
        heap: &mut H,
        edited: Edited<H::At>,
        along: Along<'_>,
    ) -> Result<Option<Given>, NoMemory>
        requires may { MayTurn self.now (H.state heap.old) }
        requires stands { Stands (H.state heap.old) (H.shown heap.old) edited }
        ensures ends { (c : Command) (f : DocTree → Result DocTree EditFault) (s : ClientState)
            → Makes self.now c f along.entry s (H.state heap.old) (H.shown heap.old) edited
            → Ends self.now c s (H.state heap.new) result }
        ensures spared { IsOk result }
        ensures lent { H.lent heap.new ≡ H.lent heap.old }
    {
        let mut edited = edited;
        let mut backoff = waits_over(self.log.client(), edited.opened.version);
        for _ in rt.forever() {
            match self.commit_or_wait(rt, heap, edited.opened.version, edited.node, &mut backoff) {
                Tried::Answered(given) => return Ok(Some(given)),
                Tried::Lost(made) => {
                    let next = carried(alloc, heap, edited.opened.root, made, along);
                    match next {
                        Some(again) => edited = again,
                        None => return Ok(None),
                    }
                }
            }
        }
        unreachable!()
    }

    /// Ends a turn whose edit is made or refused, and is not carried over.
    fn finish<H: ClientHeap, R: Wait>(
        &self,
        rt: &R,
        heap: &mut H,
        version: HeldVersion,
        edited: Result<H::At, EditFault>,
    ) -> Result<Option<Given>, NoMemory>
        requires may { MayTurn self.now (H.state heap.old) }
        requires room { SETTLED_ROOM ≤ (H.state heap.old).room }
        requires version { (H.shown heap.old).is_version version }
        requires node { IfOk edited (λ at. (H.shown heap.old).is_node at) }
        requires seen { version.number ≤ (H.state heap.old).pass.seen }
        ensures ends { (c : Command) (s : ClientState)
            → Begun (bounds self.now.limits) (account_of self.now s) c version.number s
            (H.state heap.old) (answered (H.shown heap.old).tree edited)
            → full_place version.number (account_of self.now s) c ≡ Some version.number
            → Ends self.now c s (H.state heap.new) result }
        ensures spared { runs_out (answered (H.shown heap.old).tree edited) ≡ false → IsOk result }
        ensures lent { H.lent heap.new ≡ H.lent heap.old }
    {
        match edited {
            Ok(at) => {
                let ended = self.commit(rt, heap, version, at);
                ended
            }
            Err(fault) => match refused(fault, version.number) {
                Ok(given) => Ok(Some(given)),
                Err(error) => Err(error),
            },
        }
    }

    /// Ends a turn whose edit along a path is made or refused.
    fn finish_along<H: ClientHeap, R: Wait>(
        &self,
        alloc: Global,
        rt: &R,
        heap: &mut H,
        opened: Opened<H::At>,
        edited: Result<H::At, EditFault>,
        along: Along<'_>,
    ) -> Result<Option<Given>, NoMemory>
        requires may { MayTurn self.now (H.state heap.old) }
        requires room { SETTLED_ROOM ≤ (H.state heap.old).room }
        requires version { (H.shown heap.old).is_version opened.version }
        requires root { (H.shown heap.old).is_node opened.root }
        requires node { IfOk edited (λ at. (H.shown heap.old).is_node at) }
        requires seen { opened.version.number ≤ (H.state heap.old).pass.seen }
        ensures ends { (c : Command) (f : DocTree → Result DocTree EditFault) (s : ClientState)
            → Works self.now c f along.entry s (H.state heap.old) (H.shown heap.old) opened
            (answered (H.shown heap.old).tree edited)
            → Ends self.now c s (H.state heap.new) result }
        ensures spared { runs_out (answered (H.shown heap.old).tree edited) ≡ false → IsOk result }
        ensures lent { H.lent heap.new ≡ H.lent heap.old }
    {
        match edited {
            Ok(node) => {
                let made = Edited { opened, node };
                let ended = self.commit_along(alloc, rt, heap, made, along);
                ended
            }
            Err(fault) => match refused(fault, opened.version.number) {
                Ok(given) => Ok(Some(given)),
                Err(error) => Err(error),
            },
        }
    }

    /// Ends a turn that deletes. A child of the root that is gone cannot be put into another.
    fn finish_deletion<H: ClientHeap, R: Wait>(
        &self,
        alloc: Global,
        rt: &R,
        heap: &mut H,
        opened: Opened<H::At>,
        edited: Result<H::At, EditFault>,
        path: &Path,
    ) -> Result<Option<Given>, NoMemory>
        requires may { MayTurn self.now (H.state heap.old) }
        requires room { SETTLED_ROOM ≤ (H.state heap.old).room }
        requires version { (H.shown heap.old).is_version opened.version }
        requires root { (H.shown heap.old).is_node opened.root }
        requires node { IfOk edited (λ at. (H.shown heap.old).is_node at) }
        requires seen { opened.version.number ≤ (H.state heap.old).pass.seen }
        ensures ends { (s : ClientState) → Deletes self.now path.now s (H.state heap.old)
            (H.shown heap.old) opened (answered (H.shown heap.old).tree edited)
            → Ends self.now (command.Del path.now) s (H.state heap.new) result }
        ensures spared { runs_out (answered (H.shown heap.old).tree edited) ≡ false → IsOk result }
        ensures lent { H.lent heap.new ≡ H.lent heap.old }
    {
        if path.names().len() == 1 {
            let ended = self.finish(rt, heap, opened.version, edited);
            return ended;
        }
        let along = Along { path, source: None };
        let ended = self.finish_along(alloc, rt, heap, opened, edited, along);
        ended
    }

    /// A text into the latest version.
    pub(crate) fn put<H: ClientHeap, R: Wait>(
        &self,
        alloc: Global,
        rt: &R,
        heap: &mut H,
        path: &Path,
        text: &Text,
    ) -> Result<Option<Given>, NoMemory>
        requires may { MayTurn self.now (H.state heap.old) }
        requires room { SETTLED_ROOM ≤ (H.state heap.old).room }
        ensures ends { Ends self.now (command.Put path.now text.now) (H.state heap.old)
            (H.state heap.new) result }
        ensures spared { IsOk result }
        ensures lent { H.lent heap.new ≡ H.lent heap.old }
    {
        match begin(rt, heap) {
            Ok(opened) => {
                let edited = heap.set_text(opened.root, path, text);
                let along = Along { path, source: None };
                let ended = self.finish_along(alloc, rt, heap, opened, edited, along);
                ended
            }
            Err(shown) => Ok(Some(brief!(Reply::Full { shown }, shown))),
        }
    }

    /// The latest version without a node.
    pub(crate) fn del<H: ClientHeap, R: Wait>(
        &self,
        alloc: Global,
        rt: &R,
        heap: &mut H,
        path: &Path,
    ) -> Result<Option<Given>, NoMemory>
        requires may { MayTurn self.now (H.state heap.old) }
        requires room { SETTLED_ROOM ≤ (H.state heap.old).room }
        ensures ends { Ends self.now (command.Del path.now) (H.state heap.old) (H.state heap.new)
            result }
        ensures spared { IsOk result }
        ensures lent { H.lent heap.new ≡ H.lent heap.old }
    {
        match begin(rt, heap) {
            Ok(opened) => {
                let edited = heap.delete(opened.root, path);
                let ended = self.finish_deletion(alloc, rt, heap, opened, edited, path);
                ended
            }
            Err(shown) => Ok(Some(brief!(Reply::Full { shown }, shown))),
        }
    }

    /// The latest version with a node also at another path.
    pub(crate) fn copy<H: ClientHeap, R: Wait>(
        &self,
        alloc: Global,
        rt: &R,
        heap: &mut H,
        from: &Path,
        to: &Path,
    ) -> Result<Option<Given>, NoMemory>
        requires may { MayTurn self.now (H.state heap.old) }
        requires room { SETTLED_ROOM ≤ (H.state heap.old).room }
        ensures ends { Ends self.now (command.Copy «from».now to.now) (H.state heap.old)
            (H.state heap.new) result }
        ensures spared { IsOk result }
        ensures lent { H.lent heap.new ≡ H.lent heap.old }
    {
        match begin(rt, heap) {
            Ok(opened) => {
                let edited = attached(heap, opened.root, from, to);
                let along = Along {
                    path: to,
                    source: Some(from),
                };
                let ended = self.finish_along(alloc, rt, heap, opened, edited, along);
                ended
            }
            Err(shown) => Ok(Some(brief!(Reply::Full { shown }, shown))),
        }
    }

    /// The latest version with the draft at a path.
    pub(crate) fn publish<H: ClientHeap, R: Wait>(
        &self,
        alloc: Global,
        rt: &R,
        heap: &mut H,
        path: &Path,
    ) -> Result<Option<Given>, NoMemory>
        requires may { MayTurn self.now (H.state heap.old) }
        requires room { SETTLED_ROOM ≤ (H.state heap.old).room }
        ensures ends { Ends self.now (command.Publish path.now) (H.state heap.old)
            (H.state heap.new) result }
        ensures spared { IsOk result }
        ensures lent { H.lent heap.new ≡ H.lent heap.old }
    {
        match begin(rt, heap) {
            Ok(opened) => {
                let draft = heap.draft();
                let edited = heap.attach(opened.root, path, draft);
                let along = Along { path, source: None };
                let ended = self.finish_along(alloc, rt, heap, opened, edited, along);
                ended
            }
            Err(shown) => Ok(Some(brief!(Reply::Full { shown }, shown))),
        }
    }
}
