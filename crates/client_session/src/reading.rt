//! The commands that read: nothing is made, so the answer is known before memory can be wanting.
ghost use Rattle.std.specs.Prelude.{◌≡◌, ◌≤◌, IfOk, true};
ghost use Rattle.client_session.specs.Handles.{Still};
ghost use Rattle.client_session.specs.Turns.{Ends, EndsPlain, IsPlain, MayTurn, Opens};
ghost use Rattle.client_history.specs.Demands.{reply_asks};
ghost use Rattle.client_history.specs.State.{OnlyReads, Rests};
ghost use Rattle.doc_model.specs.Answers.{count_shown, names_shown, text_shown, told};
ghost use Rattle.doc_model.specs.declared.command.Command.TheVariants as command;
ghost use Rattle.doc_tree.specs.Tree.{node};
ghost use Rattle.trails.specs.Asks.{Shows};

use crate::given::{Given, Opened, brief};
use crate::heap::ClientHeap;
use crate::journal::Journal;
use client_history::{SETTLED_ROOM, WALK_PLACES};
use doc_model::Reply;
use doc_tree::{NoMemory, Path};
use std::alloc::Global;

/// Reads the latest version and its root.
pub(crate) fn open<H: ClientHeap>(heap: &mut H) -> Opened<H::At>
    requires room { SETTLED_ROOM ≤ (H.state heap.old).room }
    ensures opens { Opens (H.state heap.old) (H.state heap.new) (H.shown heap.new) result }
    ensures shared { H.shared result.root ≡ true }
    ensures still { Still (H.shown heap.old) (H.shown heap.new) }
    ensures lent { H.lent heap.new ≡ H.lent heap.old }
{
    let version = heap.current();
    let root = heap.tree(version);
    Opened { version, root }
}

/// The text of the node at a path below a root, as the reply that shows it.
fn text_given<H: ClientHeap>(
    alloc: Global,
    heap: &mut H,
    root: H::At,
    path: &Path,
    shown: u64,
    place: u64,
) -> Result<Given, NoMemory>
    requires room { WALK_PLACES ≤ (H.state heap.old).room }
    requires node { (H.shown heap.old).is_node root }
    ensures told { IfOk result (λ given.
        text_shown shown place (node path.now ((H.shown heap.old).tree root))
        ≡ told given.reply place) }
    ensures kept { IfOk result (λ given. given.kept ≡ given.reply) }
    ensures plain { IfOk result (λ given. IsPlain given.reply) }
    ensures shows { IfOk result (λ given. H.shared root ≡ true
        → Shows (reply_asks given.reply) (H.state heap.old).marks (H.state heap.new).marks) }
    ensures place { IfOk result (λ given. given.place ≡ place) }
    ensures pass { (H.state heap.new).pass ≡ (H.state heap.old).pass }
    ensures rests { Rests 8 (H.state heap.old) (H.state heap.new) }
    ensures lent { H.lent heap.new ≡ H.lent heap.old }
{
    match heap.node(root, path) {
        Some(at) => {
            let text = heap.text(alloc, at)?;
            let kept = text.copy()?;
            Ok(Given {
                reply: Reply::Val { shown, text },
                kept: Reply::Val { shown, text: kept },
                place,
            })
        }
        None => Ok(brief!(Reply::Absent { shown }, place)),
    }
}

/// The names of its children.
fn names_given<H: ClientHeap>(
    alloc: Global,
    heap: &mut H,
    root: H::At,
    path: &Path,
    shown: u64,
) -> Result<Given, NoMemory>
    requires room { WALK_PLACES ≤ (H.state heap.old).room }
    requires node { (H.shown heap.old).is_node root }
    ensures told { IfOk result (λ given.
        names_shown shown (node path.now ((H.shown heap.old).tree root))
        ≡ told given.reply shown) }
    ensures kept { IfOk result (λ given. given.kept ≡ given.reply) }
    ensures plain { IfOk result (λ given. IsPlain given.reply) }
    ensures shows { IfOk result (λ given. H.shared root ≡ true
        → Shows (reply_asks given.reply) (H.state heap.old).marks (H.state heap.new).marks) }
    ensures place { IfOk result (λ given. given.place ≡ shown) }
    ensures pass { (H.state heap.new).pass ≡ (H.state heap.old).pass }
    ensures rests { Rests 8 (H.state heap.old) (H.state heap.new) }
    ensures lent { H.lent heap.new ≡ H.lent heap.old }
{
    match heap.node(root, path) {
        Some(at) => {
            let names = heap.names(alloc, at)?;
            let kept = names.copy()?;
            Ok(Given {
                reply: Reply::Names { shown, names },
                kept: Reply::Names { shown, names: kept },
                place: shown,
            })
        }
        None => Ok(brief!(Reply::Absent { shown }, shown)),
    }
}

/// How many nodes its tree has.
fn count_given<H: ClientHeap>(heap: &mut H, root: H::At, path: &Path, shown: u64) -> Given
    requires room { WALK_PLACES ≤ (H.state heap.old).room }
    requires node { (H.shown heap.old).is_node root }
    ensures told { count_shown shown (node path.now ((H.shown heap.old).tree root))
        ≡ told result.reply shown }
    ensures kept { result.kept ≡ result.reply }
    ensures plain { IsPlain result.reply }
    ensures shows { H.shared root ≡ true
        → Shows (reply_asks result.reply) (H.state heap.old).marks (H.state heap.new).marks }
    ensures place { result.place ≡ shown }
    ensures pass { (H.state heap.new).pass ≡ (H.state heap.old).pass }
    ensures rests { Rests 8 (H.state heap.old) (H.state heap.new) }
    ensures lent { H.lent heap.new ≡ H.lent heap.old }
{
    match heap.node(root, path) {
        Some(at) => {
            let count = heap.count(at);
            brief!(Reply::Count { shown, count }, shown)
        }
        None => brief!(Reply::Absent { shown }, shown),
    }
}

impl Journal {
    /// The text in the latest version.
    pub(crate) fn get<H: ClientHeap>(
        &self,
        alloc: Global,
        heap: &mut H,
        path: &Path,
    ) -> Result<Option<Given>, NoMemory>
        requires may { MayTurn self.now (H.state heap.old) }
        requires room { SETTLED_ROOM ≤ (H.state heap.old).room }
        ensures ends { Ends self.now (command.Get path.now) (H.state heap.old) (H.state heap.new)
            result }
        ensures reads { OnlyReads (H.state heap.old) (H.state heap.new) }
        ensures plain { EndsPlain result }
        ensures lent { H.lent heap.new ≡ H.lent heap.old }
    {
        let opened = open(heap);
        let shown = opened.version.number;
        let given = text_given(alloc, heap, opened.root, path, shown, shown)?;
        Ok(Some(given))
    }

    /// The names of a node's children.
    pub(crate) fn list<H: ClientHeap>(
        &self,
        alloc: Global,
        heap: &mut H,
        path: &Path,
    ) -> Result<Option<Given>, NoMemory>
        requires may { MayTurn self.now (H.state heap.old) }
        requires room { SETTLED_ROOM ≤ (H.state heap.old).room }
        ensures ends { Ends self.now (command.List path.now) (H.state heap.old) (H.state heap.new)
            result }
        ensures reads { OnlyReads (H.state heap.old) (H.state heap.new) }
        ensures plain { EndsPlain result }
        ensures lent { H.lent heap.new ≡ H.lent heap.old }
    {
        let opened = open(heap);
        let given = names_given(alloc, heap, opened.root, path, opened.version.number)?;
        Ok(Some(given))
    }

    /// How many nodes a node's tree has.
    pub(crate) fn size<H: ClientHeap>(
        &self,
        heap: &mut H,
        path: &Path,
    ) -> Result<Option<Given>, NoMemory>
        requires may { MayTurn self.now (H.state heap.old) }
        requires room { SETTLED_ROOM ≤ (H.state heap.old).room }
        ensures ends { Ends self.now (command.Size path.now) (H.state heap.old) (H.state heap.new)
            result }
        ensures reads { OnlyReads (H.state heap.old) (H.state heap.new) }
        ensures plain { EndsPlain result }
        ensures lent { H.lent heap.new ≡ H.lent heap.old }
    {
        let opened = open(heap);
        let given = count_given(heap, opened.root, path, opened.version.number);
        Ok(Some(given))
    }

    /// The text so many versions before the latest. The turn is lost where a newer version has cut
    /// that one off.
    pub(crate) fn old<H: ClientHeap>(
        &self,
        alloc: Global,
        heap: &mut H,
        back: u32,
        path: &Path,
    ) -> Result<Option<Given>, NoMemory>
        requires may { MayTurn self.now (H.state heap.old) }
        requires room { SETTLED_ROOM ≤ (H.state heap.old).room }
        ensures ends { Ends self.now (command.Old back path.now) (H.state heap.old)
            (H.state heap.new) result }
        ensures reads { OnlyReads (H.state heap.old) (H.state heap.new) }
        ensures plain { EndsPlain result }
        ensures lent { H.lent heap.new ≡ H.lent heap.old }
    {
        let latest = heap.current();
        let shown = latest.number;
        if u64::from(back) > shown {
            return Ok(Some(brief!(Reply::Before { shown }, shown)));
        }
        let wanted = shown - u64::from(back);
        if back >= self.limits.keep {
            return Ok(Some(brief!(Reply::Gone { shown, wanted }, shown)));
        }
        match heap.older(latest, u64::from(back)) {
            Some(found) => {
                let root = heap.tree(found);
                let given = text_given(alloc, heap, root, path, wanted, shown)?;
                Ok(Some(given))
            }
            None => Ok(None),
        }
    }

    /// The text in the draft.
    pub(crate) fn draft_get<H: ClientHeap>(
        &self,
        alloc: Global,
        heap: &mut H,
        path: &Path,
    ) -> Result<Option<Given>, NoMemory>
        requires may { MayTurn self.now (H.state heap.old) }
        requires room { SETTLED_ROOM ≤ (H.state heap.old).room }
        ensures ends { Ends self.now (command.DraftGet path.now) (H.state heap.old)
            (H.state heap.new) result }
        ensures reads { OnlyReads (H.state heap.old) (H.state heap.new) }
        ensures plain { EndsPlain result }
        ensures lent { H.lent heap.new ≡ H.lent heap.old }
    {
        let draft = heap.draft();
        let given = text_given(alloc, heap, draft, path, self.last, self.last)?;
        Ok(Some(given))
    }
}
