//! The commands that make the draft.
ghost use Rattle.std.specs.Prelude.{◌≡◌, ◌≢◌, ◌≤◌, IfOk, IsOk, OnErr, OnOk};
ghost use Rattle.client_session.specs.Turns.{Ends, MayTurn};
ghost use Rattle.doc_model.specs.Answers.{refusal};
ghost use Rattle.doc_model.specs.declared.command.Command.TheVariants as command;

use crate::committing::begin;
use crate::given::{Given, brief};
use crate::heap::ClientHeap;
use crate::journal::Journal;
use client_history::SETTLED_ROOM;
use doc_model::Reply;
use doc_tree::{EditFault, NoMemory, Path, Text};
use std::sync::Wait;

/// The refusal of an edit. No edit of records wants memory.
pub(crate) fn refused(fault: EditFault, shown: u64) -> Result<Given, NoMemory>
    ensures reply { IfOk result (λ given. given.reply ≡ refusal fault shown) }
    ensures kept { IfOk result (λ given. given.kept ≡ given.reply) }
    ensures memory { OnOk result (fault ≢ EditFault.NoMemory) }
    ensures wants { OnErr result (fault ≡ EditFault.NoMemory) }
    ensures place { IfOk result (λ given. given.place ≡ shown) }
{
    match fault {
        EditFault::Absent => Ok(brief!(Reply::Absent { shown }, shown)),
        EditFault::Many => Ok(brief!(Reply::Many { shown }, shown)),
        EditFault::Deep => Ok(brief!(Reply::Deep { shown }, shown)),
        EditFault::Big => Ok(brief!(Reply::Big { shown }, shown)),
        EditFault::NoMemory => Err(NoMemory),
    }
}

impl Journal {
    /// A text into the draft. Where there is no room for the edit, a minor collection comes first.
    pub(crate) fn draft_put<H: ClientHeap, R: Wait>(
        &self,
        rt: &R,
        heap: &mut H,
        path: &Path,
        text: &Text,
    ) -> Result<Option<Given>, NoMemory>
        requires may { MayTurn self.now (H.state heap.old) }
        requires room { SETTLED_ROOM ≤ (H.state heap.old).room }
        ensures ends { Ends self.now (command.DraftPut path.now text.now) (H.state heap.old)
            (H.state heap.new) result }
        ensures spared { IsOk result }
        ensures lent { H.lent heap.new ≡ H.lent heap.old }
    {
        let shown = self.last;
        match heap.make_room(rt) {
            Err(_) => Ok(Some(brief!(Reply::Full { shown }, shown))),
            Ok(()) => {
                let draft = heap.draft();
                match heap.set_text(draft, path, text) {
                    Ok(at) => {
                        heap.set_draft(at);
                        Ok(Some(brief!(Reply::Drafted { shown }, shown)))
                    }
                    Err(fault) => match refused(fault, shown) {
                        Ok(given) => Ok(Some(given)),
                        Err(error) => Err(error),
                    },
                }
            }
        }
    }

    /// The tree at a path becomes the draft.
    pub(crate) fn take<H: ClientHeap, R: Wait>(
        &self,
        rt: &R,
        heap: &mut H,
        path: &Path,
    ) -> Result<Option<Given>, NoMemory>
        requires may { MayTurn self.now (H.state heap.old) }
        requires room { SETTLED_ROOM ≤ (H.state heap.old).room }
        ensures ends { Ends self.now (command.Take path.now) (H.state heap.old)
            (H.state heap.new) result }
        ensures spared { IsOk result }
        ensures lent { H.lent heap.new ≡ H.lent heap.old }
    {
        match begin(rt, heap) {
            Ok(opened) => {
                let shown = opened.version.number;
                match heap.node(opened.root, path) {
                    Some(at) => {
                        heap.set_draft(at);
                        Ok(Some(brief!(Reply::Drafted { shown }, shown)))
                    }
                    None => Ok(Some(brief!(Reply::Absent { shown }, shown))),
                }
            }
            Err(shown) => Ok(Some(brief!(Reply::Full { shown }, shown))),
        }
    }
}
