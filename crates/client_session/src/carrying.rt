//! What a lost turn made, carried over to a newer version.
//!
//! An edit changes one child of the root, that of its path's first name. Where the newer version
//! has the very child there that the edit went on from, what was made of it takes its place in the
//! newer root. So what a lost turn promoted serves the next try, and the way down is not gone
//! again.
ghost use Rattle.std.specs.Prelude.{◌≡◌, ◌≤◌, IfSome, true};
ghost use Rattle.client_session.specs.Carries.{CarriesOn, Grafts, SourceAgrees};
ghost use Rattle.client_session.specs.Handles.{Edits, Still};
ghost use Rattle.client_history.specs.Progress.{MakesNone};
ghost use Rattle.client_history.specs.State.{IsReady, Rests};
ghost use Rattle.doc_tree.specs.Tree.{node};

use crate::given::{Along, Edited};
use crate::heap::ClientHeap;
use crate::reading::open;
use client_history::{EDIT_SPARE, READY_ROOM};
use doc_tree::Path;
use std::alloc::Global;

/// Whether two roots have one node at a path, or both none there.
fn agree<H: ClientHeap>(heap: &mut H, path: &Path, root: H::At, newer: H::At) -> bool
    requires room { 8216 ≤ (H.state heap.old).room }
    requires root { (H.shown heap.old).is_node root }
    requires newer { (H.shown heap.old).is_node newer }
    ensures agree { result ≡ true → node path.now ((H.shown heap.old).tree newer)
        ≡ node path.now ((H.shown heap.old).tree root) }
    ensures pass { (H.state heap.new).pass ≡ (H.state heap.old).pass }
    ensures rests { Rests 16 (H.state heap.old) (H.state heap.new) }
    ensures still { Still (H.shown heap.old) (H.shown heap.new) }
    ensures lent { H.lent heap.new ≡ H.lent heap.old }
{
    let older = heap.node(root, path);
    let latest = heap.node(newer, path);
    match (older, latest) {
        (Some(one), Some(other)) => heap.is_same(one, other),
        (None, None) => true,
        (Some(_), None) | (None, Some(_)) => false,
    }
}

/// Whether what an edit copies is below a child that two roots have in common, if it copies.
fn source_agrees<H: ClientHeap>(
    alloc: Global,
    heap: &mut H,
    along: Along<'_>,
    root: H::At,
    newer: H::At,
) -> bool
    requires room { 8216 ≤ (H.state heap.old).room }
    requires root { (H.shown heap.old).is_node root }
    requires newer { (H.shown heap.old).is_node newer }
    ensures agree { result ≡ true → SourceAgrees along.entry.source ((H.shown heap.old).tree root)
        ((H.shown heap.old).tree newer) }
    ensures pass { (H.state heap.new).pass ≡ (H.state heap.old).pass }
    ensures rests { Rests 16 (H.state heap.old) (H.state heap.new) }
    ensures still { Still (H.shown heap.old) (H.shown heap.new) }
    ensures lent { H.lent heap.new ≡ H.lent heap.old }
{
    match along.source {
        Some(source) => match source.first(alloc) {
            Ok(first) => {
                let same = agree(heap, &first, root, newer);
                same
            }
            Err(_) => false,
        },
        None => true,
    }
}

/// The newer root with what an edit made of its child at a path of one name, where that child is
/// the one that the edit went on from.
fn regraft<H: ClientHeap>(
    heap: &mut H,
    root: H::At,
    made: H::At,
    newer: H::At,
    first: &Path,
) -> Option<H::At>
    requires room { 20024 ≤ (H.state heap.old).room }
    requires spare { EDIT_SPARE ≤ (H.state heap.old).spare }
    requires root { (H.shown heap.old).is_node root }
    requires made { (H.shown heap.old).is_node made }
    requires newer { (H.shown heap.old).is_node newer }
    ensures grafts { IfSome result (λ at. Grafts first.now (H.shown heap.old) (H.shown heap.new)
        root made newer at) }
    ensures edits { Edits 24 (H.state heap.old) (H.state heap.new) }
    ensures still { Still (H.shown heap.old) (H.shown heap.new) }
    ensures lent { H.lent heap.new ≡ H.lent heap.old }
{
    if !agree(heap, first, root, newer) {
        return None;
    }
    match heap.node(made, first) {
        Some(child) => {
            let grafted = heap.attach(newer, first, child);
            match grafted {
                Ok(at) => Some(at),
                Err(_) => None,
            }
        }
        None => None,
    }
}

/// What an edit made of one version's tree, made of the latest one's; none where the two differ in
/// what the edit looked at, where memory or room runs out, or where the limits of a tree forbid
/// it.
pub(crate) fn carried<H: ClientHeap>(
    alloc: Global,
    heap: &mut H,
    root: H::At,
    made: H::At,
    along: Along<'_>,
) -> Option<Edited<H::At>>
    requires room { READY_ROOM ≤ (H.state heap.old).room }
    requires root { (H.shown heap.old).is_node root }
    requires made { (H.shown heap.old).is_node made }
    ensures carries { IfSome result (λ next. CarriesOn along.entry (H.state heap.old)
        (H.state heap.new) (H.shown heap.old) (H.shown heap.new) root made next) }
    ensures none { MakesNone (H.state heap.old) (H.state heap.new) }
    ensures ready { IsReady (H.state heap.new) }
    ensures lent { H.lent heap.new ≡ H.lent heap.old }
{
    if !heap.has_room() {
        return None;
    }
    match along.path.first(alloc) {
        Ok(first) => {
            let opened = open(heap);
            if !source_agrees(alloc, heap, along, root, opened.root) {
                return None;
            }
            let node = regraft(heap, root, made, opened.root, &first)?;
            Some(Edited { opened, node })
        }
        Err(_) => None,
    }
}
