//! The heap of a client.
ghost use Rattle.std.specs.Prelude.{◌≡◌, ◌≤◌};
ghost use Rattle.client_heap.specs.Once.{sound_once};
ghost use Rattle.client_heap.specs.Sound.{IsSound};

use crate::cutting::cut_newer;
use crate::places::cut_back;
use crate::seat::StoreSeat;
use crate::walking::node_below;
use aged_nursery::AgedNursery;
use client_session::{ClientHeap, CommitRefusal};
use client_trees::NodeAt;
use doc_tree::{EditFault, Names, NoMemory, Path, Text};
use mutator_seat::HeapFull;
use promotion::Promoter;
use std::alloc::Global;
use std::sync::Wait;
use version_store::HeldVersion;

/// What a client works on, borrowed for a command.
#[derive(Drop)]
pub struct OwnHeap<'a, M: StoreSeat> {
    m: &'a mut M,
    hints: &'a mut M::Hints,
    nursery: &'a mut AgedNursery,
    promoter: &'a mut Promoter,
    draft: NodeAt,
    /// how many places of the held list stay between commands
    base: usize,
    ghost sound: { IsSound (M.bound m.now) nursery.now.heap draft base } by { sound_once
        (M.bound m.now) nursery.now.heap draft base },
    ghost whole: { nursery.now.heap.room ≡ nursery.now.records },
    ghost copies: { nursery.now.heap.room ≤ promoter.now },
}

impl<'a, M: StoreSeat> OwnHeap<'a, M> {
    /// What a client works on while it answers a command.
    pub fn new(
        m: &'a mut M,
        hints: &'a mut M::Hints,
        nursery: &'a mut AgedNursery,
        promoter: &'a mut Promoter,
        draft: NodeAt,
        base: usize,
    ) -> OwnHeap<'a, M>
        requires sound { IsSound (M.bound m.old) nursery.old.heap draft base }
        requires whole { nursery.old.heap.room ≡ nursery.old.records }
        requires copies { nursery.old.heap.room ≤ promoter.old }
        ensures m_name { result.m.ghost_name ≡ m.entry.ghost_name }
        ensures hints_name { result.hints.ghost_name ≡ hints.entry.ghost_name }
        ensures nursery_name { result.nursery.ghost_name ≡ nursery.entry.ghost_name }
        ensures promoter_name { result.promoter.ghost_name ≡ promoter.entry.ghost_name }
        ensures mutator { result.m.now ≡ m.old }
        ensures hints { result.hints.now ≡ hints.old }
        ensures nursery { result.nursery.now ≡ nursery.old }
        ensures promoter { result.promoter.now ≡ promoter.old }
        ensures draft { result.draft ≡ draft }
        ensures base { result.base ≡ base }
    {
        OwnHeap {
            m,
            hints,
            nursery,
            promoter,
            draft,
            base,
        }
    }

    /// Where the draft stands.
    pub fn draft_at(&self) -> NodeAt
        ensures { result ≡ self.now.draft }
    {
        self.draft
    }

    /// How many places of the held list stay between commands.
    pub fn base(&self) -> usize
        ensures { result ≡ self.now.base }
    {
        self.base
    }
}

impl<'a, M: StoreSeat> ClientHeap for OwnHeap<'a, M> {
    ghost use Rattle.client_heap.specs.Lent.{Lent, identity_of};
    ghost use Rattle.client_heap.specs.Shows.{cell_of, handles_of, state_of};
    ghost use Rattle.client_trees.specs.Records.{is_shared};

    type At = NodeAt;

    type Full = HeapFull;

    ghost state = { λ h. state_of (M.bound h.m.now) h.nursery.now.heap h.draft h.base };

    ghost shown = { λ h. handles_of (M.bound h.m.now) h.nursery.now.heap };

    ghost shared = { is_shared };

    ghost cell = { λ h at. cell_of (M.bound h.m.now) at };

    ghost Lent = { Lent };

    ghost lent = { λ h. record {
      mutator_name = h.m.ghost_name;
      hints_name = h.hints.ghost_name;
      nursery_name = h.nursery.ghost_name;
      promoter_name = h.promoter.ghost_name;
      mutator = identity_of (M.bound h.m.now);
      queue = M.queue h.hints.now;
      records = h.nursery.now.heap.room;
      copies = h.promoter.now;
    } };

    fn current(&mut self) -> HeldVersion {
        let _records = self.nursery.heap().len();
        let found = self.m.current();
        found
    }

    fn tree(&mut self, v: HeldVersion) -> NodeAt {
        let _records = self.nursery.heap().len();
        NodeAt::Shared(self.m.tree(v))
    }

    fn older(&mut self, v: HeldVersion, back: u64) -> Option<HeldVersion> {
        let _records = self.nursery.heap().len();
        match self.m.older(v, back) {
            Ok(found) => Some(found),
            Err(_) => None,
        }
    }

    fn node(&mut self, root: NodeAt, path: &Path) -> Option<NodeAt> {
        node_below(self.m, self.nursery.heap_mut(), root, path.names())
    }

    fn text(&mut self, alloc: Global, at: NodeAt) -> Result<Text, NoMemory> {
        client_trees::text_of(alloc, self.m, self.nursery.heap_mut(), at)
    }

    fn names(&mut self, alloc: Global, at: NodeAt) -> Result<Names, NoMemory> {
        client_trees::names(alloc, self.m, self.nursery.heap_mut(), at)
    }

    fn count(&mut self, at: NodeAt) -> u64 {
        client_trees::count(self.m, self.nursery.heap_mut(), at)
    }

    fn draft(&self) -> NodeAt {
        self.draft
    }

    fn set_text(&mut self, root: NodeAt, path: &Path, text: &Text) -> Result<NodeAt, EditFault> {
        client_trees::set_text(self.m, self.nursery.heap_mut(), root, path, text)
    }

    fn delete(&mut self, root: NodeAt, path: &Path) -> Result<NodeAt, EditFault> {
        client_trees::delete(self.m, self.nursery.heap_mut(), root, path)
    }

    fn attach(&mut self, root: NodeAt, path: &Path, sub: NodeAt) -> Result<NodeAt, EditFault> {
        client_trees::attach(self.m, self.nursery.heap_mut(), root, path, sub)
    }

    fn set_draft(&mut self, at: NodeAt) {
        self.m
            .make_draft(self.nursery.heap(), &mut self.draft, &mut self.base, at);
    }

    fn is_same(&mut self, first: NodeAt, second: NodeAt) -> bool {
        match (first, second) {
            (NodeAt::Shared(one), NodeAt::Shared(other)) => {
                self.m.is_same(self.nursery.heap(), one, other)
            }
            _ => false,
        }
    }

    fn share<R: Wait>(&mut self, rt: &R, at: NodeAt) -> Result<NodeAt, HeapFull> {
        self.m
            .share(rt, self.hints, self.nursery.heap(), self.promoter, at)
    }

    fn commit<R: Wait>(
        &mut self,
        rt: &R,
        v: HeldVersion,
        at: NodeAt,
        versions: u64,
    ) -> Result<u64, CommitRefusal> {
        self.m
            .commit(rt, self.hints, self.nursery.heap(), v, at, versions)
    }

    fn trim(&mut self, v: HeldVersion, keep: u64) {
        let _records = self.nursery.heap().len();
        self.m.trim(v, keep);
    }

    fn has_room(&self) -> bool {
        self.m.has_room(self.nursery.heap())
    }

    fn make_room<R: Wait>(&mut self, rt: &R) -> Result<(), HeapFull> {
        self.m.make_room(
            rt,
            self.hints,
            self.nursery,
            self.promoter,
            &mut self.draft,
            &mut self.base,
        )
    }

    fn make_room_for<R: Wait>(&mut self, rt: &R, at: NodeAt) -> Result<Option<NodeAt>, HeapFull> {
        self.m.make_room_for(
            rt,
            self.hints,
            self.nursery,
            self.promoter,
            &mut self.draft,
            &mut self.base,
            at,
        )
    }

    fn settle(&mut self) {
        cut_back(self.m, self.nursery.heap(), self.base);
        cut_newer(self.nursery, self.draft);
    }

    fn safe_point(&mut self) {
        self.m.safe_point(self.nursery.heap());
    }
}
