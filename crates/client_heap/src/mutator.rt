//! A mutator of documents is such a seat, with hints of any queue.
ghost use Rattle.free_cells.specs.Hints.{queue_of};

use crate::seat::StoreSeat;
use crate::{drafting, making, places, publishing};
use aged_nursery::AgedNursery;
use client_history::Documents;
use client_session::CommitRefusal;
use client_trees::NodeAt;
use free_cells::Hints;
use minor_heap::MinorHeap;
use mutator_seat::{HeapFull, Mutator};
use promotion::Promoter;
use std::sync::Wait;
use version_store::{Cut, HeldVersion};

impl<'h> StoreSeat for Mutator<'h, Documents> {
    type Hints = Hints<'h>;

    ghost queue = { queue_of };

    fn current(&mut self) -> HeldVersion {
        version_store::current(self)
    }

    fn tree(&mut self, v: HeldVersion) -> usize {
        version_store::tree(self, v)
    }

    fn older(&mut self, v: HeldVersion, back: u64) -> Result<HeldVersion, Cut> {
        version_store::older(self, v, back)
    }

    fn trim(&mut self, v: HeldVersion, keep: u64) {
        version_store::trim(self, v, keep);
    }

    fn make_draft(&mut self, minor: &MinorHeap, draft: &mut NodeAt, base: &mut usize, at: NodeAt) {
        drafting::make_draft(self, minor, draft, base, at);
    }

    fn is_same(&mut self, minor: &MinorHeap, first: usize, second: usize) -> bool {
        places::is_same(self, minor, first, second)
    }

    fn has_room(&self, minor: &MinorHeap) -> bool {
        drafting::has_room(self, minor)
    }

    fn safe_point(&mut self, minor: &MinorHeap) {
        places::safe_point(self, minor);
    }

    fn share<R: Wait>(
        &mut self,
        rt: &R,
        hints: &mut Hints<'h>,
        minor: &MinorHeap,
        promoter: &mut Promoter,
        node: NodeAt,
    ) -> Result<NodeAt, HeapFull> {
        publishing::share(rt, hints, self, minor, promoter, node)
    }

    fn commit<R: Wait>(
        &mut self,
        rt: &R,
        hints: &mut Hints<'h>,
        minor: &MinorHeap,
        v: HeldVersion,
        node: NodeAt,
        versions: u64,
    ) -> Result<u64, CommitRefusal> {
        match node {
            NodeAt::Shared(place) => {
                let made = publishing::commit_shared(rt, hints, self, minor, v, place, versions);
                made
            }
            NodeAt::Minor(_) => unreachable!(),
        }
    }

    fn make_room<R: Wait>(
        &mut self,
        rt: &R,
        hints: &mut Hints<'h>,
        nursery: &mut AgedNursery,
        promoter: &mut Promoter,
        draft: &mut NodeAt,
        base: &mut usize,
    ) -> Result<(), HeapFull> {
        drafting::make_room(rt, hints, self, nursery, promoter, draft, base)
    }

    fn make_room_for<R: Wait>(
        &mut self,
        rt: &R,
        hints: &mut Hints<'h>,
        nursery: &mut AgedNursery,
        promoter: &mut Promoter,
        draft: &mut NodeAt,
        base: &mut usize,
        tree: NodeAt,
    ) -> Result<Option<NodeAt>, HeapFull> {
        making::make_room_for(rt, hints, self, nursery, promoter, draft, base, tree)
    }
}
