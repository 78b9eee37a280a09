//! What threads do with the blocks: they note cells that were freed, and ask for blocks.
ghost use Rattle.std.specs.Prelude.{◌≡◌, ◌<◌, ◌≤◌, ◌^◌, IfSome, IsSome};
ghost use Rattle.free_blocks.specs.Blocks.{blocks_of, cells_of};
ghost use Rattle.free_blocks.specs.Steps.{after_of};

use crate::blocks::FreeBlocks;
use crate::counts::{BLOCK, Count, Seen};
use crate::steps::Step;
use std::sync::atomic::Ordering;

impl FreeBlocks {
    /// The cell was freed. Call it after the step that frees it.
    pub fn note_free(&self, cell: u32)
        requires cell { cell < cells_of self.now }
    {
        self.note_freed(cell / BLOCK, 1);
    }

    /// So many cells of a block were freed. Who frees many notes them together, since the others
    /// ask at the same word.
    pub fn note_freed(&self, block: u32, cells: u32)
        requires block { block < blocks_of self.now }
    {
        let _before = self.change(block, Step::Freed(cells));
    }

    /// A block for one of so many threads to start at, so that they meet late.
    pub fn start_of(&self, thread: u32, threads: u32) -> u32 {
        thread.wrapping_mul(self.blocks() / threads.max(1))
    }

    /// The next block in which a cell is thought free, from `start` on and then from the first one,
    /// and one less is thought free there. Threads of starts of their own meet less often.
    pub fn next_block(&self, start: u32) -> Option<Seen>
        ensures block { IfSome result (λ seen. seen.block < blocks_of self.now) }
        ensures some { IfSome result (λ seen. 0 < seen.count.number) }
    {
        if self.with_some.load(Ordering::SeqCst) == 0 {
            return None;
        }
        let blocks = self.blocks();
        let from = start.min(blocks);
        match self.first_within(from, blocks) {
            Some(seen) => Some(seen),
            None => self.first_within(0, from),
        }
    }

    /// About how many cells are thought free: all those of the blocks in which one is. One load.
    pub fn about(&self) -> u64
        ensures few { result ≤ cells_of self.now }
    {
        let blocks = self
            .with_some
            .load(Ordering::SeqCst)
            .min(u64::from(self.blocks()));
        (blocks * u64::from(BLOCK)).min(u64::from(self.cells))
    }

    /// All cells of the block that was given were tried in vain. Its number is 0 now, if no cell
    /// was noted as freed there since.
    pub fn found_none(&self, seen: Seen)
        requires block { seen.block < blocks_of self.now }
    {
        let _before = self.change(seen.block, Step::FoundNone(seen.count.freed));
    }

    /// The first of some blocks in which a cell is thought free.
    fn first_within(&self, from: u32, to: u32) -> Option<Seen>
        requires to { to ≤ blocks_of self.now }
        ensures block { IfSome result (λ seen. seen.block < blocks_of self.now) }
        ensures some { IfSome result (λ seen. 0 < seen.count.number) }
    {
        for block in from..to {
            if let Some(count) = self.change(block, Step::Asked) {
                return Some(Seen { block, count });
            }
        }
        None
    }

    /// Makes a step on a block's word, and tells what it said before, if the step could be made.
    fn change(&self, block: u32, step: Step) -> Option<Count>
        requires block { block < blocks_of self.now }
        ensures made { IfSome result (λ before. IsSome (after_of step before)) }
    {
        let word = &self.words[block as usize];
        let mut seen = word.load(Ordering::SeqCst);
        for _ in 0..u64::MAX {
            let before = Count::of(seen);
            let Some(after) = before.after(step) else {
                return None;
            };
            match word.compare_exchange(seen, after.word(), Ordering::SeqCst, Ordering::SeqCst) {
                Ok(_) => {
                    self.recount(before, after);
                    return Some(before);
                }
                Err(now) => seen = now,
            }
        }
        None
    }

    /// Counts a block whose number became 0, or is 0 no more. The count wraps: while two steps
    /// of one block overlap it may stand below 0, which reads as some.
    fn recount(&self, before: Count, after: Count) {
        if before.number == 0 && after.number != 0 {
            let _some = self.with_some.fetch_add(1, Ordering::SeqCst);
        }
        if before.number != 0 && after.number == 0 {
            let _none = self.with_some.fetch_sub(1, Ordering::SeqCst);
        }
    }
}
