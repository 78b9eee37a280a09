//! What a mutator's handle and the collector's share besides the heap: where free cells may be, and
//! whether steps are made. Nothing rests on it but how long a maker of cells waits.

use free_blocks::{FreeBlocks, block_of};
use std::sync::atomic::{AtomicU64, Ordering};

/// Cells of one block that were freed and not noted yet. No call of C leaves any.
#[derive(Clone, Copy, Drop)]
pub(crate) struct Unnoted {
    pub(crate) block: u32,
    pub(crate) cells: u32,
}

/// Where free cells may be, and whether the collector is on duty.
pub(crate) struct Sharing {
    pub(crate) blocks: FreeBlocks,
    duty: AtomicU64,
}

impl Drop for Sharing {
    fn drop(self) {
        let Sharing {
            blocks: _blocks,
            duty: _,
        } = self;
    }
}

impl Sharing {
    /// With these blocks. The collector is off duty.
    pub(crate) fn new(blocks: FreeBlocks) -> Sharing {
        Sharing {
            blocks,
            duty: AtomicU64::new(0),
        }
    }

    /// Whether the collector is on duty.
    pub(crate) fn is_on_duty(&self) -> bool {
        self.duty.load(Ordering::SeqCst) != 0
    }

    /// It goes on duty, or off.
    pub(crate) fn set_duty(&self, on: bool) {
        self.duty.store(if on { 1 } else { 0 }, Ordering::SeqCst);
    }

    /// The cell was freed. It is noted with others of its block, and these of another one now.
    pub(crate) fn add_freed(&self, cell: u32, freed: &mut Unnoted) {
        let block = block_of(cell);
        if block != freed.block {
            self.note(freed);
            freed.block = block;
        }
        freed.cells = freed.cells.saturating_add(1);
    }

    /// Notes what was freed and not noted yet.
    pub(crate) fn note(&self, freed: &mut Unnoted) {
        if 0 < freed.cells && freed.block < self.blocks.blocks() {
            self.blocks.note_freed(freed.block, freed.cells);
        }
        freed.cells = 0;
    }
}
