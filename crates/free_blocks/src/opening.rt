//! Making the words, and which cells a block has.
ghost use Rattle.std.specs.Prelude.{◌≡◌, ◌<◌, ◌≤◌, ◌+◌, ◌*◌, ◌-◌, ◌/◌, IfOk, min, max};
ghost use Rattle.free_blocks.specs.Blocks.{blocks_of, cells_of};

use crate::NoMemory;
use crate::blocks::FreeBlocks;
use crate::counts::{BLOCK, Count};
use std::alloc::Global;
use std::sync::atomic::AtomicU64;

/// The cells of a block: from `first` on, up to `end`, which is none of them.
#[derive(Clone, Copy, Debug, PartialEq, Eq)]
pub struct Span {
    pub first: u32,
    pub end: u32,
}

/// The cells of a block among so many.
fn span_in(cells: u32, block: u32) -> Span
    requires block { 512 * block < cells }
    ensures first { result.first ≡ 512 * block }
    ensures end { result.end ≡ min (512 * block + 512) cells }
{
    let first = block * BLOCK;
    Span {
        first,
        end: first + BLOCK.min(cells - first),
    }
}

/// How many cells of a block are free where the first of all free ones is this.
fn free_in(span: Span, first: u32) -> u64
    requires few { span.end ≤ span.first + 512 }
    ensures free { result ≡ span.end - max span.first first }
    ensures few { result ≤ 512 }
{
    u64::from(span.end.saturating_sub(span.first.max(first)))
}

/// The block that a cell is in.
pub fn block_of(cell: u32) -> u32
    ensures block { result ≡ cell / 512 }
{
    cell / BLOCK
}

impl FreeBlocks {
    /// Words for so many cells, of which those from `first` on are thought free.
    pub fn open(alloc: Global, cells: u32, first: u32) -> Result<FreeBlocks, NoMemory>
        ensures cells { IfOk result (λ made. cells_of made ≡ cells) }
    {
        let blocks = cells.div_ceil(BLOCK);
        let mut words = Vec::with_capacity(alloc, blocks as usize)?;
        let mut with_some: u64 = 0;
        for block in 0..blocks {
            let number = free_in(span_in(cells, block), first);
            words.push(AtomicU64::new(Count { number, freed: 0 }.word()))?;
            with_some = with_some.saturating_add(number.min(1));
        }
        Ok(FreeBlocks {
            words,
            with_some: AtomicU64::new(with_some),
            cells,
        })
    }

    /// For how many cells these are.
    pub fn cells(&self) -> u32
        ensures cells { result ≡ cells_of self.now }
    {
        self.cells
    }

    /// How many blocks there are.
    pub fn blocks(&self) -> u32
        ensures blocks { result ≡ blocks_of self.now }
    {
        self.cells.div_ceil(BLOCK)
    }

    /// The cells of a block.
    pub fn span(&self, block: u32) -> Span
        requires block { block < blocks_of self.now }
        ensures first { result.first ≡ 512 * block }
        ensures end { result.end ≡ min (512 * block + 512) (cells_of self.now) }
        ensures some { result.first < result.end }
    {
        span_in(self.cells, block)
    }
}
