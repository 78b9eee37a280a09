//! What the word of a block says, and how each call changes it.
ghost use Rattle.std.specs.Prelude.{◌≡◌, ◌<◌, ◌≤◌, ◌^◌};
ghost use Rattle.free_blocks.specs.Words.{count_of};

/// How many cells a block has; the last one may have fewer.
pub(crate) const BLOCK: u32 = 512;

/// By what a word counts cells that were freed. The number of cells thought free is the rest.
const FREED: u64 = 1024;

/// How often a cell may be noted as freed until that count begins again at 0.
pub(crate) const FREED_ROUND: u64 = 1 << 54;

/// What a block's word says.
#[derive(Clone, Copy)]
pub struct Count {
    /// how many of its cells are thought free and not asked for
    pub number: u64,
    /// how many were noted as freed there
    pub freed: u64,
}

impl Count {
    /// Reads a word. What no call here writes reads as a full block's.
    pub(crate) fn of(word: u64) -> Count
        ensures count { result ≡ count_of word }
        ensures number { result.number ≤ 512 }
        ensures freed { result.freed < 2 ^ 54 }
    {
        Count {
            number: (word % FREED).min(u64::from(BLOCK)),
            freed: word / FREED,
        }
    }

    /// The word that says this.
    pub(crate) fn word(self) -> u64
        requires number { self.number ≤ 512 }
        requires freed { self.freed < 2 ^ 54 }
        ensures count { count_of result ≡ self }
    {
        self.freed * FREED + self.number
    }
}

/// A block in which a cell was thought free. One was taken off its number for whoever has this.
#[derive(Drop)]
pub struct Seen {
    /// which block
    pub block: u32,
    /// what its word said before
    pub count: Count,
    ghost some: { 0 < count.number },
}
