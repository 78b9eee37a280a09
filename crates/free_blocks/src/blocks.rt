ghost use Rattle.std.specs.Prelude.{◌≡◌, vec_len};
ghost use Rattle.std.specs.Int.{div_ceil};

use std::sync::atomic::AtomicU64;

/// A word for each block, and how many of them have a number that is not 0.
pub struct FreeBlocks {
    pub(crate) words: Vec<AtomicU64>,
    pub(crate) with_some: AtomicU64,
    pub(crate) cells: u32,
    ghost sized: { vec_len words ≡ div_ceil cells 512 },
}

impl Drop for FreeBlocks {
    fn drop(self) {
        let FreeBlocks {
            words: _words,
            with_some: _,
            cells: _,
        } = self;
    }
}
