//! How long to wait after a lost try.
ghost use Rattle.std.specs.Prelude.{◌≤◌};

use rand_core::utils::NextWord;
use rand_pcg::Pcg32;

/// Fewer pieces than this after a first lost try: at most some 128 microseconds.
const FIRST: u32 = 32;

/// And fewer than this after a later one: at most some 256 microseconds.
const LATER: u32 = 64;

/// The lost tries of one thread at one work. Threads that lost to the same winner wait for
/// different times, at random, so that they do not meet again.
#[derive(Drop)]
pub struct Backoff {
    random: Pcg32,
    has_lost: bool,
}

impl Backoff {
    /// Before the first loss. Threads that compete give different seeds.
    pub fn new(seed: u64) -> Backoff {
        Backoff {
            random: Pcg32::new(seed, 0),
            has_lost: false,
        }
    }

    /// How many pieces to wait after one more loss.
    pub fn pieces(&mut self) -> u32
        ensures few { result ≤ 64 }
    {
        let limit = if self.has_lost { LATER } else { FIRST };
        self.has_lost = true;
        self.random.next_word() % limit
    }
}
