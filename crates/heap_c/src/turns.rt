//! How C names places: a number that was given before places may have moved names none.
ghost use Rattle.std.specs.Prelude.{◌≡◌, ◌<◌, ◌*◌, MatchOption};
ghost use Rattle.heap_c.specs.Turns.{IsNumber, NamesNone, NamesPlace, Renumbers, SteadyAfter};

/// How many numbers a turn has, for places and for private records.
pub(crate) const NUMBERS: u64 = 1 << 32;

/// The turn of private records, and below which place none has moved: such a place has its index as
/// its number, any other has the turn in it too.
#[derive(Clone, Copy, Drop)]
pub(crate) struct Turns {
    pub(crate) turn: u32,
    pub(crate) steady: u64,
}

impl Turns {
    /// The number that counts as 0 in this turn.
    #[inline(always)]
    pub(crate) fn start(self) -> u64
        ensures start { result ≡ self.turn * 4294967296 }
    {
        u64::from(self.turn) * NUMBERS
    }

    /// The place that a number names.
    #[inline(always)]
    pub(crate) fn place(self, n: u64) -> Option<usize>
        ensures names { MatchOption result (NamesNone self n) (NamesPlace self n) }
    {
        if n < self.steady {
            return Some(n as usize);
        }
        let start = self.start();
        if start <= n && self.steady <= n - start {
            Some((n - start) as usize)
        } else {
            None
        }
    }

    /// The number of a place.
    #[inline(always)]
    pub(crate) fn number(self, place: usize) -> u64
        ensures number { IsNumber self result place }
    {
        let index = place as u64 % NUMBERS;
        if index < self.steady {
            index
        } else {
            self.start() + index
        }
    }

    /// Below which place none has moved, once this is the turn: where it is another one than it
    /// was, places may have moved from `base` on.
    pub(crate) fn steady_after(self, turn: u32, base: usize) -> u64
        ensures steady { SteadyAfter self turn base result }
        ensures renumbers { self.turn < turn → Renumbers self (record {
          turn = turn;
          steady = result;
        }) }
    {
        if turn == self.turn {
            self.steady
        } else {
            self.steady.min(base as u64)
        }
    }
}
