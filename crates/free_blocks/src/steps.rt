//! The three steps that change a block's word, as steps of what it says.
ghost use Rattle.std.specs.Prelude.{◌≡◌, ◌<◌, ◌≤◌, ◌^◌, IfSome};
ghost use Rattle.free_blocks.specs.Steps.{after_of, asked_of, found_none_in, freed_in, one_more};

use crate::counts::{Count, FREED_ROUND};

/// How many cells a block has at most.
const MOST: u64 = 512;

/// What is done to a block's word.
#[derive(Clone, Copy)]
pub enum Step {
    /// so many cells were freed
    Freed(u32),
    /// a cell is wanted
    Asked,
    /// who asked when so many were freed found none
    FoundNone(u64),
}

impl Count {
    /// One more cell is thought free.
    fn one_more(self) -> Count
        ensures more { result ≡ one_more self }
    {
        Count {
            number: self.number.min(MOST - 1) + 1,
            freed: self.freed,
        }
    }

    /// So many cells were freed.
    fn freed_in(self, cells: u32) -> Count
        requires freed { self.freed < 2 ^ 54 }
        ensures freed { result ≡ freed_in cells self }
    {
        let cells = u64::from(cells);
        Count {
            number: (self.number.min(MOST) + cells).min(MOST),
            freed: (self.freed + cells) % FREED_ROUND,
        }
    }

    /// A cell is wanted.
    fn asked_of(self) -> Option<Count>
        ensures asked { result ≡ asked_of self }
    {
        if self.number == 0 {
            None
        } else {
            Some(Count {
                number: self.number - 1,
                freed: self.freed,
            })
        }
    }

    /// Who asked when so many were freed found none.
    fn found_none_in(self, freed: u64) -> Count
        ensures found { result ≡ found_none_in freed self }
    {
        if self.freed == freed {
            Count {
                number: 0,
                freed: self.freed,
            }
        } else {
            self.one_more()
        }
    }

    /// What a step leaves, if it can be made.
    pub(crate) fn after(self, step: Step) -> Option<Count>
        requires number { self.number ≤ 512 }
        requires freed { self.freed < 2 ^ 54 }
        ensures after { result ≡ after_of step self }
        ensures number { IfSome result (λ count. count.number ≤ 512) }
        ensures freed { IfSome result (λ count. count.freed < 2 ^ 54) }
    {
        match step {
            Step::Freed(cells) => Some(self.freed_in(cells)),
            Step::Asked => self.asked_of(),
            Step::FoundNone(freed) => Some(self.found_none_in(freed)),
        }
    }
}
