//! Free cells for copies of private records.
ghost use Rattle.std.specs.Prelude.{◌≡◌, ◌≢◌};
ghost use Rattle.heap_c.specs.Claiming.{SaysNone};

use crate::claiming::{Waiting, claim};
use crate::codes::Code;
use crate::rule::Rule;
use crate::sharing::Sharing;
use heap_table::CellHeap;
use mutator_seat::MutSeat;
use record_copying::RawCells;

/// Where a mutator gets them, and how it waits for one.
#[derive(Drop)]
pub(crate) struct FreeCells<'a> {
    pub(crate) sharing: &'a Sharing,
    pub(crate) wait: Waiting,
    /// whether waiting was of no use, when it got none
    pub(crate) is_full: bool,
    /// how often it got none, up to a multiple of 2^32
    pub(crate) refusals: u32,
}

impl<'a> FreeCells<'a> {
    /// None was refused yet.
    pub(crate) fn new(sharing: &'a Sharing, wait: Waiting) -> FreeCells<'a>
        ensures none { result.refusals ≡ 0 }
    {
        FreeCells {
            sharing,
            wait,
            is_full: false,
            refusals: 0,
        }
    }

    /// Why it got none.
    pub(crate) fn code(&self) -> Code
        ensures code { SaysNone result }
    {
        if self.is_full { Code::Full } else { Code::Wait }
    }

    /// Counts one more refusal.
    fn refuse(&mut self, is_full: bool)
        ensures refused { self.new.refusals ≢ self.old.refusals }
    {
        self.is_full = is_full;
        self.refusals = self.refusals.wrapping_add(1);
    }
}

impl RawCells<Rule> for FreeCells<'_> {
    ghost refusals = { λ cells. cells.refusals };

    fn claim(&mut self, heap: &CellHeap<Rule>, seat: &mut MutSeat<Rule>) -> Option<usize> {
        match claim(heap, seat, self.sharing, &mut self.wait) {
            Ok(place) => Some(place),
            Err(code) => {
                self.refuse(code == Code::Full);
                None
            }
        }
    }
}
