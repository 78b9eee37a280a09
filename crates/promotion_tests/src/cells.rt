ghost use Rattle.std.specs.Prelude.{◌≢◌};

use heap_rule::NoRule;
use heap_table::CellHeap;
use mutator_seat::{MutSeat, operations};
use record_copying::RawCells;

/// Gives so many cells, from one on, each of which is tried once.
#[derive(Drop)]
pub(crate) struct NextCells {
    pub next: u32,
    pub left: u32,
    /// how often it gave none, up to a multiple of 2^32
    pub refusals: u32,
}

impl NextCells {
    /// Counts one more refusal.
    fn refuse(&mut self)
        ensures refused { self.new.refusals ≢ self.old.refusals }
    {
        self.refusals = self.refusals.wrapping_add(1);
    }
}

impl RawCells<NoRule> for NextCells {
    ghost refusals = { λ cells. cells.refusals };

    fn claim(&mut self, heap: &CellHeap<NoRule>, seat: &mut MutSeat<NoRule>) -> Option<usize> {
        let cell = self.next;
        if self.left == 0 || cell >= heap.cells() {
            self.refuse();
            return None;
        }
        self.left -= 1;
        self.next = cell + 1;
        let _ = operations::look_once(heap, seat);
        match operations::try_cell(heap, seat, cell) {
            Some(place) => Some(place),
            None => {
                self.refuse();
                None
            }
        }
    }
}
