ghost use Rattle.std.specs.Prelude.{◌≡◌, ◌<◌};
ghost use Rattle.crossbeam_queue.specs.Passes.{ruled_capacity};

use crate::counts::{Below, Counts};
use crate::demand::Demand;
use crossbeam_queue::RuledArrayQueue;

pub(crate) type Ring = RuledArrayQueue<u32, Counts, Below>;

/// A queue of numbers of cells, with room for as many as there are cells.
pub struct FreeQueue {
    pub(crate) ring: Ring,
    pub(crate) cells: u32,
    pub(crate) demand: Demand,
    ghost room: { ruled_capacity ring ≡ cells },
    ghost some_cell: { 0 < cells },
}

impl Drop for FreeQueue {
    fn drop(self) {
        let FreeQueue {
            ring: _ring,
            cells: _,
            demand: _demand,
        } = self;
    }
}
