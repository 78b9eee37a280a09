//! Opening a queue, and one more pass for one more thread.
//!
//! The first view of the toolchain's rule is a constant, and ours is that of a queue for no cells.
//! So `open` picks the number of cells by a type parameter that only proofs see (`Opening`).
ghost use Rattle.std.specs.Prelude.{◌≡◌, ◌<◌, ◌≤◌, ◌+◌, ◌-◌, IfOk, IsOk};
ghost use Rattle.crossbeam_queue.specs.Passes.{IsPassOf, ruled_capacity, view};
ghost use Rattle.free_cells.specs.Counts.{begun, filled, opened, shared};
ghost use Rattle.free_cells.specs.Hints.{cells_of, counts_of, queue_of};
ghost use Rattle.free_cells.specs.Passes.{IsHintPass};

use crate::NoMemory;
use crate::counts::{Filled, HintPass, Opening, Opens, Splits};
use crate::demand::Demand;
use crate::hints::Hints;
use crate::queue::{FreeQueue, Ring};
use std::alloc::Global;
use std::marker::Brand;
use std::sync::Wait;

impl FreeQueue {
    /// A queue that holds the numbers from `first` on, the least at the front, and its only pass.
    pub fn open<R: Wait>(
        alloc: Global,
        rt: &R,
        cells: u32,
        first: u32,
    ) -> Result<(FreeQueue, HintPass), NoMemory>
        requires cells { 0 < cells }
        requires first { first ≤ cells }
        ensures pass { IfOk result (λ made. IsHintPass made.0 made.1) }
        ensures cells { IfOk result (λ made. cells_of made.0 ≡ cells) }
        ensures filled { IfOk result (λ made. view made.1 ≡ filled cells first (cells - first)) }
    {
        let (ring, mut pass) = Ring::ruled(alloc, cells as usize)?;
        size::<Brand>(&ring, &mut pass, cells);
        for cell in first..cells {
            fill(rt, &ring, &mut pass, cells, first, cell);
        }
        let demand = Demand::new();
        Ok((
            FreeQueue {
                ring,
                cells,
                demand,
            },
            pass,
        ))
    }

    /// One more pass, with which one more thread may use the queue.
    pub fn split(&self, pass: &mut HintPass) -> Result<HintPass, NoMemory>
        requires pass { IsHintPass self.now pass.old }
        ensures ok { IsOk result }
        ensures pass { IsHintPass self.now pass.new }
        ensures other { IfOk result (λ other. IsHintPass self.now other) }
        ensures counts { view pass.new ≡ shared (view pass.old) }
        ensures begun { IfOk result (λ other. view other ≡ begun (view pass.old)) }
    {
        Ok(self.ring.another::<Splits>(pass))
    }

    /// Says that the work is over, and that nobody who waits for demand has to wait any more.
    pub fn end_work(&self) {
        self.demand.end();
    }

    /// The queue with a pass, in the hands of one thread.
    pub fn hints(&self, pass: HintPass) -> Hints<'_>
        requires pass { IsHintPass self.now pass }
        ensures queue { queue_of result ≡ self.now }
        ensures counts { counts_of result ≡ view pass }
    {
        Hints { queue: self, pass }
    }
}

/// The only pass of a new queue learns how many cells there are.
fn size<S: Opening>(ring: &Ring, pass: &mut HintPass, cells: u32)
    requires cells { cells ≡ S.cells }
    requires pass { IsPassOf ring.now pass.old }
    requires counts { view pass.old ≡ opened 0 }
    ensures pass { IsPassOf ring.now pass.new }
    ensures counts { view pass.new ≡ opened cells }
{
    let _unused = ring.another::<Opens<S>>(pass);
}

/// The next number joins at the back of the queue that is being filled.
fn fill<R: Wait>(rt: &R, ring: &Ring, pass: &mut HintPass, cells: u32, first: u32, cell: u32)
    requires first { first ≤ cell }
    requires range { cell < cells }
    requires room { ruled_capacity ring.now ≡ cells }
    requires pass { IsPassOf ring.now pass.old }
    requires counts { view pass.old ≡ filled cells first (cell - first) }
    ensures pass { IsPassOf ring.now pass.new }
    ensures counts { view pass.new ≡ filled cells first (cell + 1 - first) }
{
    match ring.push_as::<Filled, R>(rt, pass, cell) {
        Ok(()) => (),
        Err(_) => unreachable!(),
    }
}
