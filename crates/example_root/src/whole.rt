//! The whole run: a heap is opened, the mutators and the collector work on it concurrently, and it
//! is closed.
ghost use Rattle.std.specs.Prelude.{◌≡◌, IfOk, IfSome};
ghost use Rattle.example_root.specs.Leaving.{Leaves};
ghost use Rattle.example_root.specs.ReadBack.{WasReadBack};

use crate::kept::Kept;
use crate::opening::open_two;
use crate::working::{Blocking, Report};
use cell_heap::{Image, NoMemory, Passes};
use cell_words::GREATEST_CYCLES;
use mutator_threads::{Closed, Opened, close, run_alongside};
use std::alloc::Global;
use std::sync::Wait;
use std::thread::Threads;

/// How many cells there are: far fewer than the records that are made.
pub(crate) const CELLS: u32 = 32;

/// The number that is kept.
pub(crate) const NUMBER: u64 = 42;

/// The result of a run.
#[derive(Drop)]
pub(crate) struct Ran {
    /// the closed heap, and what its collector knew
    pub(crate) image: Image,
    pub(crate) passes: Passes<Kept>,
    /// what was read after the call, if a number was kept before
    pub(crate) found: Option<u64>,
    /// what is kept at the close
    pub(crate) left: Option<u64>,
    /// how many records were made during the call
    pub(crate) made: u64,
    /// how many cells the collector freed
    pub(crate) freed: u64,
}

/// A number is kept over a call that blocks, on a new heap whose collector runs alongside.
pub(crate) fn run<R: Threads + Wait + Sync>(alloc: Global, rt: &R) -> Result<Ran, NoMemory>
    ensures found { IfOk result (λ ran. IfSome ran.found
        (λ number. (number ≡ 42) × WasReadBack number ran.passes)) }
    ensures leaves { IfOk result (λ ran. Leaves 32 ran.left ran.freed ran.image ran.passes) }
{
    let own = Vec::with_capacity(alloc, 2)?;
    let opened = open_two(alloc, rt, CELLS)?;
    let Opened {
        heap,
        queue,
        keeper,
        workers,
    } = opened;
    let work = Blocking {
        workers,
        number: NUMBER,
    };
    let (report, off) = run_alongside(alloc, rt, &heap, &queue, keeper, GREATEST_CYCLES, work);
    let Report {
        workers,
        found,
        left,
        made,
    } = report;
    let (closed, _own) = close(rt, heap, &queue, GREATEST_CYCLES, off, workers, own);
    let Closed {
        image,
        passes,
        freed,
        ..
    } = closed;
    Ok(Ran {
        image,
        passes,
        found,
        left,
        made,
        freed,
    })
}
