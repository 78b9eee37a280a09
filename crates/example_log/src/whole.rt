//! The whole run: a heap is opened, threads append alongside the collector, and it is closed.
ghost use Rattle.std.specs.Prelude.{◌≡◌, ◌<◌, ◌≤◌, ◌+◌, ◌*◌, All, IfOk, ℕ, length, sum};
ghost use Rattle.core_machine.specs.State.{State, field_of};
ghost use Rattle.heap_table.specs.Images.{Shows};
ghost use Rattle.example_log.specs.Appending.{HasAppended, IsAppender};
ghost use Rattle.example_log.specs.Leaving.{Leaves, boxes_from};

use crate::log::Appended;
use crate::opening::open_log;
use crate::running::append;
use cell_heap::{Image, NoMemory, Passes};
use cell_words::{Colour, Field, GREATEST_CYCLES};
use closed_heap::field_at;
use mutator_threads::{Closed, Opened, Worker, close, run_workers};
use std::alloc::Global;
use std::sync::Wait;
use std::thread::Threads;

/// How many cells there are: enough for what the threads append, not for all boxes that they make.
const CELLS: u32 = 1000;

/// How many boxes the log has, from the newest entry on, counting at most so many.
fn count_boxes(image: &Image, most: u64) -> u64
    ensures boxes { (s : State) → Shows image.now s
        → result ≡ boxes_from most s (field_of s 0 0) }
{
    let mut at = field_at(image, 0, 0);
    let mut boxes = 0;
    for _seen in 0..most {
        match at {
            Field::Cell(cell) => {
                at = field_at(image, cell, 1);
                boxes += 1;
            }
            Field::Null | Field::Num(_) => (),
        }
    }
    boxes
}

/// How many cells are not free.
fn count_used(image: &Image) -> u64 {
    let mut used = 0;
    for cell in 0..image.cells() {
        if image.colour(cell) != Colour::Blue {
            used += 1;
        }
    }
    used
}

/// How many entries the threads counted, in all.
fn sum_of(counts: &[u64]) -> u64
    requires few { length counts.now ≤ 4294967295 }
    requires small { All (λ (count : ℕ). count ≤ 4294967295) counts.now }
    ensures sum { result ≡ sum counts.now }
    ensures small { result ≤ length counts.now * 4294967295 }
{
    let mut sum = 0;
    for count in counts {
        sum += *count;
    }
    sum
}

/// The result of a run.
#[derive(Drop)]
pub(crate) struct Ran {
    /// the closed heap, and what its collector knew
    pub(crate) image: Image,
    pub(crate) passes: Passes<Appended>,
    /// how many boxes the log has at the close: its entries, and the first box
    pub(crate) boxes: u64,
    /// how many entries each thread says that it appended, and all of them
    pub(crate) counts: Vec<u64>,
    pub(crate) sum: u64,
    /// how many cells are not free, and how many the collector freed
    pub(crate) used: u64,
    pub(crate) freed: u64,
}

/// So many threads append to the log of a new heap, alongside the collector.
pub(crate) fn run<R: Threads + Wait + Sync>(
    alloc: Global,
    rt: &R,
    threads: u32,
) -> Result<Ran, NoMemory>
    ensures leaves { IfOk result (λ ran. Leaves 1000 ran.counts.items ran.freed ran.image
        ran.passes) }
    ensures many { IfOk result (λ ran. length ran.counts.items ≡ threads) }
    ensures boxes { IfOk result (λ ran. ran.boxes ≡ ran.sum + 1) }
    ensures sum { IfOk result (λ ran. ran.sum ≡ sum ran.counts.items) }
    ensures small { IfOk result (λ ran. ran.sum ≤ threads * 4294967295) }
{
    let counts = Vec::with_capacity(alloc, threads as usize)?;
    let opened = open_log(alloc, rt, CELLS, threads)?;
    let Opened {
        heap,
        queue,
        keeper,
        workers,
    } = opened;
    let at = &heap;
    let hints = &queue;
    let each = move |number: u32, worker: Worker<Appended, u64>| -> Worker<Appended, u64>
        requires { IsAppender at.now hints.now number worker }
        ensures { HasAppended at.entry.now number result }
    { append(rt, at, hints, number, worker) };
    let (workers, off) = run_workers(alloc, rt, at, hints, keeper, GREATEST_CYCLES, workers, each);
    let (closed, counts) = close(rt, heap, &queue, GREATEST_CYCLES, off, workers, counts);
    let Closed {
        image,
        passes,
        freed,
        ..
    } = closed;
    let sum = sum_of(&counts);
    let boxes = count_boxes(&image, sum + 2);
    let used = count_used(&image);
    Ok(Ran {
        image,
        passes,
        boxes,
        counts,
        sum,
        used,
        freed,
    })
}
