//! The whole run: a heap is opened, threads add alongside the collector, and it is closed.
ghost use Rattle.std.specs.Prelude.{◌≡◌, ◌≤◌, All, IfOk, Some, length, sum_by};
ghost use Rattle.core_machine.specs.State.{State};
ghost use Rattle.heap_table.specs.Images.{Shows};
ghost use Rattle.example_counter.specs.Adding.{HasAdded, IsAdder};
ghost use Rattle.example_counter.specs.Counting.{counter_in, number_in};
ghost use Rattle.example_counter.specs.Leaving.{Leaves};

use crate::counter::Added;
use crate::opening::open_counter;
use crate::running::{Adder, add};
use cell_heap::{Image, NoMemory, Passes};
use cell_words::{Field, GREATEST_CYCLES};
use closed_heap::field_at;
use mutator_threads::{Closed, Opened, Worker, close, run_workers};
use std::alloc::Global;
use std::sync::Wait;
use std::thread::Threads;

/// How many cells there are: far fewer than the records that the threads make.
const CELLS: u32 = 64;

/// The number that a field is.
fn number_of(field: Field) -> Option<u64>
    ensures number { result ≡ number_in field }
{
    match field {
        Field::Num(number) => Some(number),
        Field::Null | Field::Cell(_) => None,
    }
}

/// The number of the record that the anchor names.
fn counter_of(image: &Image) -> Option<u64>
    ensures counter { (s : State) → Shows image.now s → result ≡ counter_in s }
{
    match field_at(image, 0, 0) {
        Field::Cell(cell) => number_of(field_at(image, cell, 0)),
        Field::Null | Field::Num(_) => None,
    }
}

/// What the threads counted, in all.
fn sum_of(adders: &[Adder]) -> u64
    requires few { length adders.now ≤ 4294967295 }
    requires small { All (λ adder. adder.sum ≤ 4294967295) adders.now }
    ensures sum { result ≡ sum_by (λ adder. adder.sum) adders.now }
{
    let mut sum = 0;
    for adder in adders {
        sum += adder.sum;
    }
    sum
}

/// The result of a run.
#[derive(Drop)]
pub(crate) struct Ran {
    /// the closed heap, and what its collector knew
    pub(crate) image: Image,
    pub(crate) passes: Passes<Added>,
    /// the counter at the close
    pub(crate) counter: Option<u64>,
    /// what the threads say that they added
    pub(crate) sum: u64,
    /// how many cells the collector freed
    pub(crate) freed: u64,
}

/// So many threads add to the counter of a new heap, alongside the collector.
pub(crate) fn run<R: Threads + Wait + Sync>(
    alloc: Global,
    rt: &R,
    threads: u32,
) -> Result<Ran, NoMemory>
    ensures leaves { IfOk result (λ ran. Leaves 64 threads ran.sum ran.freed ran.image ran.passes) }
    ensures counter { IfOk result (λ ran. ran.counter ≡ Some ran.sum) }
{
    let adders = Vec::with_capacity(alloc, threads as usize)?;
    let opened = open_counter(alloc, rt, CELLS, threads)?;
    let Opened {
        heap,
        queue,
        keeper,
        workers,
    } = opened;
    let at = &heap;
    let hints = &queue;
    let each = move |number: u32, worker: Worker<Added, Adder>| -> Worker<Added, Adder>
        requires { IsAdder at.now hints.now number worker }
        ensures { HasAdded at.entry.now number result }
    { add(rt, at, hints, number, worker) };
    let (workers, off) = run_workers(alloc, rt, at, hints, keeper, GREATEST_CYCLES, workers, each);
    let (closed, adders) = close(rt, heap, &queue, GREATEST_CYCLES, off, workers, adders);
    let Closed {
        image,
        passes,
        freed,
        ..
    } = closed;
    let sum = sum_of(&adders);
    let counter = counter_of(&image);
    Ok(Ran {
        image,
        passes,
        counter,
        sum,
        freed,
    })
}
