//! The opening of a heap for any number of mutators, with what their threads and the collector's
//! need.
ghost use Rattle.std.specs.Prelude.{◌≡◌, ◌<◌, ◌≤◌, IfOk, IsTrue, Ok, OnOk, ℕ, length, replicate};
ghost use mathlib.Core.Option.{some};
ghost use lib.ListN.{get_elem?};
ghost use Rattle.beside_collector.specs.Places.{AllFrom};
ghost use Rattle.beside_collector.specs.Splitting.{HasSplit};
ghost use Rattle.core_machine.specs.State.{greatest_cells};
ghost use Rattle.dlg_core.specs.FirstRows.{are_first_rows};
ghost use Rattle.free_cells.specs.Passes.{IsHintPass};
ghost use Rattle.heap_rule.specs.Moves.{split_view};
ghost use Rattle.heap_rule.specs.declared.view.Place.TheVariants as places;
ghost use Rattle.heap_table.specs.Opening.{Opens};
ghost use Rattle.heap_table.specs.Seats.{IsSeatOf};
ghost use Rattle.mutator_threads.specs.Mutators.{IsOpened, IsWorker};

use crate::worker::Worker;
use beside_collector::Keeper;
use cell_heap::{CellHeap, ColSeat, NoMemory};
use cell_words::Row;
use collector::MarkStack;
use free_cells::{FreeQueue, HintPass};
use heap_rule::Keeping;
use std::alloc::Global;
use std::sync::Wait;

/// How many cells can wait for a look of the collector. A cell that finds no place is found later.
const MARKS: u32 = 65_536;

/// A new heap with its queue of hints, its collector, and a worker for each mutator in the order of
/// their numbers. It can't be dropped as a whole: whoever takes it apart has a heap to close.
pub struct Opened<P: Keeping, T> {
    pub heap: CellHeap<P>,
    pub queue: FreeQueue,
    pub keeper: Keeper<P>,
    pub workers: Vec<Worker<P, T>>,
}

/// Opens a heap of so many cells, of which the first have the given rows, for so many mutators.
/// Each may hold so many cells at a time, and has of its own what the closure makes for its number.
///
/// The queue is opened after the heap, in memory that the heap's opening gave back.
pub fn open<P: Keeping, T: Drop, F: Fn(u32) -> Result<T, NoMemory>, R: Wait>(
    alloc: Global,
    rt: &R,
    cells: u32,
    mutators: u32,
    setting: u64,
    rows: &[Row],
    room: u32,
    own: F,
) -> Result<Opened<P, T>, NoMemory>
    requires some_cells { 0 < cells }
    requires few_cells { cells ≤ greatest_cells }
    requires few_rows { length rows.now ≤ cells }
    requires rows { IsTrue (are_first_rows rows.now) }
    requires rule { Opens P.opening P.holds
        record { cells = cells; mutators = mutators; setting = setting; first = rows.now } }
    requires room { 1 ≤ room }
    requires own { (number : ℕ) → number < mutators → F.pre own number }
    ensures opened { IfOk result (λ made. IsOpened P.opening
        record { cells = cells; mutators = mutators; setting = setting; first = rows.now }
        room (λ number one. F.post own number (Ok one)) made) }
{
    let (heap, mut seat) = ColSeat::<P>::open(alloc, cells, mutators, setting, rows)?;
    let (queue, mut pass) = FreeQueue::open(alloc, rt, cells, rows.len() as u32)?;
    let stack = MarkStack::with_room(alloc, MARKS)?;
    let workers = split_workers(
        alloc, &heap, &queue, mutators, room, &own, &mut seat, &mut pass,
    )?;
    Ok(Opened {
        heap,
        queue,
        keeper: Keeper { seat, stack, pass },
        workers,
    })
}

/// A worker for each mutator, all of which are still to be split off.
fn split_workers<P: Keeping, T: Drop, F: Fn(u32) -> Result<T, NoMemory>>(
    alloc: Global,
    heap: &CellHeap<P>,
    queue: &FreeQueue,
    mutators: u32,
    room: u32,
    own: &F,
    seat: &mut ColSeat<P>,
    pass: &mut HintPass,
) -> Result<Vec<Worker<P, T>>, NoMemory>
    requires mutators { heap.now.shape.mutators ≡ mutators }
    requires room { 1 ≤ room }
    requires own { (number : ℕ) → number < mutators → F.pre own.now number }
    requires seat { IsSeatOf heap.now seat.old }
    requires unsplit { seat.old.me.places ≡ replicate mutators places.Unsplit }
    requires pass { IsHintPass queue.now pass.old }
    ensures workers { IfOk result (λ workers. AllFrom (IsWorker P.opening heap.now queue.now room
        (λ number one. F.post own.now number (Ok one))) 0 workers.items) }
    ensures many { IfOk result (λ workers. length workers.items ≡ mutators) }
    ensures seat { OnOk result (HasSplit mutators mutators seat.old seat.new) }
    ensures pass { OnOk result (IsHintPass queue.now pass.new) }
{
    let mut workers = Vec::with_capacity(alloc, mutators as usize)?;
    for number in 0..mutators {
        let worker = new_worker(alloc, heap, queue, number, room, own, seat, pass)?;
        workers.push_reserved(worker);
    }
    Ok(workers)
}

/// The worker of the mutator with this number.
fn new_worker<P: Keeping, T: Drop, F: Fn(u32) -> Result<T, NoMemory>>(
    alloc: Global,
    heap: &CellHeap<P>,
    queue: &FreeQueue,
    number: u32,
    room: u32,
    own: &F,
    seat: &mut ColSeat<P>,
    pass: &mut HintPass,
) -> Result<Worker<P, T>, NoMemory>
    requires number { number < heap.now.shape.mutators }
    requires room { 1 ≤ room }
    requires own { F.pre own.now number }
    requires seat { IsSeatOf heap.now seat.old }
    requires unsplit { get_elem? seat.old.me.places number ≡ some places.Unsplit }
    requires pass { IsHintPass queue.now pass.old }
    ensures worker { IfOk result (IsWorker P.opening heap.now queue.now room
        (λ number one. F.post own.now number (Ok one)) number) }
    ensures seat { OnOk result
        (seat.new ≡ record seat.old { me = split_view number seat.old.me }) }
    ensures pass { OnOk result (IsHintPass queue.now pass.new) }
{
    let own = own(number)?;
    let own_pass = queue.split(pass)?;
    let own_seat = seat.split(alloc, heap, number, room)?;
    Ok(Worker {
        seat: own_seat,
        pass: own_pass,
        own,
    })
}
