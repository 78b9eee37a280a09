//! The close of a heap, when the threads of all its mutators are through.
ghost use Rattle.std.specs.Prelude.{◌≡◌, ◌≤◌, Some, [], length, true, vec_capacity};
ghost use Rattle.beside_collector.specs.Freed.{HasFreed, freed_by};
ghost use Rattle.beside_collector.specs.Serving.{IsKeeper, IsStill, MayServe, Serves};
ghost use Rattle.beside_collector.specs.Serving.{ServesLate};
ghost use Rattle.beside_collector.specs.declared.keeper.Standby.{Standby as Left};
ghost use Rattle.heap_rule.specs.Moves.{joined_view};
ghost use Rattle.heap_table.specs.Seats.{IsSeatOf};
ghost use Rattle.mutator_threads.specs.Closing.{HasClosed, IsClosed, joined_parts};
ghost use Rattle.mutator_threads.specs.Mutators.{AreOver, HasJoined, IsOffDuty, own_of};
ghost use Rattle.mutator_threads.specs.Mutators.{views_of};

use crate::running::OffDuty;
use crate::worker::Worker;
use beside_collector::Standby;
use cell_heap::{CellHeap, ColSeat, Image, Passes};
use collector::Collector;
use free_cells::FreeQueue;
use heap_rule::Keeping;
use std::sync::Wait;

/// A closed heap, what its collector knew, with the parts of all mutators, and how many cells it
/// freed in all.
#[derive(Drop)]
pub struct Closed<P: Keeping> {
    pub image: Image,
    pub passes: Passes<P>,
    /// as its trail has it
    pub freed: u64,
    /// as its own part has it
    pub number_freed: u64,
}

/// Joins the seats of all workers, closes the heap, and gives what the workers have of their own,
/// in a list that has room for it. If the collector got no thread, it serves after the joins, for
/// at most as many cycles as it was on duty for.
pub fn close<P: Keeping, T: Drop, R: Wait>(
    rt: &R,
    heap: CellHeap<P>,
    queue: &FreeQueue,
    cycles: u32,
    off: OffDuty<P>,
    workers: Vec<Worker<P, T>>,
    own: Vec<T>,
) -> (Closed<P>, Vec<T>)
    requires off { IsOffDuty heap queue.now cycles off }
    requires many { length workers.items ≡ heap.shape.mutators }
    requires over { AreOver heap workers.items }
    requires empty { own.items ≡ [] }
    requires room { length workers.items ≤ vec_capacity own }
    ensures closed { IsClosed P.opening P.holds P.fixed heap.shape cycles
        (views_of workers.items) result.0 }
    ensures own { result.1.items ≡ own_of workers.items }
{
    let OffDuty {
        mut seat,
        standby,
        freed,
    } = off;
    let mut own = own;
    join_all(&heap, workers, &mut seat, &mut own);
    let off = OffDuty {
        seat,
        standby,
        freed,
    };
    (close_joined(rt, heap, queue, cycles, off), own)
}

/// Joins the seats of all workers in their order, and puts into the list what they have of their
/// own.
fn join_all<P: Keeping, T: Drop>(
    heap: &CellHeap<P>,
    workers: Vec<Worker<P, T>>,
    seat: &mut ColSeat<P>,
    own: &mut Vec<T>,
)
    requires seat { IsSeatOf heap.now seat.old }
    requires many { length workers.items ≡ length seat.old.me.places }
    requires over { AreOver heap.now workers.items }
    requires empty { own.old.items ≡ [] }
    requires room { length workers.items ≤ vec_capacity own.old }
    ensures still { IsStill seat.old seat.new }
    ensures places { seat.new.me.places ≡ joined_parts (views_of workers.items) }
    ensures own { own.new.items ≡ own_of workers.items }
{
    for worker in workers {
        own.push_reserved(joined(heap, worker, seat));
    }
}

/// Joins the seat of a worker, and gives what it has of its own.
fn joined<P: Keeping, T: Drop>(heap: &CellHeap<P>, worker: Worker<P, T>, seat: &mut ColSeat<P>) -> T
    requires seat { IsSeatOf heap.now seat.old }
    requires worker { IsSeatOf heap.now worker.seat }
    requires over { worker.seat.me.presence.over ≡ true }
    ensures own { result ≡ worker.own }
    ensures seat { seat.new ≡ record seat.old { me = joined_view seat.old.me worker.seat.me } }
{
    let Worker {
        seat: of_worker,
        pass: _pass,
        own,
    } = worker;
    seat.join(heap, of_worker);
    own
}

/// Closes a heap to whose collector the seats of all mutators are joined. If the collector got no
/// thread, it serves before.
pub fn close_joined<P: Keeping, R: Wait>(
    rt: &R,
    heap: CellHeap<P>,
    queue: &FreeQueue,
    cycles: u32,
    off: OffDuty<P>,
) -> Closed<P>
    requires joined { HasJoined heap queue.now cycles off }
    ensures closed { HasClosed P.opening P.holds P.fixed heap.shape cycles off.seat.me.places
        result }
{
    let OffDuty {
        seat,
        standby,
        freed,
    } = off;
    let (seat, freed) = finish_service(rt, &heap, queue, cycles, seat, standby, freed);
    let number_freed = seat.freed();
    let (image, passes) = seat.close(heap);
    Closed {
        image,
        passes,
        freed,
        number_freed,
    }
}

/// Serves, if the collector has not served yet, and tells how many cells it freed in all.
fn finish_service<P: Keeping, R: Wait>(
    rt: &R,
    heap: &CellHeap<P>,
    queue: &FreeQueue,
    cycles: u32,
    seat: ColSeat<P>,
    standby: Option<Standby>,
    freed: u64,
) -> (ColSeat<P>, u64)
    requires may { MayServe heap.now queue.now cycles seat standby }
    requires freed { freed_by seat.me.trail ≡ freed }
    requires none { (left : Left) → standby ≡ Some left → freed_by seat.me.trail ≡ 0 }
    ensures served { ServesLate cycles standby seat result.0 }
    ensures freed { freed_by result.0.me.trail ≡ result.1 }
{
    match standby {
        None => (seat, freed),
        Some(standby) => serve_late(rt, heap, queue, cycles, seat, standby),
    }
}

/// Serves, and tells how many cells it freed.
fn serve_late<P: Keeping, R: Wait>(
    rt: &R,
    heap: &CellHeap<P>,
    queue: &FreeQueue,
    cycles: u32,
    seat: ColSeat<P>,
    standby: Standby,
) -> (ColSeat<P>, u64)
    requires keeper { IsKeeper heap.now queue.now cycles seat standby.pass }
    ensures serves { Serves cycles seat result.0 }
    ensures freed { HasFreed seat result.0 result.1 }
{
    let Standby { stack, pass } = standby;
    let mut hints = queue.hints(pass);
    let mut collector = Collector::new(heap, seat, heap.mutators(), stack);
    let freed = collector.serve_on_demand(rt, &mut hints, cycles);
    (collector.into_seat(), freed)
}
