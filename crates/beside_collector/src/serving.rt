//! The collector's turn.
//!
//! Where no thread can be made for it, the thread's closure comes back, and a closure can't be
//! taken apart. So the closure looks at a flag first: if the flag is set, it returns everything as
//! it was. The seat then goes off duty, so that no claim waits for it. It serves when the clients
//! are through and their seats are joined.
ghost use Rattle.std.specs.Prelude.{◌≡◌};
ghost use Rattle.beside_collector.specs.Freed.{HasFreed, Settled};
ghost use Rattle.beside_collector.specs.Serving.{IsKeeper, MayServe, Serves, ServesLate, Stands};
ghost use Rattle.beside_collector.specs.Serving.{StandsBy, TurnOf};

use crate::keeper::{Keeper, Standby};
use cell_heap::ColSeat;
use collector::Collector;
use free_cells::FreeQueue;
use heap_rule::Keeping;
use heap_table::CellHeap;
use std::snapshot::Snapshot;
use std::sync::Wait;
use std::sync::atomic::{AtomicBool, Ordering};
use std::thread::Promise;

/// What became of the collector's turn.
#[derive(Drop)]
pub(crate) enum Turn<P: Keeping> {
    /// it served, and freed so many cells
    Served(ColSeat<P>, u64),
    /// it was held back, and may have gone off duty since
    HandedBack(Keeper<P>),
}

/// The promise of the collector's thread: after its turn it gives back the seat that it got.
#[derive(Drop)]
pub(crate) struct Serving<P: Keeping> {
    pub(crate) cycles: u32,
    pub(crate) keeper: Snapshot<Keeper<P>>,
}

impl<P: Keeping> Promise<Turn<P>> for Serving<P> {
    ghost use Rattle.beside_collector.specs.Serving.{TurnOf};

    ghost kept_by = { λ p turn. TurnOf p.cycles p.keeper.value turn };
}

/// Serves for at most so many cycles, each when one is wanted, and tells how many cells it freed.
fn serve<P: Keeping, R: Wait>(
    rt: &R,
    heap: &CellHeap<P>,
    queue: &FreeQueue,
    cycles: u32,
    keeper: Keeper<P>,
) -> (ColSeat<P>, u64)
    requires keeper { IsKeeper heap.now queue.now cycles keeper.seat keeper.pass }
    ensures serves { Serves cycles keeper.seat result.0 }
    ensures freed { HasFreed keeper.seat result.0 result.1 }
{
    let Keeper { seat, stack, pass } = keeper;
    let mut hints = queue.hints(pass);
    let mut collector = Collector::new(heap, seat, heap.mutators(), stack);
    let freed = collector.serve_on_demand(rt, &mut hints, cycles);
    (collector.into_seat(), freed)
}

/// Serves, unless the collector is held back.
pub(crate) fn take_turn<P: Keeping, R: Wait>(
    rt: &R,
    heap: &CellHeap<P>,
    queue: &FreeQueue,
    held_back: &AtomicBool,
    cycles: u32,
    keeper: Keeper<P>,
) -> Turn<P>
    requires keeper { IsKeeper heap.now queue.now cycles keeper.seat keeper.pass }
    ensures turn { TurnOf cycles keeper result }
{
    if held_back.load(Ordering::SeqCst) {
        return Turn::HandedBack(keeper);
    }
    let (seat, freed) = serve(rt, heap, queue, cycles, keeper);
    Turn::Served(seat, freed)
}

/// Goes off duty, if it was held back. No contract says which thread was. So this is called after
/// each turn, and a seat that did not serve is off duty then.
pub(crate) fn stand_down<P: Keeping>(
    heap: &CellHeap<P>,
    queue: &FreeQueue,
    cycles: u32,
    was: &Snapshot<Keeper<P>>,
    turn: Turn<P>,
) -> Turn<P>
    requires keeper { IsKeeper heap.now queue.now cycles was.now.value.seat was.now.value.pass }
    requires turn { TurnOf cycles was.now.value turn }
    ensures stands { StandsBy heap.now queue.now cycles was.now.value.seat result }
{
    let _ = queue;
    let _ = cycles;
    let _ = was;
    match turn {
        Turn::Served(seat, freed) => Turn::Served(seat, freed),
        Turn::HandedBack(keeper) => {
            let Keeper {
                mut seat,
                stack,
                pass,
            } = keeper;
            seat.duty(heap, false);
            Turn::HandedBack(Keeper { seat, stack, pass })
        }
    }
}

/// The seat after the work, what is returned with it where it has not served yet, and how many
/// cells it freed.
pub(crate) fn apart<P: Keeping>(
    heap: &CellHeap<P>,
    queue: &FreeQueue,
    cycles: u32,
    was: &Snapshot<Keeper<P>>,
    turn: Turn<P>,
) -> (ColSeat<P>, Option<Standby>, u64)
    requires stands { StandsBy heap.now queue.now cycles was.now.value.seat turn }
    ensures stands { Stands heap.now queue.now cycles was.now.value.seat result.0 result.1 }
    ensures settled { Settled was.now.value.seat result.0 result.2 }
{
    let _ = heap;
    let _ = queue;
    let _ = cycles;
    let _ = was;
    match turn {
        Turn::Served(seat, freed) => (seat, None, freed),
        Turn::HandedBack(keeper) => {
            let Keeper { seat, stack, pass } = keeper;
            (seat, Some(Standby { stack, pass }), 0)
        }
    }
}

/// Serves, if it has not served yet. It is called when the seats of all mutators are joined, so
/// that each is found over.
pub fn serve_after<P: Keeping, R: Wait>(
    rt: &R,
    heap: &CellHeap<P>,
    queue: &FreeQueue,
    cycles: u32,
    seat: ColSeat<P>,
    standby: Option<Standby>,
) -> ColSeat<P>
    requires may { MayServe heap.now queue.now cycles seat standby }
    ensures served { ServesLate cycles standby seat result }
{
    match standby {
        None => seat,
        Some(standby) => {
            let Standby { stack, pass } = standby;
            serve(rt, heap, queue, cycles, Keeper { seat, stack, pass }).0
        }
    }
}
