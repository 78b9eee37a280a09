//! The same collector, but that it makes a run of events in one call wherever it may.
ghost use Rattle.std.specs.Prelude.{◌≡◌, None, true};
ghost use Rattle.cell_tests.specs.Collecting.{Drives, nothing};
ghost use Rattle.cell_words.specs.declared.controls.Stage.TheVariants as stages;
ghost use Rattle.core_machine.specs.declared.progress.Sweeping.TheVariants as sweepings;
ghost use Rattle.heap_table.specs.Seats.{IsSeatOf};

use crate::collecting::{Flags, step};
use crate::scanning::begun;
use crate::unlinked::NOTHING;
use cell_heap::{CellHeap, ColSeat};
use cell_words::Stage;
use core_machine::Sweeping;
use heap_rule::NoRule;

/// Clears all cells, or goes on after them.
fn clear(heap: &CellHeap<NoRule>, seat: &mut ColSeat<NoRule>, flags: Flags) -> Flags
    requires drives { Drives heap.now flags seat.old }
    requires stage { seat.old.me.control.stage ≡ stages.Clear }
    ensures drives { Drives heap.now result seat.new }
{
    if seat.cursor() < heap.cells() {
        seat.clear_on(heap);
        return flags;
    }
    step(heap, seat, flags)
}

/// Goes on with the pass, up to a gray cell, or goes on after it.
fn see(heap: &CellHeap<NoRule>, seat: &mut ColSeat<NoRule>, flags: Flags) -> Flags
    requires drives { Drives heap.now flags seat.old }
    requires stage { seat.old.me.control.stage ≡ stages.Trace }
    requires answered { flags.answered ≡ true }
    requires scan { seat.old.me.part.scan ≡ None }
    ensures drives { Drives heap.now result seat.new }
{
    if seat.cursor() < heap.cells() {
        seat.see_on(heap);
        return flags;
    }
    step(heap, seat, flags)
}

/// Scans a cell whose scan begins, or goes on with the pass.
fn scan(heap: &CellHeap<NoRule>, seat: &mut ColSeat<NoRule>, flags: Flags) -> Flags
    requires drives { Drives heap.now flags seat.old }
    requires stage { seat.old.me.control.stage ≡ stages.Trace }
    requires answered { flags.answered ≡ true }
    ensures drives { Drives heap.now result seat.new }
{
    match begun(seat) {
        Some(cell) => {
            seat.scan_cell(heap, cell);
            flags
        }
        None => match seat.scanning() {
            Some(_) => step(heap, seat, flags),
            None => see(heap, seat, flags),
        },
    }
}

fn trace(heap: &CellHeap<NoRule>, seat: &mut ColSeat<NoRule>, flags: Flags) -> Flags
    requires drives { Drives heap.now flags seat.old }
    requires stage { seat.old.me.control.stage ≡ stages.Trace }
    ensures drives { Drives heap.now result seat.new }
{
    if flags.answered {
        scan(heap, seat, flags)
    } else {
        step(heap, seat, flags)
    }
}

/// Sweeps on up to a white cell, or goes on after the last one.
fn sweep_fresh(heap: &CellHeap<NoRule>, seat: &mut ColSeat<NoRule>, flags: Flags) -> Flags
    requires drives { Drives heap.now flags seat.old }
    requires stage { seat.old.me.control.stage ≡ stages.Sweep }
    requires fresh { seat.old.me.part.sweep ≡ sweepings.Fresh }
    ensures drives { Drives heap.now result seat.new }
{
    if seat.control().position < heap.cells() {
        seat.sweep_on(heap);
        return flags;
    }
    step(heap, seat, flags)
}

fn sweep(heap: &CellHeap<NoRule>, seat: &mut ColSeat<NoRule>, flags: Flags) -> Flags
    requires drives { Drives heap.now flags seat.old }
    requires stage { seat.old.me.control.stage ≡ stages.Sweep }
    ensures drives { Drives heap.now result seat.new }
{
    match seat.sweeping() {
        Sweeping::Fresh => sweep_fresh(heap, seat, flags),
        Sweeping::Wiping(_) => step(heap, seat, flags),
        Sweeping::BlackFound => step(heap, seat, flags),
        Sweeping::Done => step(heap, seat, flags),
    }
}

/// One call: a run of events, or one.
fn step_on(heap: &CellHeap<NoRule>, seat: &mut ColSeat<NoRule>, flags: Flags) -> Flags
    requires drives { Drives heap.now flags seat.old }
    ensures drives { Drives heap.now result seat.new }
{
    match seat.control().stage {
        Stage::Clear => clear(heap, seat, flags),
        Stage::Trace => trace(heap, seat, flags),
        Stage::Sweep => sweep(heap, seat, flags),
        Stage::Idle => step(heap, seat, flags),
        Stage::Sync1 => step(heap, seat, flags),
        Stage::Sync2 => step(heap, seat, flags),
    }
}

/// The collector's first cycle, and how many calls it took.
pub(crate) fn cycle_in_runs(heap: &CellHeap<NoRule>, seat: &mut ColSeat<NoRule>) -> u32
    requires drives { Drives heap.now nothing seat.old }
    ensures seat { IsSeatOf heap.now seat.new }
{
    let mut flags = NOTHING;
    let mut calls = 0;
    for number in 0..100 {
        if seat.control().cycles == 0 {
            flags = step_on(heap, seat, flags);
            calls = number + 1;
        }
    }
    calls
}
