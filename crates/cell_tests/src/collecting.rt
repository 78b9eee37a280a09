//! A collector that makes whichever event comes next, by what its seat says and flags of its own.
ghost use Rattle.std.specs.Prelude.{◌≡◌, ◌<◌, false, true};
ghost use Rattle.cell_tests.specs.Collecting.{Drives};
ghost use Rattle.cell_words.specs.declared.controls.Stage.TheVariants as stages;
ghost use Rattle.core_machine.specs.Words.{is_handshake, same_status};

use cell_heap::{CellHeap, ColSeat};
use cell_words::modes::requested;
use cell_words::{GREATEST_CYCLES, Stage, Status};
use core_machine::Sweeping;
use heap_rule::NoRule;

/// What the seat does not show of the collector's part: whether the one mutator has answered, and
/// whether the anchor is marked; and whether a look has found that the mutator has not answered.
#[derive(Clone, Copy)]
pub(crate) struct Flags {
    pub(crate) answered: bool,
    pub(crate) marked: bool,
    pub(crate) polled: bool,
}

/// Whether both are the same status.
fn same_status(one: Status, other: Status) -> bool
    ensures same { result ≡ same_status one other }
{
    match (one, other) {
        (Status::Async, Status::Async) => true,
        (Status::Sync1, Status::Sync1) => true,
        (Status::Sync2, Status::Sync2) => true,
        (Status::Async, Status::Sync1 | Status::Sync2) => false,
        (Status::Sync1, Status::Async | Status::Sync2) => false,
        (Status::Sync2, Status::Async | Status::Sync1) => false,
    }
}

/// Looks whether the mutator has answered.
fn poll(heap: &CellHeap<NoRule>, seat: &mut ColSeat<NoRule>, flags: Flags) -> Flags
    requires drives { Drives heap.now flags seat.old }
    requires asks { is_handshake seat.old.me.control.stage ≡ true }
    requires waits { flags.answered ≡ false }
    ensures drives { Drives heap.now result seat.new }
{
    let wanted = requested(seat.control().stage);
    let found = seat.poll(heap, 0);
    let answered = same_status(found.status, wanted);
    Flags {
        answered,
        polled: !answered,
        ..flags
    }
}

/// Looks whether the mutator has answered, and then answers for it, if it is out.
fn answer(heap: &CellHeap<NoRule>, seat: &mut ColSeat<NoRule>, flags: Flags) -> Flags
    requires drives { Drives heap.now flags seat.old }
    ensures drives { Drives heap.now result seat.new }
{
    let handshake = matches!(
        seat.control().stage,
        Stage::Sync1 | Stage::Sync2 | Stage::Trace
    );
    if handshake && !flags.answered && !flags.polled {
        poll(heap, seat, flags)
    } else if handshake && !flags.answered {
        let answered = seat.answer_out(heap, 0, false);
        Flags {
            answered,
            polled: false,
            ..flags
        }
    } else {
        flags
    }
}

/// Clears the next cell, or goes on to the second handshake.
fn clear(heap: &CellHeap<NoRule>, seat: &mut ColSeat<NoRule>, flags: Flags) -> Flags
    requires drives { Drives heap.now flags seat.old }
    requires stage { seat.old.me.control.stage ≡ stages.Clear }
    ensures drives { Drives heap.now result seat.new }
{
    if seat.cursor() < heap.cells() {
        seat.clear(heap);
        flags
    } else if seat.cursor() == heap.cells() {
        seat.post(heap, Stage::Sync2);
        Flags {
            answered: false,
            marked: false,
            ..flags
        }
    } else {
        flags
    }
}

/// Goes on with the scan of a gray cell, or looks at the next cell.
fn trace(heap: &CellHeap<NoRule>, seat: &mut ColSeat<NoRule>, flags: Flags)
    requires drives { Drives heap.now flags seat.old }
    requires stage { seat.old.me.control.stage ≡ stages.Trace }
    requires answered { flags.answered ≡ true }
    ensures drives { Drives heap.now flags seat.new }
{
    let _ = flags;
    match seat.scanning() {
        Some(scan) => {
            if scan.child.is_some() {
                seat.shade(heap);
            } else if scan.next < 5 {
                seat.scan(heap);
            } else if scan.next == 5 {
                seat.blacken(heap);
            }
        }
        None => {
            let cursor = seat.cursor();
            if cursor < heap.cells() {
                seat.see(heap, cursor);
            } else if cursor == heap.cells() && seat.is_clean() {
                seat.post(heap, Stage::Sweep);
            } else if heap.cells() > 0 {
                seat.see(heap, 0);
            }
        }
    }
}

/// Goes on with the sweep of the cell at the position, or ends the cycle.
fn sweep(heap: &CellHeap<NoRule>, seat: &mut ColSeat<NoRule>, flags: Flags)
    requires drives { Drives heap.now flags seat.old }
    requires stage { seat.old.me.control.stage ≡ stages.Sweep }
    ensures drives { Drives heap.now flags seat.new }
{
    let _ = flags;
    let position = seat.control().position;
    if position == heap.cells() {
        seat.post(heap, Stage::Idle);
    } else if position < heap.cells() {
        match seat.sweeping() {
            Sweeping::Fresh => {
                seat.sweep_look(heap);
            }
            Sweeping::Wiping(fields) => {
                if fields < 6 {
                    seat.wipe(heap);
                } else if fields == 6 {
                    seat.free(heap);
                }
            }
            Sweeping::BlackFound => seat.whiten(heap),
            Sweeping::Done => seat.advance(heap),
        }
    }
}

/// One event of the collector, or none where the mutator has to answer first.
pub(crate) fn step(heap: &CellHeap<NoRule>, seat: &mut ColSeat<NoRule>, flags: Flags) -> Flags
    requires drives { Drives heap.now flags seat.old }
    ensures drives { Drives heap.now result seat.new }
{
    let control = seat.control();
    match control.stage {
        Stage::Idle => {
            if control.cycles < GREATEST_CYCLES {
                seat.post(heap, Stage::Sync1);
                Flags {
                    answered: false,
                    ..flags
                }
            } else {
                flags
            }
        }
        Stage::Sync1 => {
            if flags.answered {
                seat.post(heap, Stage::Clear);
                flags
            } else {
                answer(heap, seat, flags)
            }
        }
        Stage::Clear => clear(heap, seat, flags),
        Stage::Sync2 => {
            if !flags.answered {
                answer(heap, seat, flags)
            } else if !flags.marked {
                seat.anchor(heap);
                Flags {
                    marked: true,
                    ..flags
                }
            } else {
                seat.post(heap, Stage::Trace);
                Flags {
                    answered: false,
                    ..flags
                }
            }
        }
        Stage::Trace => {
            if flags.answered {
                trace(heap, seat, flags);
                flags
            } else {
                answer(heap, seat, flags)
            }
        }
        Stage::Sweep => {
            sweep(heap, seat, flags);
            flags
        }
    }
}
