//! A mutator that stores in the anchor between any two events of a cycle.
ghost use Rattle.std.specs.Prelude.{◌≡◌, ◌<◌, ◌≤◌, ◌^◌, true, false};
ghost use Rattle.cell_tests.specs.Collecting.{Drives, nothing};
ghost use Rattle.cell_tests.specs.Storing.{HoldsAnchor};
ghost use Rattle.heap_rule.specs.Asks.{MayComeIn};
ghost use Rattle.heap_table.specs.Seats.{IsSeatOf};

use crate::collecting::{Flags, step};
use cell_heap::{CellHeap, ColSeat, Moved, MutSeat, Value};
use heap_rule::NoRule;
use mutator_seat::Mutator;
use std::marker::Brand;

/// What a new heap has not.
const NOTHING: Flags = Flags {
    answered: false,
    marked: false,
    polled: false,
};

/// Stores the number in field 0 of the anchor, and tells whether that was made.
fn store_number(heap: &CellHeap<NoRule>, mutator: &mut Mutator<'_, NoRule>, number: u64) -> bool
    requires anchor { HoldsAnchor heap.now mutator.old }
    requires small { number < 2 ^ 62 }
    ensures anchor { HoldsAnchor heap.now mutator.new }
{
    let _ = heap;
    let _many = mutator.held_len();
    let stored = mutator.store::<Brand, Brand>(0, 0, Value::Num(number));
    is_made(stored)
}

fn is_made(stored: Result<(), Moved>) -> bool {
    match stored {
        Ok(()) => true,
        Err(_) => false,
    }
}

/// Reads field 0 of the anchor, and tells whether it is this number.
fn reads_number(heap: &CellHeap<NoRule>, mutator: &mut Mutator<'_, NoRule>, number: u64) -> bool
    requires anchor { HoldsAnchor heap.now mutator.old }
    ensures anchor { HoldsAnchor heap.now mutator.new }
{
    let _ = heap;
    let found = mutator.read::<Brand>(0, 0);
    mutator.cut(1);
    is_number(found, number)
}

fn is_number(found: Value, number: u64) -> bool {
    match found {
        Value::Num(read) => read == number,
        Value::Null | Value::Held(_) => false,
    }
}

/// Answers if it is asked, stores the number and reads it.
fn go_on(heap: &CellHeap<NoRule>, mutator: &mut Mutator<'_, NoRule>, number: u64) -> bool
    requires anchor { HoldsAnchor heap.now mutator.old }
    requires small { number < 2 ^ 62 }
    ensures anchor { HoldsAnchor heap.now mutator.new }
{
    let _ = mutator.answer();
    let made = store_number(heap, mutator, number);
    let read = reads_number(heap, mutator, number);
    made && read
}

/// The collector's first cycle, an event at a time, and after each event a round of the mutator.
/// It gives how many events there were, and after how many a number was stored and read.
fn store_in_cycle(
    heap: &CellHeap<NoRule>,
    collector: &mut ColSeat<NoRule>,
    mutator: &mut Mutator<'_, NoRule>,
) -> (u64, u64)
    requires drives { Drives heap.now nothing collector.old }
    requires anchor { HoldsAnchor heap.now mutator.old }
    ensures seat { IsSeatOf heap.now collector.new }
    ensures anchor { HoldsAnchor heap.now mutator.new }
{
    let mut flags = NOTHING;
    let mut events = 0;
    let mut stored = 0;
    for number in 0..100u64 {
        if collector.control().cycles == 0 {
            flags = step(heap, collector, flags);
            events = number + 1;
            if go_on(heap, mutator, number) {
                stored += 1;
            }
        }
    }
    (events, stored)
}

/// The same of a mutator that comes in and is over then.
pub(crate) fn store_and_leave(
    heap: &CellHeap<NoRule>,
    collector: &mut ColSeat<NoRule>,
    seat: MutSeat<NoRule>,
) -> (MutSeat<NoRule>, (u64, u64))
    requires drives { Drives heap.now nothing collector.old }
    requires seat { IsSeatOf heap.now seat }
    requires may { MayComeIn seat.me }
    requires room { 2 ≤ seat.me.room }
    ensures collector { IsSeatOf heap.now collector.new }
    ensures seat { IsSeatOf heap.now result.0 }
    ensures over { result.0.me.presence.over ≡ true }
{
    let mut mutator = Mutator::new(heap, seat);
    mutator.begin();
    let counts = store_in_cycle(heap, collector, &mut mutator);
    mutator.end();
    (mutator.finish(), counts)
}
