//! What a mutator does in these tests.
ghost use Rattle.std.specs.Prelude.{◌≡◌, ◌<◌, ◌≤◌, ◌+◌};
ghost use Rattle.cell_tests.specs.Working.{IsDone, IsIn, IsOut};

use crate::counter::Added;
use cell_heap::{CellHeap, MutSeat, Value};
use cell_words::Kind;
use std::marker::Brand;

/// The greatest counter that is added to.
const GREATEST: u64 = 1_000_000;

/// Comes in, and holds the anchor.
fn come_in(heap: &CellHeap<Added>, seat: &mut MutSeat<Added>)
    requires out { IsOut heap.now 0 seat.old }
    ensures within { IsIn heap.now 0 seat.new }
    ensures number { seat.new.me.number ≡ seat.old.me.number }
{
    seat.begin(heap);
}

/// Goes out, and never comes again.
fn leave(heap: &CellHeap<Added>, seat: &mut MutSeat<Added>, sum: u64)
    requires within { IsIn heap.now sum seat.old }
    ensures done { IsDone heap.now sum seat.new }
    ensures number { seat.new.me.number ≡ seat.old.me.number }
{
    seat.end(heap);
    seat.over(heap);
}

/// Claims the cell, if it is blue, and makes it a record of one number, which it then drops.
fn make_record(heap: &CellHeap<Added>, seat: &mut MutSeat<Added>, cell: u32, sum: u64)
    requires within { IsIn heap.now sum seat.old }
    requires cell { cell < heap.now.shape.cells }
    ensures within { IsIn heap.now sum seat.new }
    ensures number { seat.new.me.number ≡ seat.old.me.number }
{
    let _ = sum;
    seat.look(heap);
    if seat.claim(heap, cell) {
        seat.fill::<Brand>(heap, 1, 0, Value::Num(7));
        seat.seal(heap, 1, Kind::Record);
        seat.keep(heap, 1, 0, 0);
    }
}

/// Exchanges the counter for the next number, where it is still `count`, and tells how much was
/// added.
fn exchange(heap: &CellHeap<Added>, seat: &mut MutSeat<Added>, count: u64, sum: u64) -> u64
    requires within { IsIn heap.now sum seat.old }
    requires small { count < 1000000 }
    ensures within { IsIn heap.now (sum + result) seat.new }
    ensures number { seat.new.me.number ≡ seat.old.me.number }
    ensures small { result ≤ 1 }
{
    let _ = sum;
    seat.look(heap);
    let old = Value::Num(count);
    let new = Value::Num(count + 1);
    match seat.write::<Brand>(heap, 0, 0, old, new) {
        Ok(()) => 1,
        Err(_) => 0,
    }
}

/// Reads the counter.
fn read_counter(heap: &CellHeap<Added>, seat: &mut MutSeat<Added>, sum: u64) -> Value
    requires within { IsIn heap.now sum seat.old }
    ensures within { IsIn heap.now sum seat.new }
    ensures number { seat.new.me.number ≡ seat.old.me.number }
{
    let _ = sum;
    let found = seat.read::<Brand>(heap, 0, 0);
    if seat.held_len() > 1 {
        seat.keep(heap, 1, 0, 0);
    }
    found
}

/// Adds one to the counter, if nobody else does meanwhile.
fn try_to_add(heap: &CellHeap<Added>, seat: &mut MutSeat<Added>, sum: u64) -> u64
    requires within { IsIn heap.now sum seat.old }
    ensures within { IsIn heap.now (sum + result) seat.new }
    ensures number { seat.new.me.number ≡ seat.old.me.number }
    ensures small { result ≤ 1 }
{
    match read_counter(heap, seat, sum) {
        Value::Num(count) if count < GREATEST => exchange(heap, seat, count, sum),
        Value::Num(_) | Value::Null | Value::Held(_) => 0,
    }
}

/// A mutator's whole life: it comes in, tries to make a record of every cell, tries so many times
/// to add to the counter, and goes. It tells how much it has added.
pub(crate) fn work(
    heap: &CellHeap<Added>,
    seat: MutSeat<Added>,
    tries: u32,
) -> (MutSeat<Added>, u64)
    requires out { IsOut heap.now 0 seat }
    ensures done { IsDone heap.now result.1 result.0 }
    ensures number { result.0.me.number ≡ seat.me.number }
{
    let mut seat = seat;
    let sum = live(heap, &mut seat, tries);
    (seat, sum)
}

fn live(heap: &CellHeap<Added>, seat: &mut MutSeat<Added>, tries: u32) -> u64
    requires out { IsOut heap.now 0 seat.old }
    ensures done { IsDone heap.now result seat.new }
    ensures number { seat.new.me.number ≡ seat.old.me.number }
{
    come_in(heap, seat);
    for cell in 0..heap.cells() {
        make_record(heap, seat, cell, 0);
    }
    let mut sum = 0;
    for _ in 0..tries {
        sum += try_to_add(heap, seat, sum);
    }
    leave(heap, seat, sum);
    sum
}
