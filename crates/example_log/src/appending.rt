//! What a thread does: it reads which entry is the newest, makes a box for the next one, and
//! exchanges the entry that the anchor names.
ghost use Rattle.std.specs.Prelude.{◌≡◌, ◌<◌, ◌≤◌};
ghost use Rattle.std.specs.Bool.{OnFalse, OnTrue};
ghost use Rattle.cell_making.specs.Resting.{Loose, Rests};
ghost use Rattle.mutator_threads.specs.Mutators.{IsNew};
ghost use Rattle.example_log.specs.Appending.{Appends, HoldsEntry, HoldsNext, HoldsSome, IsDone};

use crate::log::Appended;
use cell_making::fill_box;
use free_cells::Hints;
use heap_table::CellHeap;
use mutator_seat::{MutSeat, Mutator, Value};
use std::marker::Brand;
use std::sync::Wait;

/// No log is longer than this.
const GREATEST: u64 = 1_000_000;

/// The mutator of the seat, in.
fn come_in<'a>(heap: &'a CellHeap<Appended>, seat: MutSeat<Appended>) -> Mutator<'a, Appended>
    requires new { IsNew heap.now seat.me.number 8 (record { count = 0 }) seat }
    ensures rests { Rests 8 result }
    ensures heap { result.heap ≡ heap.now }
    ensures number { result.seat.me.number ≡ seat.me.number }
    ensures pass { result.seat.me.pass ≡ seat.me.pass }
{
    let mut m = Mutator::new(heap, seat);
    m.begin();
    m
}

/// The mutator goes out and is over.
fn leave(m: Mutator<'_, Appended>) -> MutSeat<Appended>
    requires rests { Rests 8 m }
    requires few { m.seat.me.pass.count ≤ 4294967295 }
    ensures done { IsDone m.entry.heap m.entry.seat.me.number m.entry.seat.me.pass.count result }
{
    let mut m = m;
    m.end();
    m.finish()
}

/// Reads which entry is the newest. It is held after the anchor.
fn read_newest(m: &mut Mutator<'_, Appended>)
    requires rests { Rests 8 m.old }
    ensures found { HoldsSome m.new }
    ensures same { Appends 0 m.old m.new }
{
    let _ = m.read::<Brand>(0, 0);
}

/// Reads the number of the entry that is held.
fn read_number(m: &mut Mutator<'_, Appended>) -> u64
    requires some { HoldsSome m.old }
    ensures found { HoldsEntry result m.new }
    ensures same { Appends 0 m.old m.new }
{
    match m.read::<Brand>(1, 0) {
        Value::Num(number) => number,
        Value::Null | Value::Held(_) => unreachable!(),
    }
}

/// Holds only the anchor.
fn let_go(m: &mut Mutator<'_, Appended>)
    requires loose { Loose 8 m.old }
    ensures rests { Rests 8 m.new }
    ensures same { Appends 0 m.old m.new }
{
    m.cut(1);
}

/// Makes a box for the entry after the one that is held. It fails where the heap is full.
fn make_entry<R: Wait>(
    rt: &R,
    hints: &mut Hints<'_>,
    m: &mut Mutator<'_, Appended>,
    number: u64,
    writer: u64,
    count: u64,
) -> bool
    requires holds { HoldsEntry number m.old }
    requires small { number < 1000000 }
    requires writer { writer ≡ m.old.seat.me.number }
    requires small_writer { writer ≤ 4294967295 }
    requires count { count ≡ m.old.seat.me.pass.count }
    requires few { count ≤ 4294967295 }
    ensures made { OnTrue result (HoldsNext number m.new) }
    ensures none { OnFalse result (Loose 8 m.new) }
    ensures same { Appends 0 m.old m.new }
{
    let entry = [
        Value::Num(number + 1),
        Value::Held(1),
        Value::Num(writer),
        Value::Num(count),
        Value::Null,
    ];
    match fill_box(rt, hints, m, entry) {
        Ok(_) => true,
        Err(_) => false,
    }
}

/// Exchanges the entry that the anchor names for the next one, and tells how many were appended.
fn exchange(m: &mut Mutator<'_, Appended>, number: u64) -> u64
    requires holds { HoldsNext number m.old }
    ensures loose { Loose 8 m.new }
    ensures appended { Appends result m.old m.new }
    ensures small { result ≤ 1 }
{
    let _ = number;
    match m.update::<Brand>(0, 0, Value::Held(1), Value::Held(2)) {
        Ok(()) => 1,
        Err(_) => 0,
    }
}

/// Tries once to append an entry after the newest one.
fn append_behind<R: Wait>(
    rt: &R,
    hints: &mut Hints<'_>,
    m: &mut Mutator<'_, Appended>,
    writer: u64,
    count: u64,
) -> u64
    requires rests { Rests 8 m.old }
    requires writer { writer ≡ m.old.seat.me.number }
    requires small_writer { writer ≤ 4294967295 }
    requires count { count ≡ m.old.seat.me.pass.count }
    requires few { count ≤ 4294967295 }
    ensures loose { Loose 8 m.new }
    ensures appended { Appends result m.old m.new }
    ensures small { result ≤ 1 }
{
    read_newest(m);
    let number = read_number(m);
    if number < GREATEST && make_entry(rt, hints, m, number, writer, count) {
        exchange(m, number)
    } else {
        0
    }
}

/// Comes to a safe point, and then tries once to append an entry.
fn try_to_append<R: Wait>(
    rt: &R,
    hints: &mut Hints<'_>,
    m: &mut Mutator<'_, Appended>,
    writer: u64,
    count: u64,
) -> u64
    requires rests { Rests 8 m.old }
    requires writer { writer ≡ m.old.seat.me.number }
    requires small_writer { writer ≤ 4294967295 }
    requires count { count ≡ m.old.seat.me.pass.count }
    requires few { count ≤ 4294967295 }
    ensures rests { Rests 8 m.new }
    ensures appended { Appends result m.old m.new }
    ensures small { result ≤ 1 }
{
    let _ = m.answer();
    let appended = append_behind(rt, hints, m, writer, count);
    let_go(m);
    appended
}

/// A thread's whole life: it comes in, tries so many times to append an entry, and leaves. It tells
/// how many it has appended.
pub(crate) fn work<R: Wait>(
    rt: &R,
    heap: &CellHeap<Appended>,
    hints: &mut Hints<'_>,
    seat: MutSeat<Appended>,
    writer: u32,
    tries: u32,
) -> (MutSeat<Appended>, u64)
    requires new { IsNew heap.now writer 8 (record { count = 0 }) seat }
    ensures done { IsDone heap.now writer result.1 result.0 }
{
    let mut m = come_in(heap, seat);
    let mut count = 0;
    for _tried in 0..tries {
        count += try_to_append(rt, hints, &mut m, writer as u64, count);
    }
    (leave(m), count)
}
