//! What a thread does: it reads which node is the newest, makes one that names it, and exchanges
//! what the anchor names.
ghost use Rattle.std.specs.Prelude.{◌≡◌, ◌<◌, ◌≤◌, IfSome, length};
ghost use Rattle.std.specs.Bool.{OnTrue};
ghost use Rattle.cell_making.specs.Resting.{HasPass, Loose, Rests};
ghost use Rattle.mutator_threads.specs.Mutators.{IsNew, IsOver};
ghost use Rattle.example_list.specs.Pushing.{HoldsBoth, HoldsFound, HoldsNewest, HoldsNode};

use beside_collector::{come_in, leave};
use cell_making::{fill_box, fill_record};
use free_cells::Hints;
use heap_rule::NoRule;
use heap_table::CellHeap;
use mutator_seat::{MutSeat, Mutator, Value};
use std::marker::Brand;
use std::sync::Wait;

/// The mutator of the seat, in.
fn enter<'a>(heap: &'a CellHeap<NoRule>, seat: MutSeat<NoRule>) -> Mutator<'a, NoRule>
    requires new { IsNew heap.now seat.me.number 8 (record {}) seat }
    ensures rests { Rests 8 result }
    ensures heap { result.heap ≡ heap.now }
    ensures number { result.seat.me.number ≡ seat.me.number }
{
    let m = come_in(heap, seat);
    // A mutator that is in holds the anchor at place 0.
    let _held = m.held_len();
    m
}

/// The mutator goes out and is over.
fn go(m: Mutator<'_, NoRule>) -> MutSeat<NoRule>
    requires rests { Rests 8 m }
    ensures over { IsOver m.entry.heap m.entry.seat.me.number result }
{
    leave(m)
}

/// Reads what the anchor names. Without a rule that may be anything.
fn read_newest(m: &mut Mutator<'_, NoRule>) -> Value
    requires rests { Rests 8 m.old }
    ensures found { HoldsFound result m.new }
    ensures same { HasPass m.old.seat.me.pass m.old m.new }
{
    m.read::<Brand>(0, 0)
}

/// Whether a new node may name that: it is null where the list is empty, or a cell that is not the
/// anchor.
fn is_newest(m: &mut Mutator<'_, NoRule>, found: Value) -> bool
    requires found { HoldsFound found m.old }
    ensures newest { OnTrue result (HoldsNewest found m.new) }
    ensures loose { Loose 8 m.new }
    ensures same { HasPass m.old.seat.me.pass m.old m.new }
{
    match found {
        Value::Null => true,
        Value::Num(_) => false,
        Value::Held(place) => !m.is_same(0, place),
    }
}

/// Makes a record of the thread's number and count, and a node that names it and the newest one. It
/// fails where the heap is full.
fn make_node<R: Wait>(
    rt: &R,
    hints: &mut Hints<'_>,
    m: &mut Mutator<'_, NoRule>,
    newest: Value,
    number: u32,
    count: u64,
) -> Option<usize>
    requires newest { HoldsNewest newest m.old }
    requires few { count ≤ 4294967295 }
    ensures made { IfSome result (λ node. HoldsNode newest node m.new) }
    ensures loose { Loose 8 m.new }
    ensures same { HasPass m.old.seat.me.pass m.old m.new }
{
    let null = Value::Null;
    let fields = [
        Value::Num(number as u64),
        Value::Num(count),
        null,
        null,
        null,
    ];
    match fill_record(rt, hints, m, fields) {
        Ok(made) => name_record(rt, hints, m, newest, made),
        Err(_) => None,
    }
}

/// Makes the node that names the record and the newest one.
fn name_record<R: Wait>(
    rt: &R,
    hints: &mut Hints<'_>,
    m: &mut Mutator<'_, NoRule>,
    newest: Value,
    made: usize,
) -> Option<usize>
    requires both { HoldsBoth newest made m.old }
    ensures made { IfSome result (λ node. HoldsNode newest node m.new) }
    ensures loose { Loose 8 m.new }
    ensures same { HasPass m.old.seat.me.pass m.old m.new }
{
    let null = Value::Null;
    let fields = [Value::Held(made), newest, null, null, null];
    match fill_box(rt, hints, m, fields) {
        Ok(node) => Some(node),
        Err(_) => None,
    }
}

/// Exchanges the newest node for this one, and tells how many were pushed: none where the anchor
/// names another by now.
fn exchange(m: &mut Mutator<'_, NoRule>, newest: Value, node: usize) -> u64
    requires node { HoldsNode newest node m.old }
    ensures loose { Loose 8 m.new }
    ensures same { HasPass m.old.seat.me.pass m.old m.new }
    ensures few { result ≤ 1 }
{
    match m.update::<Brand>(0, 0, newest, Value::Held(node)) {
        Ok(()) => 1,
        Err(_) => 0,
    }
}

/// Makes a node that names the newest one, and exchanges the two, if it can.
fn push_onto<R: Wait>(
    rt: &R,
    hints: &mut Hints<'_>,
    m: &mut Mutator<'_, NoRule>,
    newest: Value,
    number: u32,
    count: u64,
) -> u64
    requires newest { HoldsNewest newest m.old }
    requires few { count ≤ 4294967295 }
    ensures loose { Loose 8 m.new }
    ensures same { HasPass m.old.seat.me.pass m.old m.new }
    ensures few { result ≤ 1 }
{
    match make_node(rt, hints, m, newest, number, count) {
        Some(node) => exchange(m, newest, node),
        None => 0,
    }
}

/// Tries once to push a node.
fn push<R: Wait>(
    rt: &R,
    hints: &mut Hints<'_>,
    m: &mut Mutator<'_, NoRule>,
    number: u32,
    count: u64,
) -> u64
    requires rests { Rests 8 m.old }
    requires few { count ≤ 4294967295 }
    ensures loose { Loose 8 m.new }
    ensures same { HasPass m.old.seat.me.pass m.old m.new }
    ensures few { result ≤ 1 }
{
    let newest = read_newest(m);
    if is_newest(m, newest) {
        push_onto(rt, hints, m, newest, number, count)
    } else {
        0
    }
}

/// Comes to a safe point, tries once to push a node, and then holds only the anchor.
fn try_to_push<R: Wait>(
    rt: &R,
    hints: &mut Hints<'_>,
    m: &mut Mutator<'_, NoRule>,
    number: u32,
    count: u64,
) -> u64
    requires rests { Rests 8 m.old }
    requires few { count ≤ 4294967295 }
    ensures rests { Rests 8 m.new }
    ensures same { HasPass m.old.seat.me.pass m.old m.new }
    ensures few { result ≤ 1 }
{
    let _ = m.answer();
    let pushed = push(rt, hints, m, number, count);
    m.cut(1);
    pushed
}

/// A thread's whole life: it comes in, tries so many times to push a node, and leaves. It tells how
/// many it has pushed.
pub(crate) fn work<R: Wait>(
    rt: &R,
    heap: &CellHeap<NoRule>,
    hints: &mut Hints<'_>,
    seat: MutSeat<NoRule>,
    number: u32,
    tries: u32,
) -> (MutSeat<NoRule>, u64)
    requires new { IsNew heap.now number 8 (record {}) seat }
    ensures over { IsOver heap.now number result.0 }
{
    let mut m = enter(heap, seat);
    let mut count = 0;
    for _tried in 0..tries {
        count += try_to_push(rt, hints, &mut m, number, count);
    }
    (go(m), count)
}
