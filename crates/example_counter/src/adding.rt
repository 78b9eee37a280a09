//! What a thread does: it reads the counter, makes a record of the next number in its private heap,
//! promotes it, and exchanges the one that the anchor names.
ghost use Rattle.std.specs.Prelude.{◌≡◌, ◌<◌, ◌≤◌, ◌+◌, IfNone, IfSome, true};
ghost use Rattle.std.specs.Bool.{OnFalse, OnTrue};
ghost use Rattle.mutator_threads.specs.Mutators.{IsNew};
ghost use Rattle.example_counter.specs.Adding.{Adds, HoldsCount, HoldsNext, HoldsSome};
ghost use Rattle.example_counter.specs.Adding.{IfHeld, IfNumber, IsDone, Loose, Rests};

use crate::counter::Added;
use free_cells::Hints;
use heap_table::CellHeap;
use minor_heap::MinorField::{Null, Num};
use minor_heap::MinorHeap;
use mutator_seat::{MutSeat, Mutator, Value};
use promotion::Promoter;
use std::marker::Brand;
use std::sync::Wait;

/// The greatest number that is added to.
const GREATEST: u64 = 1_000_000;

/// The private heap of a thread, and what promotion needs.
#[derive(Drop)]
pub struct Nursery {
    pub minor: MinorHeap,
    pub promoter: Promoter,
}

/// The mutator of the seat, in.
fn come_in<'a>(heap: &'a CellHeap<Added>, seat: MutSeat<Added>) -> Mutator<'a, Added>
    requires new { IsNew heap.now seat.me.number 8 (record { sum = 0 }) seat }
    ensures rests { Rests result }
    ensures heap { result.heap ≡ heap.now }
    ensures number { result.seat.me.number ≡ seat.me.number }
    ensures pass { result.seat.me.pass ≡ seat.me.pass }
{
    let mut m = Mutator::new(heap, seat);
    m.begin();
    m
}

/// The mutator goes out and is over.
fn leave(m: Mutator<'_, Added>) -> MutSeat<Added>
    requires rests { Rests m }
    requires few { m.seat.me.pass.sum ≤ 4294967295 }
    ensures done { IsDone m.entry.heap m.entry.seat.me.number m.entry.seat.me.pass.sum result }
{
    let mut m = m;
    m.end();
    m.finish()
}

/// Reads which record the anchor names.
fn read_anchor(m: &mut Mutator<'_, Added>) -> Value
    requires rests { Rests m.old }
    ensures found { IfHeld result (HoldsSome m.new) (Rests m.new) }
    ensures same { Adds 0 m.old m.new }
{
    m.read::<Brand>(0, 0)
}

/// Reads the number of that record.
fn read_record(m: &mut Mutator<'_, Added>) -> Value
    requires some { HoldsSome m.old }
    ensures found { IfNumber result (λ count. HoldsCount count m.new) (Loose m.new) }
    ensures same { Adds 0 m.old m.new }
{
    m.read::<Brand>(1, 0)
}

/// Holds only the anchor.
fn let_go(m: &mut Mutator<'_, Added>)
    requires loose { Loose m.old }
    ensures rests { Rests m.new }
    ensures same { Adds 0 m.old m.new }
{
    m.cut(1);
}

/// Reads the counter. The record that has it is held.
fn read_count(m: &mut Mutator<'_, Added>) -> Option<u64>
    requires rests { Rests m.old }
    ensures some { IfSome result (λ count. HoldsCount count m.new) }
    ensures none { IfNone result (Rests m.new) }
    ensures same { Adds 0 m.old m.new }
{
    match read_anchor(m) {
        Value::Held(_) => match read_record(m) {
            Value::Num(count) => Some(count),
            Value::Null | Value::Held(_) => {
                let_go(m);
                None
            }
        },
        Value::Null | Value::Num(_) => None,
    }
}

/// Makes a record of the next number, and promotes it. It fails where the heap is full.
fn promote_next<R: Wait>(
    rt: &R,
    hints: &mut Hints<'_>,
    m: &mut Mutator<'_, Added>,
    nursery: &mut Nursery,
    count: u64,
) -> bool
    requires holds { HoldsCount count m.old }
    requires small { count < 1000000 }
    requires minor { nursery.old.minor.room ≡ 1 }
    requires promoter { nursery.old.promoter ≡ 1 }
    ensures made { OnTrue result (HoldsNext count m.new) }
    ensures none { OnFalse result (HoldsCount count m.new) }
    ensures same { Adds 0 m.old m.new }
    ensures minor { nursery.new.minor.room ≡ 1 }
    ensures promoter { nursery.new.promoter ≡ 1 }
{
    nursery.minor.clear();
    match nursery.minor.make([Num(count + 1), Null, Null, Null, Null]) {
        Ok(r) => match nursery.promoter.promote(rt, hints, m, &nursery.minor, r) {
            Ok(_) => true,
            Err(_) => false,
        },
        Err(_) => false,
    }
}

/// Exchanges the record that the anchor names for the next one, and tells how much was added.
fn exchange(m: &mut Mutator<'_, Added>, count: u64) -> u64
    requires holds { HoldsNext count m.old }
    ensures loose { Loose m.new }
    ensures added { Adds result m.old m.new }
    ensures small { result ≤ 1 }
{
    let _ = count;
    match m.update::<Brand>(0, 0, Value::Held(1), Value::Held(2)) {
        Ok(()) => 1,
        Err(_) => 0,
    }
}

/// Adds one to the counter that was read, if nobody else adds meanwhile.
fn add_to<R: Wait>(
    rt: &R,
    hints: &mut Hints<'_>,
    m: &mut Mutator<'_, Added>,
    nursery: &mut Nursery,
    count: u64,
) -> u64
    requires holds { HoldsCount count m.old }
    requires small { count < 1000000 }
    requires minor { nursery.old.minor.room ≡ 1 }
    requires promoter { nursery.old.promoter ≡ 1 }
    ensures loose { Loose m.new }
    ensures added { Adds result m.old m.new }
    ensures small { result ≤ 1 }
    ensures minor { nursery.new.minor.room ≡ 1 }
    ensures promoter { nursery.new.promoter ≡ 1 }
{
    if promote_next(rt, hints, m, nursery, count) {
        exchange(m, count)
    } else {
        0
    }
}

/// Comes to a safe point, and then tries once to add one to the counter.
fn try_to_add<R: Wait>(
    rt: &R,
    hints: &mut Hints<'_>,
    m: &mut Mutator<'_, Added>,
    nursery: &mut Nursery,
) -> u64
    requires rests { Rests m.old }
    requires minor { nursery.old.minor.room ≡ 1 }
    requires promoter { nursery.old.promoter ≡ 1 }
    ensures rests { Rests m.new }
    ensures added { Adds result m.old m.new }
    ensures small { result ≤ 1 }
    ensures minor { nursery.new.minor.room ≡ 1 }
    ensures promoter { nursery.new.promoter ≡ 1 }
{
    let _ = m.answer();
    let mut added = 0;
    if let Some(count) = read_count(m) {
        if count < GREATEST {
            added = add_to(rt, hints, m, nursery, count);
        }
        let_go(m);
    }
    added
}

/// A thread's whole life: it comes in, tries so many times to add to the counter, and leaves. It
/// tells how much it has added.
pub(crate) fn work<R: Wait>(
    rt: &R,
    heap: &CellHeap<Added>,
    hints: &mut Hints<'_>,
    seat: MutSeat<Added>,
    nursery: &mut Nursery,
    tries: u32,
) -> (MutSeat<Added>, u64)
    requires new { IsNew heap.now seat.me.number 8 (record { sum = 0 }) seat }
    requires minor { nursery.old.minor.room ≡ 1 }
    requires promoter { nursery.old.promoter ≡ 1 }
    ensures done { IsDone heap.now seat.me.number result.1 result.0 }
{
    let mut m = come_in(heap, seat);
    let mut sum = 0;
    for _tried in 0..tries {
        sum += try_to_add(rt, hints, &mut m, nursery);
    }
    (leave(m), sum)
}
