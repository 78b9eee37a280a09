//! A field of the anchor that a mutator fetches and stores by its bare seat.
ghost use Rattle.std.specs.Prelude.{◌≡◌, ◌≤◌, Some, true};
ghost use Rattle.cell_tests.specs.Fetching.{HasLooked, IsFree};
ghost use Rattle.cell_words.specs.Modes.{barrier_of};
ghost use Rattle.cell_words.specs.declared.write_barrier.Barrier.TheVariants as barriers;
ghost use Rattle.core_machine.specs.Words.{lets_store};
ghost use Rattle.heap_rule.specs.Asks.{MayComeIn};
ghost use Rattle.heap_table.specs.Seats.{IsSeatOf};

use cell_heap::{CellHeap, MutSeat, Value};
use cell_words::{Control, Stage, Status};
use heap_rule::NoRule;
use std::marker::Brand;

/// Whether a store may be begun that marks nothing.
fn is_free(own: Status, control: Control) -> bool
    ensures nothing { result ≡ true → barrier_of own control ≡ barriers.Nothing }
    ensures lets { result ≡ true → lets_store own (Some control) ≡ true }
{
    match (own, control.stage) {
        (Status::Async, Stage::Idle) => true,
        (Status::Async, Stage::Sync1 | Stage::Clear | Stage::Sync2 | Stage::Trace | Stage::Sweep) =>
            { false }
        (Status::Sync1 | Status::Sync2, _) => false,
    }
}

/// Fetches field 0 of the anchor, and stores 7 there. It gives what it fetched.
fn store_seven(heap: &CellHeap<NoRule>, seat: &mut MutSeat<NoRule>) -> Value
    requires seat { IsSeatOf heap.now seat.old }
    requires free { IsFree seat.old.me }
    ensures seat { IsSeatOf heap.now seat.new }
    ensures presence { seat.new.me.presence ≡ seat.old.me.presence }
{
    let found = seat.fetch(heap, 0, 0);
    seat.store::<Brand>(heap, Value::Num(7));
    found
}

/// The same where nothing is to be marked, and nothing otherwise.
fn store_if_free(
    heap: &CellHeap<NoRule>,
    seat: &mut MutSeat<NoRule>,
    control: Control,
) -> Option<Value>
    requires seat { IsSeatOf heap.now seat.old }
    requires looked { HasLooked control seat.old.me }
    ensures seat { IsSeatOf heap.now seat.new }
    ensures presence { seat.new.me.presence ≡ seat.old.me.presence }
{
    let _many = seat.held_len();
    let own = seat.status();
    if is_free(own, control) {
        Some(store_seven(heap, seat))
    } else {
        None
    }
}

/// Comes in, looks, fetches and stores, and goes out.
pub(crate) fn fetch_and_store(heap: &CellHeap<NoRule>, seat: &mut MutSeat<NoRule>) -> Option<Value>
    requires seat { IsSeatOf heap.now seat.old }
    requires may { MayComeIn seat.old.me }
    requires room { 2 ≤ seat.old.me.room }
    ensures seat { IsSeatOf heap.now seat.new }
    ensures may { MayComeIn seat.new.me }
{
    // Who is out has begun no write.
    let _inside = seat.is_in();
    seat.begin(heap);
    let control = seat.look(heap);
    let found = store_if_free(heap, seat, control);
    seat.end(heap);
    found
}
