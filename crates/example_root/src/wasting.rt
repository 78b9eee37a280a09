//! The call that blocks: another mutator makes records that nothing names, many more than there are
//! cells. Where no cell is free it waits for the collector.
ghost use Rattle.std.specs.Prelude.{◌≡◌, ◌≤◌, ◌<◌, None};
ghost use Rattle.example_root.specs.Holding.{Has, IsDone};
ghost use Rattle.cell_making.specs.Resting.{Rests};
ghost use Rattle.example_root.specs.Working.{IsWorker};

use crate::kept::Kept;
use crate::places::{come_in, leave, let_go};
use cell_making::fill_record;
use free_cells::{FreeQueue, Hints};
use heap_table::CellHeap;
use mutator_seat::{Mutator, Value};
use mutator_threads::Worker;
use std::sync::Wait;

/// How many records it makes.
const RECORDS: u32 = 500;

/// Comes to a safe point, makes a record, and drops it. It tells how many it made.
fn waste_one<R: Wait>(rt: &R, hints: &mut Hints<'_>, m: &mut Mutator<'_, Kept>, number: u32) -> u64
    requires rests { Rests 8 m.old }
    requires small { number < 500 }
    ensures rests { Rests 8 m.new }
    ensures same { Has m.old.seat.me.pass.number m.old m.new }
    ensures one { result ≤ 1 }
{
    let _ = m.answer();
    let fields = [
        Value::Num(number as u64),
        Value::Null,
        Value::Null,
        Value::Null,
        Value::Null,
    ];
    let made = match fill_record(rt, hints, m, fields) {
        Ok(_) => 1,
        Err(_) => 0,
    };
    let_go(m);
    made
}

/// Makes so many records and drops each, by a mutator that comes in before and is over afterwards.
/// It gives the worker back, and tells how many it made.
pub(crate) fn waste<R: Wait>(
    rt: &R,
    heap: &CellHeap<Kept>,
    queue: &FreeQueue,
    worker: Worker<Kept, ()>,
) -> (Worker<Kept, ()>, u64)
    requires worker { IsWorker heap.now queue.now 1 worker }
    ensures done { IsDone heap.now 1 None result.0.seat }
{
    let Worker { seat, pass, own } = worker;
    let mut hints = queue.hints(pass);
    let mut m = come_in(heap, seat);
    let mut made = 0;
    for number in 0..RECORDS {
        made += waste_one(rt, &mut hints, &mut m, number);
    }
    let over = Worker {
        seat: leave(m),
        pass: hints.into_pass(),
        own,
    };
    (over, made)
}
