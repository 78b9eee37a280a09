//! What the first mutator does: it keeps a record over a call that blocks, and reads it afterwards.
ghost use Rattle.std.specs.Prelude.{◌≡◌, ◌≤◌, ◌<◌, ◌∷◌, [], IfSome, None, Some, ℕ, length};
ghost use Rattle.std.specs.Prelude.{vec_capacity};
ghost use Rattle.beside_collector.specs.Places.{AllFrom};
ghost use Rattle.std.specs.Bool.{OnFalse, OnTrue};
ghost use Rattle.example_root.specs.Holding.{Has, HoldsSome, IsDone, KeepsSome};
ghost use Rattle.cell_making.specs.Resting.{Rests};
ghost use Rattle.core_machine.specs.Own.{no_own};
ghost use Rattle.core_machine.specs.Trail.{own_along};
ghost use Rattle.example_root.specs.ReadBack.{ReadsDown, WentOut};
ghost use Rattle.example_root.specs.Working.{AreWorkers, IsWorker, Reports};

use crate::kept::Kept;
use crate::places::{come_in, hold_box, hold_kept, leave, let_go, read_number};
use crate::storing::{forget, keep, make_record};
use crate::wasting::waste;
use beside_collector::Work;
use free_cells::{FreeQueue, Hints};
use heap_table::CellHeap;
use mutator_seat::Mutator;
use mutator_threads::Worker;
use std::alloc::Global;
use std::sync::Wait;
use std::thread::Threads;

/// Makes the record of a number and keeps it, if there is a cell for it.
fn keep_number<R: Wait>(
    rt: &R,
    hints: &mut Hints<'_>,
    m: &mut Mutator<'_, Kept>,
    number: u64,
) -> bool
    requires rests { Rests 8 m.old }
    requires first { m.old.seat.me.number ≡ 0 }
    requires empty { m.old.seat.me.pass.number ≡ None }
    requires small { number < 1000000 }
    ensures rests { Rests 8 m.new }
    ensures kept { OnTrue result (Has (Some number) m.old m.new) }
    ensures none { OnFalse result (Has m.old.seat.me.pass.number m.old m.new) }
{
    hold_box(m);
    let made = make_record(rt, hints, m, number);
    if made {
        keep(m, number);
    }
    let_go(m);
    made
}

/// Goes out for the call that blocks, and comes in after it. No root of the mutator outlives that;
/// what the anchor leads to does.
fn over_call<R: Wait>(
    rt: &R,
    heap: &CellHeap<Kept>,
    queue: &FreeQueue,
    m: &mut Mutator<'_, Kept>,
    other: Worker<Kept, ()>,
) -> (Worker<Kept, ()>, u64)
    requires rests { Rests 8 m.old }
    requires other { IsWorker heap.now queue.now 1 other }
    ensures rests { Rests 8 m.new }
    ensures same { Has m.old.seat.me.pass.number m.old m.new }
    ensures done { IsDone heap.now 1 None result.0.seat }
    ensures away { WentOut m.old m.new }
{
    m.end();
    let done = waste(rt, heap, queue, other);
    m.begin();
    done
}

/// Reads from the anchor down what is kept: it is held afterwards, and its number is told.
fn read_back(m: &mut Mutator<'_, Kept>) -> u64
    requires rests { Rests 8 m.old }
    requires first { m.old.seat.me.number ≡ 0 }
    requires keeps { KeepsSome m.old }
    ensures number { (n : ℕ) → m.old.seat.me.pass.number ≡ Some n → result ≡ n }
    ensures holds { HoldsSome m.new }
    ensures same { Has m.old.seat.me.pass.number m.old m.new }
    ensures reads { ReadsDown result m.old m.new }
{
    hold_box(m);
    hold_kept(m);
    read_number(m)
}

/// What the two mutators leave.
#[derive(Drop)]
pub(crate) struct Report {
    /// both, whose seats are over
    pub(crate) workers: Vec<Worker<Kept, ()>>,
    /// what was read after the call, if a number was kept before
    pub(crate) found: Option<u64>,
    /// what is still kept
    pub(crate) left: Option<u64>,
    /// how many records were made during the call
    pub(crate) made: u64,
}

/// Reads what was kept, and takes it out of the box. It tells the number, and what is still kept.
#[tactic(auto, using(crate::proofs::Reading::reads_on))]
fn take_back(m: &mut Mutator<'_, Kept>) -> (u64, Option<u64>)
    requires rests { Rests 8 m.old }
    requires first { m.old.seat.me.number ≡ 0 }
    requires keeps { KeepsSome m.old }
    ensures number { (n : ℕ) → m.old.seat.me.pass.number ≡ Some n → result.0 ≡ n }
    ensures rests { Rests 8 m.new }
    ensures left { Has result.1 m.old m.new }
    ensures reads { ReadsDown result.0 m.old m.new }
{
    let number = read_back(m);
    let gone = forget(m);
    let_go(m);
    (number, if gone { None } else { Some(number) })
}

/// Reads what was kept, if something was, and takes it out of the box. It tells the number, and
/// what is still kept.
fn read_kept(m: &mut Mutator<'_, Kept>, kept: bool, number: u64) -> (Option<u64>, Option<u64>)
    requires rests { Rests 8 m.old }
    requires first { m.old.seat.me.number ≡ 0 }
    requires keeps { OnTrue kept (m.old.seat.me.pass.number ≡ Some number) }
    requires none { OnFalse kept (m.old.seat.me.pass.number ≡ None) }
    ensures found { IfSome result.0 (λ read. (read ≡ number) × ReadsDown read m.old m.new) }
    ensures own { m.old.seat.me.own ≡ own_along no_own m.old.seat.me.trail }
    ensures rests { Rests 8 m.new }
    ensures left { Has result.1 m.old m.new }
{
    // What the trail shows begins with what the mutator has.
    let _held = m.held_len();
    let _ = number;
    if kept {
        let (read, left) = take_back(m);
        (Some(read), left)
    } else {
        (None, None)
    }
}

/// Takes the two workers out of their list, which keeps its room for them.
fn take_both(
    workers: Vec<Worker<Kept, ()>>,
) -> (Vec<Worker<Kept, ()>>, Worker<Kept, ()>, Worker<Kept, ()>)
    requires two { length workers.items ≡ 2 }
    ensures both { workers.items ≡ result.1 ∷ result.2 ∷ [] }
    ensures none { result.0.items ≡ [] }
    ensures room { 2 ≤ vec_capacity result.0 }
{
    let mut workers = workers;
    let Some(second) = workers.pop() else {
        unreachable!();
    };
    let Some(first) = workers.pop() else {
        unreachable!();
    };
    (workers, first, second)
}

/// Puts both into a list that has room for them.
fn put_both(
    workers: Vec<Worker<Kept, ()>>,
    first: Worker<Kept, ()>,
    second: Worker<Kept, ()>,
) -> Vec<Worker<Kept, ()>>
    requires none { workers.items ≡ [] }
    requires room { 2 ≤ vec_capacity workers }
    ensures both { result.items ≡ first ∷ second ∷ [] }
{
    let mut workers = workers;
    workers.push_reserved(first);
    workers.push_reserved(second);
    workers
}

/// Keeps a number over a call that blocks, and reads it afterwards.
#[tactic(auto, using(crate::proofs::Reading::kept_after, crate::proofs::Reading::none_after))]
fn work<R: Wait>(
    rt: &R,
    heap: &CellHeap<Kept>,
    queue: &FreeQueue,
    workers: Vec<Worker<Kept, ()>>,
    number: u64,
) -> Report
    requires two { length workers.items ≡ 2 }
    requires workers { AllFrom (IsWorker heap.now queue.now) 0 workers.items }
    requires small { number < 1000000 }
    ensures reports { Reports heap.now number result }
{
    let (list, first, second) = take_both(workers);
    let Worker { seat, pass, own } = first;
    let mut hints = queue.hints(pass);
    let mut m = come_in(heap, seat);
    let kept = keep_number(rt, &mut hints, &mut m, number);
    let (second, made) = over_call(rt, heap, queue, &mut m, second);
    let (found, left) = read_kept(&mut m, kept, number);
    let first = Worker {
        seat: leave(m),
        pass: hints.into_pass(),
        own,
    };
    Report {
        workers: put_both(list, first, second),
        found,
        left,
        made,
    }
}

/// The work of both mutators, alongside the collector.
#[derive(Drop)]
pub(crate) struct Blocking {
    pub(crate) workers: Vec<Worker<Kept, ()>>,
    pub(crate) number: u64,
}

impl Work<Kept> for Blocking {
    type Done = Report;

    ghost may = { λ heap queue work. AreWorkers heap queue work };

    ghost did = { λ heap queue work report. Reports heap work.number report };

    fn run<R: Threads + Wait + Sync>(
        self,
        alloc: Global,
        rt: &R,
        heap: &CellHeap<Kept>,
        queue: &FreeQueue,
    ) -> Report {
        let _ = alloc;
        let Blocking { workers, number } = self;
        work(rt, heap, queue, workers, number)
    }
}
