//! Threads that commit again and again, and answer handshakes between two commits.
ghost use Rattle.free_cells.specs.Passes.{IsHintPass};
ghost use Rattle.std.specs.Prelude.{◌≡◌, ◌≤◌, ◌+◌, true};
ghost use Rattle.version_store.specs.Lasts.{IsSameMutator};
ghost use Rattle.version_tests.specs.Grows.{IsNew, IsOver, Works};

use crate::bare::Store;
use crate::opening::come_in;
use crate::working::{commit_one, prune_latest};
use cell_heap::{CellHeap, MutSeat};
use free_cells::{FreeQueue, HintPass, Hints};
use mutator_seat::Mutator;
use std::sync::Wait;
use std::thread::{self, Threads};

pub(crate) const KEEP: u64 = 5;

/// How many commits each thread makes.
pub(crate) const EACH: usize = 10_000;

/// How often it tries at most. A try that is lost comes with a commit of the other thread, and a
/// thread finds the heap full only where the other has used up all cells: so these are enough.
const TRIES: u32 = 50_000;

/// A mutator that is to come in, with memory for the numbers of what it makes.
#[derive(Drop)]
pub(crate) struct Client {
    pub(crate) seat: MutSeat<Store>,
    pub(crate) pass: HintPass,
    pub(crate) numbers: Vec<u64>,
}

/// A mutator that is over, and the numbers of what it made.
#[derive(Drop)]
pub(crate) struct Done {
    pub(crate) seat: MutSeat<Store>,
    pub(crate) numbers: Vec<u64>,
}

/// Commits over the latest version, notes the number, and cuts off what is no longer kept.
fn make_one<R: Wait>(
    rt: &R,
    hints: &mut Hints<'_>,
    m: &mut Mutator<'_, Store>,
    numbers: &mut Vec<u64>,
    round: u32,
)
    requires works { Works 1 round KEEP m.old }
    requires few { round ≤ 50000 }
    ensures works { Works 1 (round + 1) KEEP m.new }
    ensures same { IsSameMutator m.old m.new }
{
    let _ = m.answer();
    if let Ok(number) = commit_one(rt, hints, m, KEEP, round, 1_000_000) {
        // Memory for all numbers was taken before.
        let _ = numbers.push(number);
    }
    let _ = prune_latest(m, KEEP, round + 1);
}

/// Commits until so many are made.
fn make_all<R: Wait>(
    rt: &R,
    hints: &mut Hints<'_>,
    m: &mut Mutator<'_, Store>,
    numbers: &mut Vec<u64>,
)
    requires works { Works 1 0 KEEP m.old }
    ensures inside { m.new.seat.me.presence.inside ≡ true }
    ensures same { IsSameMutator m.old m.new }
{
    for round in 0..TRIES {
        make_one(rt, hints, m, numbers, round);
        if numbers.len() >= EACH {
            return;
        }
    }
}

/// Comes in, commits, and is over.
fn run_one<R: Wait>(rt: &R, heap: &CellHeap<Store>, queue: &FreeQueue, client: Client) -> Done
    requires seat { IsNew heap.now KEEP client.seat }
    requires pass { IsHintPass queue.now client.pass }
    ensures over { IsOver heap.now result.seat }
{
    let Client {
        seat,
        pass,
        mut numbers,
    } = client;
    let mut hints = queue.hints(pass);
    let mut m = come_in(heap, seat, KEEP);
    make_all(rt, &mut hints, &mut m, &mut numbers);
    m.end();
    Done {
        seat: m.finish(),
        numbers,
    }
}

/// Both, each on a thread of its own.
pub(crate) fn run_both<R: Threads + Wait + Sync>(
    rt: &R,
    heap: &CellHeap<Store>,
    queue: &FreeQueue,
    first: Client,
    second: Client,
) -> (Done, Done)
    requires first { IsNew heap.now KEEP first.seat × IsHintPass queue.now first.pass }
    requires second { IsNew heap.now KEEP second.seat × IsHintPass queue.now second.pass }
    ensures first { IsOver heap.now result.0.seat }
    ensures second { IsOver heap.now result.1.seat }
{
    thread::join(
        rt,
        move || -> Done
            requires { IsNew heap.now KEEP first.seat × IsHintPass queue.now first.pass }
            ensures { IsOver heap.entry.now result.seat }
        { run_one(rt, heap, queue, first) },
        move || -> Done
            requires { IsNew heap.now KEEP second.seat × IsHintPass queue.now second.pass }
            ensures { IsOver heap.entry.now result.seat }
        { run_one(rt, heap, queue, second) },
    )
}
