//! One closure for any number of workers, each call on a thread of its own where one can be made.
ghost use Rattle.std.specs.Prelude.{◌≡◌, ◌≤◌, length, vec_capacity};
ghost use Rattle.std.specs.Thread.{IsSend, IsSync};
ghost use Rattle.beside_collector.specs.Places.{AllFrom};
ghost use Rattle.mutator_threads.specs.Each.{EachFrom};

use std::thread::{Threads, join};

/// Calls the closure for each worker with its place, all concurrently, and gives in their order
/// what the calls returned. It takes no memory: the list is the one that it got.
///
/// The first worker runs on the thread that was made last. One worker alone needs no thread but
/// this.
pub fn run_each<R: Threads + Sync, W: Send + Drop, F: Fn(u32, W) -> W + Sync>(
    rt: &R,
    each: &F,
    work: Vec<W>,
) -> Vec<W>
    requires few { length work.items ≤ 4294967295 }
    requires ready { AllFrom (F.pre each.now) 0 work.items }
    ensures done { EachFrom (F.post each.now) 0 work.items result.items }
    ensures many { length result.items ≡ length work.items }
    ensures room { vec_capacity work ≤ vec_capacity result }
{
    let mut work = work;
    let Some(last) = work.pop() else {
        return work;
    };
    let place = work.len() as u32;
    if work.is_empty() {
        let last = each(place, last);
        if work.push(last).is_err() {
            unreachable!();
        }
        return work;
    }
    let (mut work, last) = join(
        rt,
        move || -> Vec<W>
            requires { IsSync R.row × IsSync F.row × IsSend W.row
                × (length work.items ≤ 4294967295) × AllFrom (F.pre each.now) 0 work.items }
            ensures { EachFrom (F.post each.entry.now) 0 work.items result.items
                × (length result.items ≡ length work.items)
                × (vec_capacity work ≤ vec_capacity result) }
        { run_each(rt, each, work) },
        move || -> W
            requires { IsSync F.row × IsSend W.row × F.pre each.now place last }
            ensures { F.post each.entry.now place last result }
        { each(place, last) },
    );
    if work.push(last).is_err() {
        unreachable!();
    }
    work
}
