//! The clients, and the guest alongside them.
ghost use Rattle.std.specs.Prelude.{◌≡◌, ◌≤◌, ◌+◌, All, length, vec_capacity};
ghost use Rattle.beside_collector.specs.Scripts.{script_of};
ghost use Rattle.client_threads.specs.Clients.{AllDone, IsDone, IsReady};
ghost use Rattle.doc_export.specs.Guests.{IsThrough, IsWaiting};
ghost use Rattle.doc_export.specs.Workers.{AllReady, HaveWorked};
ghost use Rattle.std.specs.Thread.{IsSync};
ghost use Rattle.run_limits.specs.declared.TheConstants.{MOST_COMMANDS};

use crate::ending::Ending;
use crate::guest::{Copied, Guest, Through, take_version};
use client_history::{Documents, LEAST_MINOR};
use client_run::Limits;
use client_threads::{Client, run_client};
use doc_model::Command;
use free_cells::FreeQueue;
use heap_table::CellHeap;
use minor_heap::MinorHeap;
use mutator_threads::{Worker, run_each};
use outside::Gate;
use std::alloc::Global;
use std::sync::Wait;
use std::thread::{Threads, join};

/// Runs the clients, each on a thread of its own.
fn run_clients<R: Threads + Wait + Sync, G: Gate + Sync>(
    alloc: Global,
    rt: &R,
    gate: &G,
    heap: &CellHeap<Documents>,
    queue: &FreeQueue,
    scripts: &[Vec<Command>],
    limits: Limits,
    clients: Vec<Worker<Documents, Client>>,
) -> Vec<Worker<Documents, Client>>
    requires few { length clients.items ≤ 4_294_967_295 }
    requires short { All (λ script. length script.items ≤ MOST_COMMANDS) scripts.now }
    requires keep { heap.now.shape.setting ≡ limits.keep }
    requires ready { AllReady heap.now queue.now limits clients.items }
    ensures done { AllDone heap.now limits scripts.now result.items }
    ensures many { length result.items ≡ length clients.items }
    ensures room { vec_capacity clients ≤ vec_capacity result }
{
    let each = move |number: u32, client: Worker<Documents, Client>| -> Worker<Documents, Client>
        requires { (heap.now.shape.setting ≡ limits.keep)
            × (length (script_of scripts.now number) ≤ MOST_COMMANDS)
            × IsReady heap.now queue.now limits number client }
        ensures { IsDone heap.entry.now limits scripts.entry.now number result }
    {
        run_client(
            alloc, rt, gate, heap, queue, scripts, limits, number, client,
        )
    };
    run_each(rt, &each, clients)
}

/// Runs the clients, each on a thread of its own, and the guest, which is the last, alongside all
/// of them: on a thread that is made for it, or after them where none can be made.
pub(crate) fn run_with_guest<R: Threads + Wait + Sync, G: Ending + Sync>(
    alloc: Global,
    rt: &R,
    gate: &G,
    heap: &CellHeap<Documents>,
    queue: &FreeQueue,
    scripts: &[Vec<Command>],
    limits: Limits,
    workers: Vec<Worker<Documents, Client>>,
    minor: MinorHeap,
) -> (Vec<Worker<Documents, Client>>, Option<Copied>)
    requires few { length scripts.now ≤ 63 }
    requires short { All (λ script. length script.items ≤ MOST_COMMANDS) scripts.now }
    requires keep { heap.now.shape.setting ≡ limits.keep }
    requires minor { LEAST_MINOR ≤ limits.minor }
    requires ready { AllReady heap.now queue.now limits workers.items }
    requires many { length workers.items ≡ length scripts.now + 1 }
    ensures worked { HaveWorked heap.now limits scripts.now result.0.items result.1 }
{
    let mut clients = workers;
    let Some(last) = clients.pop() else {
        unreachable!();
    };
    let place = clients.len() as u32;
    let Worker { seat, pass, own } = last;
    let guest = Guest { place, seat, minor };
    let (through, clients) = join(
        rt,
        move || -> Through
            requires { (LEAST_MINOR ≤ limits.minor)
                × IsWaiting heap.now limits guest.place guest.seat }
            ensures { IsThrough heap.entry.now limits guest.place result }
        { take_version(alloc, rt, gate, heap, limits, guest) },
        move || -> Vec<Worker<Documents, Client>>
            requires { IsSync R.row × IsSync G.row × (length clients.items ≤ 4_294_967_295)
                × All (λ script. length script.items ≤ MOST_COMMANDS) scripts.now
                × (heap.now.shape.setting ≡ limits.keep)
                × AllReady heap.now queue.now limits clients.items }
            ensures { AllDone heap.entry.now limits scripts.entry.now result.items
                × (length result.items ≡ length clients.items)
                × (vec_capacity clients ≤ vec_capacity result) }
        { run_clients(alloc, rt, gate, heap, queue, scripts, limits, clients) },
    );
    let Through { seat, copied } = through;
    let mut workers = clients;
    if workers.push(Worker { seat, pass, own }).is_err() {
        unreachable!();
    }
    (workers, copied)
}
