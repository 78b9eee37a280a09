//! The heap of a run, from its opening to its close. All memory of a run but that of its answers is
//! taken at the opening, so nothing that has begun is given up for lack of it.
//!
//! An opened heap can't be let go, and no other module can take it apart: `run_opened` alone does,
//! and that closes it. So whoever opened one closes it, also where memory runs out.
ghost use Rattle.std.specs.Prelude.{◌≡◌, ◌≤◌, All, IfOk, [], false, length, map, vec_capacity};
ghost use Rattle.beside_collector.specs.Scripts.{script_of};
ghost use Rattle.client_run.specs.Options.{IsWithin};
ghost use Rattle.client_threads.specs.Clients.{IsDone, IsReady};
ghost use Rattle.client_threads.specs.Taken.{AreFronts, lists_of};
ghost use Rattle.run_limits.specs.declared.TheConstants.{MOST_COMMANDS};
ghost use Rattle.store_run.specs.Answered.{commands_of};
ghost use Rattle.store_run.specs.Finished.{Comes};
ghost use Rattle.store_run.specs.Parts.{IsOpened};

use crate::finished::Finished;
use crate::totals::totals_of;
use client_history::Documents;
use client_run::Options;
use client_threads::{Client, open_store, run_client, take_logs};
use collector::NoMemory;
use doc_model::{Command, Log};
use mutator_threads::{Closed as ClosedHeap, Opened as OpenHeap, Worker, close, run_workers};
use outside::Gate;
use std::alloc::Global;
use std::sync::Wait;
use std::thread::Threads;

/// A store's heap with all that its clients and its collector need, and the lists of what they
/// leave.
pub(crate) struct Opened {
    store: OpenHeap<Documents, Client>,
    clients: Vec<Client>,
    logs: Vec<Log>,
}

/// The outcome of a run after its opening, and whether memory ran out for some client.
#[derive(Drop)]
pub(crate) struct Closed {
    pub(crate) finished: Finished,
    pub(crate) failed: bool,
}

/// Opens the heap of a run, with a client for each script.
pub(crate) fn open_run<R: Threads + Wait + Sync>(
    alloc: Global,
    rt: &R,
    scripts: &[Vec<Command>],
    options: &Options,
) -> Result<Opened, NoMemory>
    requires some { 1 ≤ length scripts.now }
    requires few { length scripts.now ≤ 64 }
    requires short { All (λ script. length script.items ≤ MOST_COMMANDS) scripts.now }
    requires options { IsWithin options.now }
    ensures opened { IfOk result (λ made. IsOpened options.now scripts.now made) }
{
    let number = scripts.len() as u32;
    let clients = Vec::with_capacity(alloc, scripts.len())?;
    let logs = Vec::with_capacity(alloc, scripts.len())?;
    let store = open_store(alloc, rt, number, options.cells, options.client_limits())?;
    Ok(Opened {
        store,
        clients,
        logs,
    })
}

/// Runs the scripts' commands on the opened heap and closes it, whatever became of the clients.
/// What is finished is a run of the commands that were answered: the first of each script, or all
/// of them where nobody ran out of memory.
pub(crate) fn run_opened<R: Threads + Wait + Sync, G: Gate + Sync>(
    alloc: Global,
    rt: &R,
    scripts: &[Vec<Command>],
    options: &Options,
    gate: &G,
    opened: Opened,
) -> Closed
    requires some { 1 ≤ length scripts.now }
    requires short { All (λ script. length script.items ≤ MOST_COMMANDS) scripts.now }
    requires options { IsWithin options.now }
    requires opened { IsOpened options.now scripts.now opened }
    ensures comes { Comes options.now (map commands_of result.finished.logs.items)
        result.finished.logs.items result.finished.image result.finished.passes
        result.finished.totals }
    ensures fronts { AreFronts (map commands_of result.finished.logs.items) (lists_of scripts.now) }
    ensures whole { result.failed ≡ false
        → map commands_of result.finished.logs.items ≡ lists_of scripts.now }
{
    let limits = options.client_limits();
    let cycles = options.cycles;
    let Opened {
        store,
        clients,
        mut logs,
    } = opened;
    let OpenHeap {
        heap,
        queue,
        keeper,
        workers,
    } = store;
    let at = &heap;
    let hints = &queue;
    let each = move |number: u32, client: Worker<Documents, Client>| -> Worker<Documents, Client>
        requires { (at.now.shape.setting ≡ limits.keep)
            × (length (script_of scripts.now number) ≤ MOST_COMMANDS)
            × IsReady at.now hints.now limits number client }
        ensures { IsDone at.entry.now limits scripts.entry.now number result }
    { run_client(alloc, rt, gate, at, hints, scripts, limits, number, client) };
    let (workers, off) = run_workers(alloc, rt, at, hints, keeper, cycles, workers, each);
    let (closed, clients) = close(rt, heap, &queue, cycles, off, workers, clients);
    let failed = take_logs(clients, &mut logs);
    let ClosedHeap {
        image,
        passes,
        number_freed,
        ..
    } = closed;
    let totals = totals_of(&image, number_freed, &logs);
    Closed {
        finished: Finished {
            logs,
            image,
            passes,
            totals,
        },
        failed,
    }
}
