//! The heap of a run, from its opening to its close. All memory of a run is taken at the opening,
//! except that of its answers and of the dump. So nothing that has begun is given up because memory
//! ran out.
//!
//! An opened heap can't be dropped, and no other module can take it apart: only `run_opened` does,
//! and that closes it. So an opened heap is always closed, also where memory runs out.
ghost use Rattle.std.specs.Prelude.{◌≡◌, ◌≤◌, ◌+◌, All, IfOk, [], false, length, map};
ghost use Rattle.std.specs.Prelude.{vec_capacity};
ghost use Rattle.client_run.specs.Options.{IsWithin};
ghost use Rattle.client_threads.specs.Taken.{commands_in, lists_of};
ghost use Rattle.doc_export.specs.Parts.{IsOpened, MayDump};
ghost use Rattle.doc_export.specs.Workers.{AllReady, HaveWorked};
ghost use Rattle.std.specs.Thread.{IsSync};
ghost use Rattle.run_limits.specs.declared.TheConstants.{MOST_COMMANDS};

use crate::beside::run_with_guest;
use crate::ending::Ending;
use crate::guest::Copied;
use beside_collector::Doing;
use cell_heap::Passes;
use client_history::{Documents, LEAST_MINOR};
use client_run::Options;
use client_threads::{Client, open_store, take_logs};
use collector::NoMemory;
use doc_model::{Command, Log};
use minor_heap::MinorHeap;
use mutator_threads::{Closed as ClosedHeap, Opened as OpenHeap, Worker, close, run_alongside};
use std::alloc::Global;
use std::sync::Wait;
use std::thread::Threads;

/// A store's heap with all that its clients, its guest and its collector need, and the list of what
/// they leave.
pub(crate) struct Opened {
    store: OpenHeap<Documents, Client>,
    clients: Vec<Client>,
    /// the guest's, for the readers of trees
    minor: MinorHeap,
}

/// The result of a run after its opening. There is no version where the guest ran out of memory.
#[derive(Drop)]
pub(crate) struct Closed {
    pub(crate) logs: Vec<Log>,
    pub(crate) passes: Passes<Documents>,
    pub(crate) copied: Option<Copied>,
    /// memory ran out for some client
    pub(crate) failed: bool,
}

/// Opens the heap of a run, with a client for each script, and with one more for the guest, which
/// answers nothing.
pub(crate) fn open_run<R: Threads + Wait + Sync>(
    alloc: Global,
    rt: &R,
    scripts: &[Vec<Command>],
    options: &Options,
) -> Result<Opened, NoMemory>
    requires some { 1 ≤ length scripts.now }
    requires few { length scripts.now ≤ 63 }
    requires short { All (λ script. length script.items ≤ MOST_COMMANDS) scripts.now }
    requires options { IsWithin options.now }
    ensures opened { IfOk result (λ made. IsOpened options.now scripts.now made) }
{
    let number = scripts.len() as u32 + 1;
    let minor = MinorHeap::with_room(alloc, 0)?;
    let clients = Vec::with_capacity(alloc, scripts.len() + 1)?;
    let store = open_store(alloc, rt, number, options.cells, options.client_limits())?;
    Ok(Opened {
        store,
        clients,
        minor,
    })
}

/// Runs the scripts' commands on the opened heap, takes a version alongside them, and closes the
/// heap, whatever became of the clients and of the guest. The list has room for the logs.
pub(crate) fn run_opened<R: Threads + Wait + Sync, G: Ending + Sync>(
    alloc: Global,
    rt: &R,
    scripts: &[Vec<Command>],
    options: &Options,
    gate: &G,
    opened: Opened,
    logs: Vec<Log>,
) -> Closed
    requires some { 1 ≤ length scripts.now }
    requires short { All (λ script. length script.items ≤ MOST_COMMANDS) scripts.now }
    requires options { IsWithin options.now }
    requires opened { IsOpened options.now scripts.now opened }
    requires empty { logs.items ≡ [] }
    requires room { length scripts.now ≤ vec_capacity logs }
    ensures dumps { MayDump options.now (map commands_in result.logs.items) result.logs.items
        result.passes result.copied }
    ensures whole { result.failed ≡ false
        → map commands_in result.logs.items ≡ lists_of scripts.now }
{
    let limits = options.client_limits();
    let cycles = options.cycles;
    let Opened {
        store,
        clients,
        minor,
    } = opened;
    let OpenHeap {
        heap,
        queue,
        keeper,
        workers,
    } = store;
    let at = &heap;
    let hints = &queue;
    let run = move || -> (Vec<Worker<Documents, Client>>, Option<Copied>)
        requires { IsSync R.row × IsSync G.row × (length scripts.now ≤ 63)
            × All (λ script. length script.items ≤ MOST_COMMANDS) scripts.now
            × (at.now.shape.setting ≡ limits.keep) × (LEAST_MINOR ≤ limits.minor)
            × AllReady at.now hints.now limits workers.items
            × (length workers.items ≡ length scripts.now + 1) }
        ensures { HaveWorked at.entry.now limits scripts.entry.now result.0.items result.1 }
    { run_with_guest(alloc, rt, gate, at, hints, scripts, limits, workers, minor) };
    let (done, off) = run_alongside(alloc, rt, at, hints, keeper, cycles, Doing { run });
    let (workers, copied) = done;
    let (closed, clients) = close(rt, heap, &queue, cycles, off, workers, clients);
    let mut clients = clients;
    clients.truncate(scripts.len());
    let mut logs = logs;
    let failed = take_logs(clients, &mut logs);
    let ClosedHeap { passes, .. } = closed;
    Closed {
        logs,
        passes,
        copied,
        failed,
    }
}
