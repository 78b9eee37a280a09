//! The whole run, from the opening of the heap to its close.
ghost use Rattle.std.specs.Prelude.{◌≤◌, All, IfOk, length};
ghost use Rattle.client_run.specs.Options.{IsWithin};
ghost use Rattle.client_threads.specs.Taken.{lists_of};
ghost use Rattle.doc_export.specs.Dumps.{Dumps};
ghost use Rattle.run_limits.specs.declared.TheConstants.{MOST_COMMANDS};

use crate::dumped::Dumped;
use crate::ending::EndingGate;
use crate::guest::Copied;
use crate::opened::{Closed, open_run, run_opened};
use client_run::Options;
use collector::NoMemory;
use doc_model::Command;
use outside::Gate;
use std::alloc::Global;
use std::sync::Wait;
use std::thread::Threads;

/// Runs the scripts' commands on one store, each script by a client on a thread of its own,
/// alongside the collector, and dumps one version on one more thread: the one that is the latest
/// when the gate lets command 1 of client 0 begin. The gate is asked for that when some client has
/// ended its script, or after a million looks for it. So a script alone is dumped as it leaves the
/// store. All memory except that of the answers and of the dump is taken before the first thread
/// begins.
///
/// Where no thread could be made for the collector, it serves when all seats are joined.
///
/// Before each command its client asks the gate. A client or guest that runs out of memory ends,
/// the others go on, and the run says so when all are done.
pub fn dump_run<R: Threads + Wait + Sync, G: Gate + Sync>(
    alloc: Global,
    rt: &R,
    scripts: &[Vec<Command>],
    options: &Options,
    gate: &G,
) -> Result<Dumped, NoMemory>
    requires some { 1 ≤ length scripts.now }
    requires few { length scripts.now ≤ 63 }
    requires short { All (λ script. length script.items ≤ MOST_COMMANDS) scripts.now }
    requires options { IsWithin options.now }
    ensures { IfOk result (λ d. Dumps options.now (lists_of scripts.now) d.logs.items d.passes
        d.version d.count d.bytes) }
{
    let logs = Vec::with_capacity(alloc, scripts.len())?;
    let opened = open_run(alloc, rt, scripts, options)?;
    let ending = EndingGate::new(gate, scripts);
    let Closed {
        logs,
        passes,
        copied,
        failed,
    } = run_opened(alloc, rt, scripts, options, &ending, opened, logs);
    if failed {
        return Err(NoMemory);
    }
    match copied {
        Some(
            Copied {
                version,
                count,
                bytes,
            },
        ) => Ok(Dumped {
            logs,
            passes,
            version,
            count,
            bytes,
        }),
        None => Err(NoMemory),
    }
}
