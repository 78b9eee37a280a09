//! The whole run, from the opening of the heap to its close.
ghost use Rattle.std.specs.Prelude.{◌≤◌, All, IfOk, length};
ghost use Rattle.client_run.specs.Options.{IsWithin};
ghost use Rattle.client_threads.specs.Taken.{lists_of};
ghost use Rattle.run_limits.specs.declared.TheConstants.{MOST_COMMANDS};
ghost use Rattle.store_run.specs.Finished.{Comes};

use crate::finished::Finished;
use crate::opened::{Closed, open_run, run_opened};
use client_run::Options;
use collector::NoMemory;
use doc_model::Command;
use outside::Gate;
use std::alloc::Global;
use std::sync::Wait;
use std::thread::Threads;

/// Runs the scripts' commands on one store, each script by a client on a thread of its own,
/// concurrently with the collector. All memory but that of the answers is taken before the first
/// thread begins.
///
/// Where no thread could be made for the collector, it serves when all seats are joined.
///
/// Before each command its client asks the gate. Where memory runs out, the client that asked for
/// it ends, the others go on, and the run answers so after them.
pub fn run_clients<R: Threads + Wait + Sync, G: Gate + Sync>(
    alloc: Global,
    rt: &R,
    scripts: &[Vec<Command>],
    options: &Options,
    gate: &G,
) -> Result<Finished, NoMemory>
    requires some { 1 ≤ length scripts.now }
    requires few { length scripts.now ≤ 64 }
    requires short { All (λ script. length script.items ≤ MOST_COMMANDS) scripts.now }
    requires options { IsWithin options.now }
    ensures { IfOk result (λ f. Comes options.now (lists_of scripts.now) f.logs.items f.image
        f.passes f.totals) }
{
    let opened = open_run(alloc, rt, scripts, options)?;
    let Closed { finished, failed } = run_opened(alloc, rt, scripts, options, gate, opened);
    if failed {
        return Err(NoMemory);
    }
    Ok(finished)
}
