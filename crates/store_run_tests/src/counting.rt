//! Runs of clients with the same script on a heap of the smallest size, and their totals.
ghost use Rattle.std.specs.Prelude.{◌≤◌};
ghost use Rattle.cell_words.specs.declared.controls.TheConstants.{GREATEST_CYCLES};

use crate::scripts::{alike, repeated};
use doc_model::Totals;
use outside::Gate;
use std::alloc::Global;
use std::sync::Wait;
use std::test::Fail;
use std::thread::Threads;
use store_run::{Finished, Options, run_clients};

/// A run of so many clients. Only the latest version is kept.
pub(crate) fn run_of<R: Threads + Wait + Sync, G: Gate + Sync>(
    alloc: Global,
    rt: &R,
    clients: u32,
    text: &[u8],
    cycles: u32,
    gate: &G,
) -> Result<Finished, Fail>
    requires clients { (1 ≤ clients) × (clients ≤ 64) }
    requires cycles { cycles ≤ GREATEST_CYCLES }
{
    let scripts = alike(alloc, clients, text)?;
    let options = Options {
        cells: 64,
        minor: 4_096,
        keep: 1,
        versions: 1_000_000,
        cycles,
    };
    Ok(run_clients(alloc, rt, &scripts, &options, gate)?)
}

/// The totals of a run in which each client puts so many times.
pub(crate) fn totals_of<R: Threads + Wait + Sync, G: Gate + Sync>(
    alloc: Global,
    rt: &R,
    clients: u32,
    puts: u32,
    cycles: u32,
    gate: &G,
) -> Result<Totals, Fail>
    requires clients { (1 ≤ clients) × (clients ≤ 64) }
    requires cycles { cycles ≤ GREATEST_CYCLES }
{
    let text = repeated(alloc, b"put a x\n", puts)?;
    let finished = run_of(alloc, rt, clients, &text, cycles, gate)?;
    Ok(finished.totals)
}
