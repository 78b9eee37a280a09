//! Runs of clients alongside which a version is dumped.
ghost use Rattle.std.specs.Prelude.{◌≤◌, length};
ghost use Rattle.cell_words.specs.declared.controls.TheConstants.{GREATEST_POSITION};

use crate::scripts::scripts_of;
use cell_words::GREATEST_CYCLES;
use doc_export::{Dumped, Options, dump_run};
use outside::Gate;
use std::alloc::Global;
use std::sync::Wait;
use std::test::Fail;
use std::thread::Threads;

/// A dump alongside a client for each text, on a heap of so many cells.
pub(crate) fn dumped_of<R: Threads + Wait + Sync, G: Gate + Sync>(
    alloc: Global,
    rt: &R,
    texts: &[&[u8]],
    cells: u32,
    gate: &G,
) -> Result<Dumped, Fail>
    requires some { 1 ≤ length texts.now }
    requires few { length texts.now ≤ 63 }
    requires cells { (64 ≤ cells) × (cells ≤ GREATEST_POSITION) }
{
    let scripts = scripts_of(alloc, texts)?;
    let options = Options {
        cells,
        minor: 4_096,
        keep: 1,
        versions: 1_000_000,
        cycles: GREATEST_CYCLES,
    };
    Ok(dump_run(alloc, rt, &scripts, &options, gate)?)
}
