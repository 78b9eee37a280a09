//! A run of clients, from where their scripts come from to what it came to.
ghost use Rattle.std.specs.Prelude.{◌≡◌, ◌*◌, ◌≤◌, Some, length, map, sum_by};
ghost use Rattle.client_run.specs.Options.{IsWithin};
ghost use Rattle.doc_run.specs.Clients.{DecidesRun, Finishes, FinishesWith, MakesRun, options_of};
ghost use Rattle.doc_run.specs.Guested.{DecidesDump, FinishesDump};
ghost use Rattle.doc_run.specs.Reads.{Reads, err_of};
ghost use Rattle.command_line.specs.Limits.{IsGenWithin, IsRunWithin};
ghost use Rattle.command_line.specs.Requests.{Dump, Run, names_by, run_asked_by};
ghost use Rattle.run_limits.specs.declared.TheConstants.{MOST_COMMANDS};
ghost use Rattle.script_files.specs.Reading.{lists_of};

use cell_words::GREATEST_CYCLES;
use cmd_text::Form;
use command_line::{GenWords, RunWords};
use doc_export::{Dumped, dump_run};
use doc_model::Command;
use outside::{Gate, READ_LIMIT, Shelf};
use script_files::{Fault, Scripts, scripts_in_files, scripts_made};
use std::alloc::Global;
use std::sync::Wait;
use std::thread::Threads;
use store_run::{Finished, Options, run_clients};

// How generated scripts are run.
const DEFAULTS: Options = Options {
    cells: 65_536,
    minor: 8_192,
    keep: 8,
    versions: 1_000_000,
    cycles: GREATEST_CYCLES,
};

/// What a run of the clients of files came to, and the form of each client's texts.
#[derive(Drop)]
pub struct Ran {
    pub finished: Finished,
    pub forms: Vec<Form>,
}

/// What a run of the clients comes to whose scripts the files of the words hold.
#[tactic(auto, using(crate::proofs::Ranges::ranges))]
pub fn run_files<R: Threads + Wait + Sync, H: Shelf, G: Gate + Sync>(
    alloc: Global,
    rt: &R,
    run: &RunWords<'_>,
    shelf: &mut H,
    gate: &G,
) -> Result<Ran, Fault>
    requires within { IsRunWithin run.now }
    ensures finished { DecidesRun
        (map (H.holds shelf.old) (run_asked_by run.now).files)
        (options_of (run_asked_by run.now)) result }
    ensures reads { Reads (H.holds shelf.old) (Some (Run (run_asked_by run.now))) (err_of result)
        READ_LIMIT (H.opens shelf.old) (H.opens shelf.new) (H.calls shelf.old) (H.calls shelf.new)
        (H.faults shelf.old) (H.faults shelf.new) (H.course shelf.old) (H.course shelf.new) }
{
    match scripts_in_files(alloc, &run.files, shelf) {
        Ok(scripts) => run_formed(alloc, rt, scripts, options(run), gate),
        Err(fault) => Err(fault),
    }
}

/// What a run of the clients comes to whose scripts the files of these names hold, where a version
/// is dumped beside them.
pub fn dump_files<R: Threads + Wait + Sync, H: Shelf, G: Gate + Sync>(
    alloc: Global,
    rt: &R,
    names: &Vec<&str>,
    shelf: &mut H,
    gate: &G,
) -> Result<Dumped, Fault>
    requires some { 1 ≤ length names.now.items }
    requires few { length names.now.items ≤ 63 }
    ensures dumped { DecidesDump (map (H.holds shelf.old) (names_by names.now)) result }
    ensures reads { Reads (H.holds shelf.old) (Some (Dump (names_by names.now))) (err_of result)
        READ_LIMIT (H.opens shelf.old) (H.opens shelf.new) (H.calls shelf.old) (H.calls shelf.new)
        (H.faults shelf.old) (H.faults shelf.new) (H.course shelf.old) (H.course shelf.new) }
{
    match scripts_in_files(alloc, names, shelf) {
        Ok(scripts) => dump_all(alloc, rt, &scripts.commands, gate),
        Err(fault) => Err(fault),
    }
}

/// What a run of the clients comes to whose scripts are generated.
#[tactic(auto, using(crate::proofs::Ranges::ranges))]
pub fn run_made<R: Threads + Wait + Sync, G: Gate + Sync>(
    alloc: Global,
    rt: &R,
    made: GenWords,
    gate: &G,
) -> Result<Finished, Fault>
    requires within { IsGenWithin made }
    requires few { made.clients * made.commands ≤ MOST_COMMANDS }
    ensures finished { MakesRun made result }
{
    match scripts_made(alloc, made.start, made.clients, made.commands) {
        Ok(scripts) => run_all(alloc, rt, &scripts, DEFAULTS, gate),
        Err(fault) => Err(fault),
    }
}

// The options that the words ask for.
fn options(run: &RunWords<'_>) -> Options
    ensures { result ≡ options_of (run_asked_by run.now) }
{
    Options {
        cells: run.cells,
        minor: run.minor,
        keep: run.keep,
        versions: run.versions,
        cycles: run.cycles,
    }
}

// What a run of these scripts comes to, and their forms.
fn run_formed<R: Threads + Wait + Sync, G: Gate + Sync>(
    alloc: Global,
    rt: &R,
    scripts: Scripts,
    options: Options,
    gate: &G,
) -> Result<Ran, Fault>
    requires some { 1 ≤ length scripts.commands.items }
    requires few { length scripts.commands.items ≤ 64 }
    requires total { sum_by (λ script. length script.items) scripts.commands.items ≤ MOST_COMMANDS }
    requires options { IsWithin options }
    ensures { FinishesWith options (lists_of scripts.commands.items) scripts.forms.items result }
{
    let Scripts { commands, forms } = scripts;
    match run_all(alloc, rt, &commands, options, gate) {
        Ok(finished) => Ok(Ran { finished, forms }),
        Err(fault) => Err(fault),
    }
}

// What a run of these scripts comes to.
#[tactic(auto, using(crate::proofs::Ranges::each_short))]
fn run_all<R: Threads + Wait + Sync, G: Gate + Sync>(
    alloc: Global,
    rt: &R,
    scripts: &[Vec<Command>],
    options: Options,
    gate: &G,
) -> Result<Finished, Fault>
    requires some { 1 ≤ length scripts.now }
    requires few { length scripts.now ≤ 64 }
    requires total { sum_by (λ script. length script.items) scripts.now ≤ MOST_COMMANDS }
    requires options { IsWithin options }
    ensures { Finishes options (lists_of scripts.now) result }
{
    match run_clients(alloc, rt, scripts, &options, gate) {
        Ok(finished) => Ok(finished),
        Err(_) => Err(Fault::Memory),
    }
}

// What a run of these scripts comes to beside which a version is dumped.
#[tactic(auto, using(crate::proofs::Ranges::each_short, crate::proofs::Ranges::ranges))]
fn dump_all<R: Threads + Wait + Sync, G: Gate + Sync>(
    alloc: Global,
    rt: &R,
    scripts: &[Vec<Command>],
    gate: &G,
) -> Result<Dumped, Fault>
    requires some { 1 ≤ length scripts.now }
    requires few { length scripts.now ≤ 63 }
    requires total { sum_by (λ script. length script.items) scripts.now ≤ MOST_COMMANDS }
    ensures { FinishesDump (lists_of scripts.now) result }
{
    match dump_run(alloc, rt, scripts, &DEFAULTS, gate) {
        Ok(dumped) => Ok(dumped),
        Err(_) => Err(Fault::Memory),
    }
}
