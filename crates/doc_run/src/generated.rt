//! Generated scripts: they are run, or one of them is printed.
ghost use Rattle.std.specs.Prelude.{◌≡◌, ℕ, ◌*◌, ◌≤◌, List, Option, None, Some};
ghost use Rattle.doc_run.specs.Answers.{Decided};
ghost use Rattle.command_line.specs.Limits.{IsGenWithin};
ghost use Rattle.command_line.specs.Requests.{Gen};
ghost use Rattle.run_limits.specs.declared.TheConstants.{MOST_COMMANDS};

use crate::answer::{Answer, Refusal};
use crate::clients::run_made;
use crate::summary::summary_of;
use command_line::GenWords;
use outside::Gate;
use script_files::{Fault, generated, is_too_large};
use std::alloc::Global;
use std::sync::Wait;
use std::thread::Threads;

/// Runs the scripts of a generator, or prints the one that the words ask for.
pub fn run_generated<R: Threads + Wait + Sync, G: Gate + Sync>(
    alloc: Global,
    rt: &R,
    made: GenWords,
    gate: &G,
) -> Result<Answer, Refusal>
    requires within { IsGenWithin made }
    ensures decided { (holds : List ℕ → Option (List ℕ)) → Decided holds (Some (Gen made)) result }
{
    if is_too_large(made.clients, made.commands) {
        return Err(Refusal::by(Fault::TooLarge { file: 0 }));
    }
    match made.print {
        Some(client) => print_script(alloc, made, client),
        None => run_scripts(alloc, rt, made, gate),
    }
}

// The script of this client.
fn print_script(alloc: Global, made: GenWords, client: u32) -> Result<Answer, Refusal>
    requires within { IsGenWithin made }
    requires few { made.clients * made.commands ≤ MOST_COMMANDS }
    requires client { (1 ≤ client) × (client ≤ 64) }
    requires print { made.print ≡ Some client }
    ensures decided { (holds : List ℕ → Option (List ℕ)) → Decided holds (Some (Gen made)) result }
{
    match generated(alloc, made.start, client, made.commands) {
        Ok(text) => Ok(Answer::Text(text)),
        Err(_) => Err(Refusal::by(Fault::Memory)),
    }
}

// What a run of all scripts comes to, with its summary.
fn run_scripts<R: Threads + Wait + Sync, G: Gate + Sync>(
    alloc: Global,
    rt: &R,
    made: GenWords,
    gate: &G,
) -> Result<Answer, Refusal>
    requires within { IsGenWithin made }
    requires few { made.clients * made.commands ≤ MOST_COMMANDS }
    requires none { made.print ≡ None }
    ensures decided { (holds : List ℕ → Option (List ℕ)) → Decided holds (Some (Gen made)) result }
{
    let finished = match run_made(alloc, rt, made, gate) {
        Ok(finished) => finished,
        Err(_) => return Err(Refusal::by(Fault::Memory)),
    };
    let Ok(text) = summary_of(alloc, made, &finished) else {
        return Err(Refusal::by(Fault::Memory));
    };
    Ok(Answer::Ran(text, finished))
}
