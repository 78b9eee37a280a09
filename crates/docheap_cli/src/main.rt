//! The program `docheap`: clients, each with a script, work on a versioned store of documents on
//! the collected heap, or a schedule of the collector is replayed.
//!
//! `doc_run::run` is the whole program as one proved call over a shelf, which files come from, and
//! a sink, which the output goes to. `main` hands it the real ones, with the runtime whose threads
//! the clients run in and a gate that is always open, says the fault and ends with its status. What
//! a file holds, and what became of standard output, no contract says: that is the trusted edge.
#![tactic(auto)]

use doc_run::{Words, run};
use outside::{FileShelf, OpenGate, StdSink};
use script_files::{Fault, fault_text, final_fault, status};
use std::env;
use std::io::{ErrorKind, Write};
use std::mem::forget;
use std::process::ExitCode;
use std::sync::Wait;
use std::thread::Threads;

// Freed blocks of up to this size serve again.
const KEPT: usize = 24 << 20;

fn main(rt: HostRuntime) -> ExitCode {
    keep_freed_memory(&rt);
    let fault = run_on_devices(&rt, &rt);
    if let Some(fault) = &fault {
        say(&rt, fault);
    }
    ExitCode::from(status(fault))
}

// Has the C library keep what is freed. It hands the system back each freed block above a size, at
// first 128 KiB, which rises with the largest block that it handed back so far; and memory that it
// gets from the system again costs a fault a page. So a large block of which no byte is touched is
// freed.
fn keep_freed_memory(rt: &HostRuntime) {
    let _block: Result<Vec<u8>, _> = Vec::with_capacity(rt.alloc(), KEPT);
}

// Runs the program's own words over the real files and standard output, clients in threads.
fn run_on_devices<R: Threads + Wait + Sync>(rt: &HostRuntime, threads: &R) -> Option<Fault> {
    let words = match own_words(rt) {
        Ok(words) => words,
        Err(fault) => return Some(fault),
    };
    let mut shelf = FileShelf::new(rt);
    let mut sink = StdSink::new(rt.alloc(), rt);
    let outcome = run(
        rt.alloc(),
        threads,
        &words,
        &mut shelf,
        &mut sink,
        &OpenGate,
    );
    let fault = outcome.fault;
    // The process ends next, and all its memory with it: the outcome is not taken apart.
    forget(outcome);
    final_fault(fault, sink.finish())
}

// The words after the program's name. One that is no text is a faulty command line.
fn own_words(rt: &HostRuntime) -> Result<Words, Fault> {
    let all = match env::args(rt) {
        Ok(all) => all,
        Err(error) if error.kind() == ErrorKind::OutOfMemory => return Err(Fault::Memory),
        Err(_) => return Err(Fault::Usage),
    };
    let mut words = Words::new(rt.alloc());
    for word in all.skip(1) {
        if words.push(word.as_str()).is_err() {
            return Err(Fault::Memory);
        }
    }
    Ok(words)
}

// Prints the text of a fault, or nothing where no memory is left for it.
fn say(rt: &HostRuntime, fault: &Fault) {
    if let Ok(mut line) = fault_text(rt.alloc(), fault) {
        if line.push(b'\n').is_ok() {
            let _ = rt.stderr().write_all(&line);
        }
    }
}
