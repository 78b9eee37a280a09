//! What the words of a command line make of a file.
use doc_model::NoMemory;
use doc_run::{Outcome, Words, run};
use outside::{Gate, SureShelf, SureSink};
use std::alloc::{AllocError, Global};
use std::sync::Wait;
use std::thread::Threads;

/// The words of a command line.
pub(crate) fn words(alloc: Global, all: &[&str]) -> Result<Words, NoMemory> {
    let mut words = Words::new(alloc);
    for word in all {
        words.push(word)?;
    }
    Ok(words)
}

/// One file of the name `f`.
pub(crate) fn files(alloc: Global, bytes: &[u8]) -> Result<Vec<(String, Vec<u8>)>, AllocError> {
    let name = String::from_str(alloc, "f")?;
    Ok(vec![in alloc; (name, bytes.to_vec(alloc)?)]?)
}

/// What these words make of a file with these bytes where the clients ask this gate, and what is
/// written.
pub(crate) fn outcome_at<R: Threads + Wait + Sync, G: Gate + Sync>(
    alloc: Global,
    rt: &R,
    all: &[&str],
    bytes: &[u8],
    gate: &G,
) -> Result<(Outcome, SureSink), NoMemory> {
    let words = words(alloc, all)?;
    let mut shelf = SureShelf::new(files(alloc, bytes)?);
    let mut sink = SureSink::new(alloc);
    let outcome = run(alloc, rt, &words, &mut shelf, &mut sink, gate);
    Ok((outcome, sink))
}
