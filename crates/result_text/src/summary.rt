//! The summary of a run of generated scripts.
ghost use Rattle.std.specs.Prelude.{◌≡◌, IfOk, count_by};
ghost use Rattle.doc_model.specs.Answers.{is_full, is_ok};
ghost use Rattle.result_text.specs.Summary.{lines_of, summary_text_of, verdict_of};

use doc_model::{Entry, NoMemory};
use std::alloc::Global;

/// By which numbers scripts were generated.
#[derive(Clone, Copy, Debug, PartialEq, Eq)]
pub struct Made {
    /// where the draws of all clients start
    pub start: u32,
    /// how many scripts
    pub clients: u32,
    /// lines of each script
    pub commands: u32,
}

/// The lines of a summary, by the merged history, the nodes of the latest version and whether the
/// history is one of a store.
pub fn summary_text(
    alloc: Global,
    made: Made,
    merged: &[Entry],
    nodes: u64,
    legal: bool,
) -> Result<Vec<u8>, NoMemory>
    ensures text { IfOk result (λ text. text.items
        ≡ summary_text_of made merged.now nodes legal) }
{
    let counts = Counts {
        entries: merged.len(),
        commits: commits_in(merged),
        full: full_in(merged),
        nodes,
    };
    lines_of(alloc, made, counts, verdict(legal))
}

// How much of a run there is.
#[derive(Clone, Copy)]
struct Counts {
    entries: usize,
    commits: usize,
    full: usize,
    nodes: u64,
}

#[tactic(auto, using(std::proofs::lemmas::List::append_assoc))]
fn lines_of(alloc: Global, made: Made, counts: Counts, verdict: &str) -> Result<Vec<u8>, NoMemory>
    ensures { IfOk result (λ text. text.items
        ≡ lines_of made counts.entries counts.commits counts.nodes counts.full verdict.now) }
{
    let Made {
        start,
        clients,
        commands,
    } = made;
    let Counts {
        entries,
        commits,
        full,
        nodes,
    } = counts;
    let mut text = format!(in alloc; "gen {start} {clients} {commands}\n")?.into_bytes();
    text.extend_from_slice(format!(in alloc; "commands {entries}\n")?.as_bytes())?;
    text.extend_from_slice(format!(in alloc; "commits {commits}\n")?.as_bytes())?;
    text.extend_from_slice(format!(in alloc; "nodes {nodes}\n")?.as_bytes())?;
    text.extend_from_slice(format!(in alloc; "full {full}\n")?.as_bytes())?;
    text.extend_from_slice(format!(in alloc; "legal {verdict}\n")?.as_bytes())?;
    Ok(text)
}

// How many entries made a version.
fn commits_in(merged: &[Entry]) -> usize
    ensures { result ≡ count_by (λ entry. is_ok entry.reply) merged.now }
{
    let mut count = 0;
    for entry in merged {
        if entry.reply.is_ok() {
            count += 1;
        }
    }
    count
}

// How many found the heap full.
fn full_in(merged: &[Entry]) -> usize
    ensures { result ≡ count_by (λ entry. is_full entry.reply) merged.now }
{
    let mut count = 0;
    for entry in merged {
        if entry.reply.is_full() {
            count += 1;
        }
    }
    count
}

fn verdict(legal: bool) -> &'static str
    ensures { result.now ≡ verdict_of legal }
{
    if legal { "yes" } else { "no" }
}
