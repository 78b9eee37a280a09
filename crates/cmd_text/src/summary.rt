//! The lines that are written of a whole run.
ghost use Rattle.cmd_text.specs.SummaryText.{history_text_of, stats_text_of, total_text_of};
ghost use Rattle.std.specs.Prelude.{IfOk, OnOk, ◌++◌, ◌≡◌};

use crate::form::Form;
use crate::reply::reply_line;
use doc_model::{Entry, NoMemory, Totals};
use std::alloc::Global;

/// The line of an entry in the merged history.
pub fn history_line(alloc: Global, entry: &Entry) -> Result<Vec<u8>, NoMemory>
    ensures line { IfOk result (λ line. line.items ≡ history_text_of entry.now) }
{
    let Entry {
        client,
        number,
        reply,
        place,
        ..
    } = entry;
    let mut line = format!(in alloc; "{place} {client} {number} ")?.into_bytes();
    line.extend_from_slice(&reply_line(alloc, reply, Form::Plain)?)?;
    Ok(line)
}

/// The lines of the totals, the heading above them included.
#[tactic(auto, using(crate::proofs::Parts::eight_parts))]
pub fn stats_lines(alloc: Global, totals: &Totals) -> Result<Vec<u8>, NoMemory>
    ensures lines { IfOk result (λ lines. lines.items ≡ stats_text_of totals.now) }
{
    let mut lines = Vec::from_slice(alloc, b"stats\n")?;
    add_total(alloc, &mut lines, "commands", totals.commands)?;
    add_total(alloc, &mut lines, "versions", totals.versions)?;
    add_total(alloc, &mut lines, "claimed", totals.claimed)?;
    add_total(alloc, &mut lines, "freed", totals.freed)?;
    add_total(alloc, &mut lines, "used", totals.used)?;
    add_total(alloc, &mut lines, "free", totals.free)?;
    add_total(alloc, &mut lines, "cycles", totals.cycles)?;
    Ok(lines)
}

// Adds the line of one total.
fn add_total(alloc: Global, lines: &mut Vec<u8>, word: &str, count: u64) -> Result<(), NoMemory>
    ensures lines { OnOk result (lines.new.items ≡ lines.old.items ++ total_text_of word.now count) }
{
    lines.extend_from_slice(format!(in alloc; "{word} {count}\n")?.as_bytes())
}
