//! The text of a run of clients.
ghost use Rattle.std.specs.Prelude.{◌≡◌, ◌++◌, IfOk, OnOk, drop};
ghost use Rattle.cmd_text.specs.SummaryText.{history_text_of};
ghost use Rattle.result_text.specs.Output.{AddsHistory, IsOutput, log_text_of, logs_text_of};
ghost use Rattle.result_text.specs.Output.{first_form_of, history_of, stats_of};

use cmd_text::{Form, add_reply, heading_line, history_line, stats_lines};
use doc_model::{Entry, Log, NoMemory, Totals, merge};
use std::alloc::Global;

/// What is written after the replies.
#[derive(Clone, Copy, Debug, PartialEq, Eq)]
pub struct Shown {
    /// the merged history
    pub history: bool,
    /// the totals
    pub stats: bool,
}

/// The lines that are written of a run: for each client its replies, with their texts in the form
/// of its script, then what is asked for.
#[tactic(auto, using(crate::proofs::Parts::parts))]
pub fn output_text(
    alloc: Global,
    shown: Shown,
    logs: &[Log],
    forms: &[Form],
    totals: &Totals,
) -> Result<Vec<u8>, NoMemory>
    ensures text { IfOk result (λ text. IsOutput shown logs.now forms.now totals.now text.items) }
{
    let mut text = logs_text(alloc, logs, forms)?;
    add_history(alloc, shown.history, logs, &mut text)?;
    add_stats(alloc, shown.stats, totals, &mut text)?;
    Ok(text)
}

// The lines of the clients' logs, one after another.
fn logs_text(alloc: Global, logs: &[Log], forms: &[Form]) -> Result<Vec<u8>, NoMemory>
    ensures text { IfOk result (λ text. text.items ≡ logs_text_of forms.now logs.now) }
{
    let mut text = Vec::new(alloc);
    let mut forms = forms;
    for log in logs {
        let (form, others) = first_form(forms);
        add_log(alloc, form, log, &mut text)?;
        forms = others;
    }
    Ok(text)
}

// The first of the forms, and those after it.
fn first_form(forms: &[Form]) -> (Form, &[Form])
    ensures first { result.0 ≡ first_form_of forms.now }
    ensures others { result.1.now ≡ drop 1 forms.now }
{
    match forms {
        [form, others @ ..] => (*form, others),
        [] => (Form::Plain, forms),
    }
}

// Adds the lines of one client's log.
#[tactic(auto, using(std::proofs::lemmas::List::append_assoc))]
fn add_log(alloc: Global, form: Form, log: &Log, text: &mut Vec<u8>) -> Result<(), NoMemory>
    ensures text { OnOk result (text.new.items ≡ text.old.items ++ log_text_of form log.now) }
{
    text.extend_from_slice(&heading_line(alloc, log.client())?)?;
    for entry in log.entries() {
        add_reply(alloc, &entry.reply, form, text)?;
    }
    Ok(())
}

// Adds the merged history, where it is asked for.
fn add_history(alloc: Global, asked: bool, logs: &[Log], text: &mut Vec<u8>) -> Result<(), NoMemory>
    ensures text { OnOk result (AddsHistory asked logs.now text.old.items text.new.items) }
{
    if asked {
        let merged = merge(alloc, logs)?;
        add_entries(alloc, &merged, text)?;
    }
    Ok(())
}

// Adds a heading, and below it the line of each entry.
#[tactic(auto, using(std::proofs::lemmas::List::append_assoc))]
fn add_entries(alloc: Global, merged: &[Entry], text: &mut Vec<u8>) -> Result<(), NoMemory>
    ensures text { OnOk result (text.new.items ≡ text.old.items ++ history_of merged.now) }
{
    text.extend_from_slice(b"history\n")?;
    for entry in merged {
        text.extend_from_slice(&history_line(alloc, entry)?)?;
    }
    Ok(())
}

// Adds the totals, where they are asked for.
fn add_stats(
    alloc: Global,
    asked: bool,
    totals: &Totals,
    text: &mut Vec<u8>,
) -> Result<(), NoMemory>
    ensures text { OnOk result (text.new.items ≡ text.old.items ++ stats_of asked totals.now) }
{
    if asked {
        text.extend_from_slice(&stats_lines(alloc, totals)?)?;
    }
    Ok(())
}
