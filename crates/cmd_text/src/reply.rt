//! The lines that are written of replies.
ghost use Rattle.cmd_text.specs.ReplyText.{heading_of, reply_text_of, spaced, value_text_of};
ghost use Rattle.std.specs.Prelude.{IfOk, OnOk, codes, decimal, ◌++◌, ◌≡◌};

use crate::form::Form;
use crate::texts::add_shown;
use doc_model::{Names, NoMemory, Reply, Text};
use itoa::Buffer;
use std::alloc::Global;

/// The line above a client's replies.
pub fn heading_line(alloc: Global, client: u32) -> Result<Vec<u8>, NoMemory>
    ensures line { IfOk result (λ line. line.items ≡ heading_of client) }
{
    Ok(format!(in alloc; "client {client}\n")?.into_bytes())
}

/// The line of a reply, with its text in this form.
pub fn reply_line(alloc: Global, reply: &Reply, form: Form) -> Result<Vec<u8>, NoMemory>
    ensures line { IfOk result (λ line. line.items ≡ reply_text_of form reply.now) }
{
    let mut line = Vec::new(alloc);
    add_reply(alloc, reply, form, &mut line)?;
    Ok(line)
}

/// Adds the line of a reply, with its text in this form.
pub fn add_reply(
    alloc: Global,
    reply: &Reply,
    form: Form,
    lines: &mut Vec<u8>,
) -> Result<(), NoMemory>
    ensures lines { OnOk result (lines.new.items
        ≡ lines.old.items ++ reply_text_of form reply.now) }
{
    match reply {
        Reply::Committed { shown } => add_number(lines, b"ok ", *shown),
        Reply::Drafted { shown } => add_number(lines, b"drafted ", *shown),
        Reply::Val { shown, text } => add_value(alloc, lines, *shown, text, form),
        Reply::Names { shown, names } => add_names(lines, *shown, names),
        Reply::Count { shown, count } => add_numbers(lines, b"num ", *shown, *count),
        Reply::Absent { shown } => add_number(lines, b"none ", *shown),
        Reply::Gone { shown, wanted } => add_numbers(lines, b"gone ", *shown, *wanted),
        Reply::Before { shown } => add_number(lines, b"before ", *shown),
        Reply::Many { shown } => add_number(lines, b"many ", *shown),
        Reply::Deep { shown } => add_number(lines, b"deep ", *shown),
        Reply::Big { shown } => add_number(lines, b"big ", *shown),
        Reply::Worn { shown } => add_number(lines, b"worn ", *shown),
        Reply::Full { shown } => add_number(lines, b"full ", *shown),
    }
}

// Adds the digits of a number.
fn add_digits(lines: &mut Vec<u8>, number: u64) -> Result<(), NoMemory>
    ensures { OnOk result (lines.new.items ≡ lines.old.items ++ decimal number) }
{
    let mut digits = Buffer::new();
    lines.extend_from_slice(digits.format(number).as_bytes())
}

// Adds the end of a line.
fn add_end(lines: &mut Vec<u8>) -> Result<(), NoMemory>
    ensures { OnOk result (lines.new.items ≡ lines.old.items ++ codes "\n") }
{
    lines.extend_from_slice(b"\n")
}

// Adds a line of a word and a number.
#[tactic(auto, using(std::proofs::lemmas::List::append_assoc))]
fn add_number(lines: &mut Vec<u8>, word: &[u8], number: u64) -> Result<(), NoMemory>
    ensures { OnOk result (lines.new.items
        ≡ lines.old.items ++ (word.now ++ decimal number ++ codes "\n")) }
{
    lines.extend_from_slice(word)?;
    add_digits(lines, number)?;
    add_end(lines)
}

// Adds a line of a word and two numbers.
#[tactic(auto, using(std::proofs::lemmas::List::append_assoc))]
fn add_numbers(lines: &mut Vec<u8>, word: &[u8], one: u64, other: u64) -> Result<(), NoMemory>
    ensures { OnOk result (lines.new.items
        ≡ lines.old.items ++ (word.now ++ decimal one ++ codes " " ++ decimal other
        ++ codes "\n")) }
{
    lines.extend_from_slice(word)?;
    add_digits(lines, one)?;
    lines.extend_from_slice(b" ")?;
    add_digits(lines, other)?;
    add_end(lines)
}

// Adds the line of a text that was found.
#[tactic(auto, using(std::proofs::lemmas::List::append_assoc))]
fn add_value(
    alloc: Global,
    lines: &mut Vec<u8>,
    shown: u64,
    text: &Text,
    form: Form,
) -> Result<(), NoMemory>
    ensures { OnOk result (lines.new.items
        ≡ lines.old.items ++ value_text_of form shown text.now) }
{
    lines.extend_from_slice(b"val ")?;
    add_digits(lines, shown)?;
    lines.extend_from_slice(b" ")?;
    add_shown(alloc, text, form, lines)?;
    add_end(lines)
}

// Adds the line of a node's names.
#[tactic(auto, using(std::proofs::lemmas::List::append_assoc))]
fn add_names(lines: &mut Vec<u8>, shown: u64, names: &Names) -> Result<(), NoMemory>
    ensures { OnOk result (lines.new.items ≡ lines.old.items
        ++ (codes "names " ++ decimal shown ++ spaced names.now ++ codes "\n")) }
{
    lines.extend_from_slice(b"names ")?;
    add_digits(lines, shown)?;
    add_spaced(lines, names)?;
    add_end(lines)
}

// Adds names, each after a space.
#[tactic(auto, using(std::proofs::lemmas::List::append_assoc))]
fn add_spaced(lines: &mut Vec<u8>, names: &Names) -> Result<(), NoMemory>
    ensures { OnOk result (lines.new.items ≡ lines.old.items ++ spaced names.now) }
{
    for name in names.names() {
        lines.extend_from_slice(b" ")?;
        lines.extend_from_slice(name.bytes())?;
    }
    Ok(())
}
