//! Texts of documents as they are written.
ghost use Rattle.cmd_text.specs.ReplyText.{plainly, plainly_of, shown_text};
ghost use Rattle.cmd_text.specs.Texts.{quoted_text_in};
ghost use Rattle.quoted_text.specs.Quoted.{quoted_of};
ghost use Rattle.std.specs.Prelude.{IfOk, OnOk, ◌++◌, ◌≡◌};

use crate::form::Form;
use doc_model::{NoMemory, Text};
use std::alloc::Global;

/// The quoted text of a text. `read_quoted` reads it back.
pub fn quoted(alloc: Global, text: &Text) -> Result<Vec<u8>, NoMemory>
    ensures line { IfOk result (λ line. line.items ≡ quoted_of text.now) }
{
    quoted_text::quoted(alloc, text.bytes())
}

/// The text whose quoted text the bytes are, if they are one and it has at most 4,096 bytes.
pub fn read_quoted(alloc: Global, bytes: &[u8]) -> Result<Option<Text>, NoMemory>
    ensures text { IfOk result (λ text. text ≡ quoted_text_in bytes.now) }
{
    match quoted_text::read_quoted(alloc, bytes)? {
        Some(text) => Text::read(alloc, &text),
        None => Ok(None),
    }
}

/// Adds a text in this form.
pub(crate) fn add_shown(
    alloc: Global,
    text: &Text,
    form: Form,
    lines: &mut Vec<u8>,
) -> Result<(), NoMemory>
    ensures lines { OnOk result (lines.new.items ≡ lines.old.items ++ shown_text form text.now) }
{
    match form {
        Form::Plain => add_plainly(text.bytes(), lines),
        Form::Quoted => lines.extend_from_slice(&quoted(alloc, text)?),
    }
}

// Adds a text on one line that is not read back.
#[tactic(auto, using(std::proofs::lemmas::List::append_assoc))]
fn add_plainly(text: &[u8], lines: &mut Vec<u8>) -> Result<(), NoMemory>
    ensures { OnOk result (lines.new.items ≡ lines.old.items ++ plainly_of text.now) }
{
    for byte in text {
        push_plainly(lines, *byte)?;
    }
    Ok(())
}

fn push_plainly(line: &mut Vec<u8>, byte: u8) -> Result<(), NoMemory>
    ensures { OnOk result (line.new.items ≡ line.old.items ++ plainly byte) }
{
    match byte {
        b'\t' => line.extend_from_slice(b"\\t")?,
        b'\n' => line.extend_from_slice(b"\\n")?,
        _ => line.push(byte)?,
    }
    Ok(())
}
