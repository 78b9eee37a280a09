//! How the texts of a script and of its replies are written.
ghost use Rattle.cmd_text.specs.Form.{form_of, is_second, version_of};
ghost use Rattle.std.specs.Prelude.{bytes_eq, codes, ◌≡◌};

use line_texts::{cut_line, without_return};

/// How texts are written: as they are, or between quotes.
#[derive(Clone, Copy, Debug, PartialEq, Eq)]
pub enum Form {
    /// up to the end of the line
    Plain,
    /// so that every text can be read back
    Quoted,
}

/// The version of the grammar that a script is written in: 2 where its first line says so, else 1.
pub fn script_version(bytes: &[u8]) -> u32
    ensures { result ≡ version_of bytes.now }
{
    if is_second(bytes) { 2 } else { 1 }
}

/// The form of a script's texts, and of those in its replies.
pub fn script_form(bytes: &[u8]) -> Form
    ensures { result ≡ form_of bytes.now }
{
    if is_second(bytes) {
        Form::Quoted
    } else {
        Form::Plain
    }
}

/// Whether the first line says that a script has version 2.
pub(crate) fn is_second(bytes: &[u8]) -> bool
    ensures { result ≡ is_second bytes.now }
{
    is_heading(without_return(cut_line(bytes).0))
}

fn is_heading(line: &[u8]) -> bool
    ensures { result ≡ bytes_eq line.now (codes "docs 2") }
{
    line == b"docs 2".as_slice()
}
