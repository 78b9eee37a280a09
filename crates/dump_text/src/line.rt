//! One line of a dump.
ghost use Rattle.std.specs.Prelude.{IfOk, MatchOption, None, Some, bytes_eq, drop, ◌≡◌};
ghost use Rattle.dump_text.specs.Answers.{Gives};
ghost use Rattle.dump_text.specs.Dump.{end_text};
ghost use Rattle.dump_text.specs.Line.{begins_digit, begins_end, end_in, head_of};
ghost use Rattle.line_texts.specs.Lines.{is_missing};
ghost use Rattle.dump_text.specs.Line.{line_of, low_version, node_in, root_in, root_line_of};
ghost use Rattle.dump_text.specs.Line.{text_in};

use crate::fault::{LineError, LoadKind};
use doc_tree::{NoMemory, Path, Text};
use line_texts::{after_space, first_word, is_missing, read_decimal};
use quoted_text::read_quoted;
use std::alloc::Global;

/// What a line after the root's holds.
#[derive(Drop)]
pub(crate) enum Held {
    End,
    Node { path: Path, text: Text },
}

/// The number in a head.
pub(crate) fn read_head(line: &[u8]) -> Option<u64>
    ensures { result ≡ head_of line.now }
{
    let digits = line.strip_prefix(b"docs-dump 1 ".as_slice())?;
    low_version(read_decimal(digits, 7)?)
}

fn low_version(version: u64) -> Option<u64>
    ensures { result ≡ low_version (Some version) }
{
    if version > 1_000_000 {
        return None;
    }
    Some(version)
}

/// The text of the root, in the line where it is due.
pub(crate) fn read_root(alloc: Global, line: &[u8], has_feed: bool) -> Result<Text, LineError>
    ensures { Gives result (root_line_of has_feed line.now) }
{
    if is_missing(line, has_feed) || begins_end(line) {
        return Err(LineError::Kind(LoadKind::BadEnd));
    }
    if !has_feed {
        return Err(LineError::Kind(LoadKind::BadLine));
    }
    match root_in(alloc, line)? {
        Some(text) => Ok(text),
        None => Err(LineError::Kind(LoadKind::BadLine)),
    }
}

/// A line after so many node lines.
pub(crate) fn read_line(
    alloc: Global,
    line: &[u8],
    has_feed: bool,
    nodes: u64,
) -> Result<Held, LineError>
    ensures { Gives result (line_of nodes has_feed line.now) }
{
    if is_missing(line, has_feed) {
        return Err(LineError::Kind(LoadKind::BadEnd));
    }
    if begins_end(line) {
        return read_end(alloc, line, has_feed, nodes);
    }
    if !has_feed {
        return Err(LineError::Kind(LoadKind::BadLine));
    }
    match node_in(alloc, line)? {
        Some(held) => Ok(held),
        None => Err(LineError::Kind(LoadKind::BadLine)),
    }
}

fn read_end(alloc: Global, line: &[u8], has_feed: bool, nodes: u64) -> Result<Held, LineError>
    ensures { Gives result (end_in nodes has_feed line.now) }
{
    if has_feed && is_end_of(alloc, line, nodes)? {
        Ok(Held::End)
    } else {
        Err(LineError::Kind(LoadKind::BadEnd))
    }
}

fn is_end_of(alloc: Global, line: &[u8], nodes: u64) -> Result<bool, NoMemory>
    ensures { IfOk result (λ is. is ≡ bytes_eq line.now (end_text nodes)) }
{
    let end = format!(in alloc; "end {nodes}")?;
    Ok(line == end.as_bytes())
}

fn begins_end(line: &[u8]) -> bool
    ensures { result ≡ begins_end line.now }
{
    let (word, rest) = first_word(line);
    word == b"end".as_slice() && begins_digit(after_space(rest))
}

fn begins_digit(bytes: &[u8]) -> bool
    ensures { result ≡ begins_digit bytes.now }
{
    match bytes {
        [byte, ..] => byte.is_ascii_digit(),
        [] => false,
    }
}

fn root_in(alloc: Global, line: &[u8]) -> Result<Option<Text>, NoMemory>
    ensures { IfOk result (λ text. text ≡ root_in line.now) }
{
    match line.strip_prefix(b". ".as_slice()) {
        Some(bytes) => text_in(alloc, bytes),
        None => Ok(None),
    }
}

fn node_in(alloc: Global, line: &[u8]) -> Result<Option<Held>, NoMemory>
    ensures { IfOk result (λ held. held ≡ node_in line.now) }
{
    let (word, rest) = first_word(line);
    let Some(path) = Path::read(alloc, word)? else {
        return Ok(None);
    };
    match text_in(alloc, after_space(rest))? {
        Some(text) => Ok(Some(Held::Node { path, text })),
        None => Ok(None),
    }
}

fn text_in(alloc: Global, bytes: &[u8]) -> Result<Option<Text>, NoMemory>
    ensures { IfOk result (λ text. text ≡ text_in bytes.now) }
{
    match read_quoted(alloc, bytes)? {
        Some(text) => Text::read(alloc, &text),
        None => Ok(None),
    }
}
