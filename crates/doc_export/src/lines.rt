//! The lines of a dump, as bytes.
ghost use Rattle.std.specs.Prelude.{◌≡◌, ◌++◌, IfOk, OnOk};
ghost use Rattle.dump_text.specs.Dump.{end_line, head_line};
ghost use Rattle.doc_export.specs.Lines.{line_of, path_behind, with_slash};

use doc_tree::{Name, NoMemory, Text};
use quoted_text::quoted;
use std::alloc::Global;

/// The head of the dump of a version with this number.
pub(crate) fn head(alloc: Global, number: u64) -> Result<Vec<u8>, NoMemory>
    ensures line { IfOk result (λ line. line.items ≡ head_line number) }
{
    Ok(format!(in alloc; "docs-dump 1 {number}\n")?.into_bytes())
}

/// The end, after so many node lines.
pub(crate) fn end(alloc: Global, nodes: u64) -> Result<Vec<u8>, NoMemory>
    ensures line { IfOk result (λ line. line.items ≡ end_line nodes) }
{
    Ok(format!(in alloc; "end {nodes}\n")?.into_bytes())
}

/// Adds the line of a node, whose path is this in the dump.
pub(crate) fn push_line(
    alloc: Global,
    out: &mut Vec<u8>,
    path: &[u8],
    text: &Text,
) -> Result<(), NoMemory>
    ensures line { OnOk result (out.new.items ≡ out.old.items ++ line_of path.now text.now) }
{
    out.extend_from_slice(path)?;
    out.push(b' ')?;
    out.extend_from_slice(quoted(alloc, text.bytes())?.as_slice())?;
    out.push(b'\n')?;
    Ok(())
}

/// The path of a child, by what stands before its name.
pub(crate) fn path_behind(alloc: Global, before: &[u8], name: &Name) -> Result<Vec<u8>, NoMemory>
    ensures path { IfOk result (λ path. path.items ≡ path_behind before.now name.now) }
{
    let mut path = Vec::from_slice(alloc, before)?;
    path.extend_from_slice(name.bytes())?;
    Ok(path)
}

/// What stands before the names of the children of the node with this path.
pub(crate) fn with_slash(alloc: Global, path: &[u8]) -> Result<Vec<u8>, NoMemory>
    ensures before { IfOk result (λ before. before.items ≡ with_slash path.now) }
{
    let mut before = Vec::from_slice(alloc, path)?;
    before.push(b'/')?;
    Ok(before)
}
