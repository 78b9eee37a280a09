//! Writing a quoted text.
ghost use Rattle.quoted_text.specs.Quoted.{escaped, quoted_of};
ghost use Rattle.std.specs.Prelude.{IfOk, OnOk, ◌++◌, ◌≡◌};

use std::alloc::{AllocError, Global};

/// The quoted text of a text.
pub fn quoted(alloc: Global, text: &[u8]) -> Result<Vec<u8>, AllocError>
    ensures line { IfOk result (λ line. line.items ≡ quoted_of text.now) }
{
    let mut line = Vec::from_slice(alloc, b"\"")?;
    for byte in text {
        push_escaped(&mut line, *byte)?;
    }
    line.push(b'"')?;
    Ok(line)
}

fn push_escaped(line: &mut Vec<u8>, byte: u8) -> Result<(), AllocError>
    ensures line { OnOk result (line.new.items ≡ line.old.items ++ escaped byte) }
{
    match byte {
        b'"' => line.extend_from_slice(b"\\\"")?,
        b'\\' => line.extend_from_slice(b"\\\\")?,
        b'\t' => line.extend_from_slice(b"\\t")?,
        b'\n' => line.extend_from_slice(b"\\n")?,
        _ => line.push(byte)?,
    }
    Ok(())
}
