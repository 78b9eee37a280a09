//! Reading a quoted text.
ghost use Rattle.quoted_text.specs.Answers.{IsRead};
ghost use Rattle.quoted_text.specs.Quoted.{behind_of, inside_of, is_raw, no_more_of, unescaped};
ghost use Rattle.quoted_text.specs.Quoted.{unquoted_of, with_byte};
ghost use Rattle.std.specs.Prelude.{IfOk, IfSome, MatchOption, None, Some, [], if◌then◌else◌};
ghost use Rattle.std.specs.Prelude.{length, ◌≡◌, ◌<◌};

use std::alloc::{AllocError, Global};

/// The text whose quoted text the bytes are, if they are one.
pub fn read_quoted(alloc: Global, bytes: &[u8]) -> Result<Option<Vec<u8>>, AllocError>
    ensures text { IfOk result (λ read. IsRead read (unquoted_of bytes.now)) }
{
    let Some(inside) = behind_quote(bytes) else {
        return Ok(None);
    };
    let mut text = Vec::new(alloc);
    let mut rest = inside;
    while let Some((byte, more)) = next_byte(rest) {
        text.push(byte)?;
        rest = more;
    }
    if !is_last_quote(rest) {
        return Ok(None);
    }
    Ok(Some(text))
}

fn behind_quote(bytes: &[u8]) -> Option<&[u8]>
    ensures { MatchOption result (behind_of bytes.now ≡ None) (λ inside. behind_of bytes.now ≡ Some inside.now) }
{
    match bytes {
        [b'"', inside @ ..] => Some(inside),
        _ => None,
    }
}

// The next byte of the text and what is left after it. There is none at the last quote, and none
// where no text goes on so.
fn next_byte(rest: &[u8]) -> Option<(u8, &[u8])>
    ensures next { MatchOption result (inside_of rest.now ≡ no_more_of rest.now) (λ next. inside_of rest.now ≡ with_byte (Some next.0) (inside_of next.1.now)) }
    ensures less { IfSome result (λ next. length next.1.now < length rest.now) }
{
    match rest {
        [b'\\', escape, more @ ..] => Some((unescaped(*escape)?, more)),
        [_] => None,
        [byte, more @ ..] if is_raw(*byte) => Some((*byte, more)),
        _ => None,
    }
}

fn unescaped(escape: u8) -> Option<u8>
    ensures { result ≡ unescaped escape }
{
    match escape {
        b'"' | b'\\' => Some(escape),
        b't' => Some(b'\t'),
        b'n' => Some(b'\n'),
        _ => None,
    }
}

fn is_raw(byte: u8) -> bool
    ensures { result ≡ is_raw byte }
{
    matches!(byte, b' '..=b'~') && byte != b'"' && byte != b'\\'
}

fn is_last_quote(rest: &[u8]) -> bool
    ensures { no_more_of rest.now ≡ if result then Some [] else None }
{
    matches!(rest, [b'"'])
}
