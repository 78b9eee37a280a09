//! What a line is before its words are looked at.
ghost use Rattle.line_texts.specs.Line.{counts, is_plain_byte};
ghost use Rattle.std.specs.List.{list_all};
ghost use Rattle.std.specs.Prelude.{◌≡◌};
ghost use Rattle.std.specs.Str.Lines.{strip_carriage_return};

/// A line without the carriage return at its end, if it has one.
pub fn without_return(line: &[u8]) -> &[u8]
    ensures { result.now ≡ strip_carriage_return line.now }
{
    match line {
        [before @ .., b'\r'] => before,
        _ => line,
    }
}

/// Whether the line is neither empty nor a comment.
pub fn counts(line: &[u8]) -> bool
    ensures { result ≡ counts line.now }
{
    !matches!(line, [] | [b'#', ..])
}

/// Whether all bytes of the line are plain characters.
pub fn is_plain(line: &[u8]) -> bool
    ensures { result ≡ list_all is_plain_byte line.now }
{
    line.iter().all(|byte| matches!(*byte, b' '..=b'~'))
}
