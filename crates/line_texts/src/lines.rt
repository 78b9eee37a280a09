//! A text line by line.
ghost use Rattle.line_texts.specs.Lines.{is_end, is_missing, lines_left, lines_of};
ghost use Rattle.std.specs.Prelude.{IfSome, MatchOption, Some, [], length, position, ◌++◌};
ghost use Rattle.std.specs.Prelude.{◌==◌, ◌≡◌, ◌<◌, ◌∷◌};

/// The bytes up to the first line feed and, where there is one, those after it.
pub fn cut_line(bytes: &[u8]) -> (&[u8], Option<&[u8]>)
    ensures lines { MatchOption result.1 (lines_of bytes.now ≡ result.0.now ∷ []) (λ more. lines_of bytes.now ≡ result.0.now ∷ lines_of more.now) }
    ensures whole { MatchOption result.1 (bytes.now ≡ result.0.now) (λ more. bytes.now ≡ result.0.now ++ 10 ∷ more.now) }
    ensures less { IfSome result.1 (λ more. length more.now < length bytes.now) }
{
    let Some(at) = first_feed(bytes) else {
        return (bytes, None);
    };
    let (line, feed) = bytes.split_at(at);
    (line, Some(feed.split_at(1).1))
}

fn first_feed(bytes: &[u8]) -> Option<usize>
    ensures { result ≡ position (λ byte. byte == 10) bytes.now }
{
    bytes.iter().position(|byte| *byte == b'\n')
}

/// Whether no byte is left, where the one line that is left may be empty.
pub fn is_end(rest: Option<&[u8]>) -> bool
    ensures { result ≡ is_end (lines_left rest.entry) }
{
    match rest {
        Some(rest) => rest.is_empty(),
        None => true,
    }
}

/// Whether the bytes end where the line would begin.
pub fn is_missing(line: &[u8], has_feed: bool) -> bool
    ensures { result ≡ is_missing has_feed line.now }
{
    !has_feed && line.is_empty()
}
