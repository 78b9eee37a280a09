//! Words of a line, parted by single spaces.
//!
//! The rest of a line keeps the space that ended the last word: so an empty rest is the end of the
//! line, and a rest of one space has one empty word after it.
ghost use Rattle.line_texts.specs.Cut.{is_space, next_rest_of, next_word_of, rest_of, word_of};
ghost use Rattle.std.specs.List.{position_or_len};
ghost use Rattle.std.specs.Prelude.{drop, length, position, ◌≡◌, ◌≤◌};

/// The bytes up to the first space, and those from it on.
pub fn first_word(bytes: &[u8]) -> (&[u8], &[u8])
    ensures word { result.0.now ≡ word_of bytes.now }
    ensures rest { result.1.now ≡ rest_of bytes.now }
{
    bytes.split_at(word_len(bytes))
}

/// The next word of a rest, and what is left after it.
pub fn next_word(rest: &[u8]) -> (&[u8], &[u8])
    ensures word { result.0.now ≡ next_word_of rest.now }
    ensures rest { result.1.now ≡ next_rest_of rest.now }
{
    first_word(after_space(rest))
}

/// What is left after the next word of a rest.
pub fn next_rest(rest: &[u8]) -> &[u8]
    ensures { result.now ≡ next_rest_of rest.now }
{
    next_word(rest).1
}

/// A rest without the space at its head.
pub fn after_space(rest: &[u8]) -> &[u8]
    ensures { result.now ≡ drop 1 rest.now }
{
    match rest {
        [] => rest,
        [_, after @ ..] => after,
    }
}

#[tactic(auto, using(crate::proofs::Cuts::unwrap_position))]
fn word_len(bytes: &[u8]) -> usize
    ensures end { result ≡ position_or_len is_space bytes.now }
    ensures within { result ≤ length bytes.now }
{
    first_space(bytes).unwrap_or(bytes.len())
}

fn first_space(bytes: &[u8]) -> Option<usize>
    ensures { result ≡ position is_space bytes.now }
{
    bytes.iter().position(|byte| *byte == b' ')
}
