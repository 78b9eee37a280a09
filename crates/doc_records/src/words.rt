//! Seven bytes as one number, and back.
ghost use Rattle.std.specs.Prelude.{◌≡◌, ◌+◌, ◌*◌, ◌++◌, ◌<◌, ◌^◌, OnOk};
ghost use Rattle.doc_records.specs.Words.{bytes_of, head_of, word_of};

use doc_tree::NoMemory;

/// A head is a multiple of this where its name has no seventh byte: one more byte lies below it.
pub(crate) const SEVENTH: u64 = 0x1_0000;

/// The word of the first seven bytes; what is past the end counts as 0.
#[tactic(auto, using(crate::proofs::Letters::word_letters))]
pub(crate) fn word(bytes: &[u8]) -> u64
    ensures word { result ≡ word_of 7 bytes.now }
    ensures fits { result < 2 ^ 56 }
{
    match bytes {
        [] => 0,
        [a] => joined(*a, 0, 0, 0, 0, 0, 0),
        [a, b] => joined(*a, *b, 0, 0, 0, 0, 0),
        [a, b, c] => joined(*a, *b, *c, 0, 0, 0, 0),
        [a, b, c, d] => joined(*a, *b, *c, *d, 0, 0, 0),
        [a, b, c, d, e] => joined(*a, *b, *c, *d, *e, 0, 0),
        [a, b, c, d, e, f] => joined(*a, *b, *c, *d, *e, *f, 0),
        [a, b, c, d, e, f, g, ..] => joined(*a, *b, *c, *d, *e, *f, *g),
    }
}

#[inline(always)]
fn joined(a: u8, b: u8, c: u8, d: u8, e: u8, f: u8, g: u8) -> u64
    ensures word { result
        ≡ a + 256 * (b + 256 * (c + 256 * (d + 256 * (e + 256 * (f + 256 * g))))) }
    ensures fits { result < 2 ^ 56 }
{
    u64::from_le_bytes([a, b, c, d, e, f, g, 0])
}

/// The head of a name.
#[inline(always)]
pub(crate) fn head(bytes: &[u8]) -> u64
    ensures { result ≡ head_of bytes.now }
{
    word(bytes).swap_bytes()
}

/// The bytes of three words.
#[inline(always)]
pub(crate) fn letters(first: u64, second: u64, third: u64) -> [u8; 21]
    ensures { result ≡ bytes_of 7 first ++ (bytes_of 7 second ++ bytes_of 7 third) }
{
    let [a, b, c, d, e, f, g, _] = first.to_le_bytes();
    let [h, i, j, k, l, m, n, _] = second.to_le_bytes();
    let [o, p, q, r, s, t, u, _] = third.to_le_bytes();
    [
        a, b, c, d, e, f, g, h, i, j, k, l, m, n, o, p, q, r, s, t, u,
    ]
}

/// Adds the first so many bytes of a word.
#[tactic(auto, using(crate::proofs::Letters::pushed))]
pub(crate) fn push_bytes(bytes: &mut Vec<u8>, word: u64, count: usize) -> Result<(), NoMemory>
    ensures bytes { OnOk result (bytes.new.items ≡ bytes.old.items ++ bytes_of count word) }
{
    if count == 0 {
        return Ok(());
    }
    bytes.push((word % 256) as u8)?;
    push_bytes(bytes, word / 256, count - 1)?;
    Ok(())
}
