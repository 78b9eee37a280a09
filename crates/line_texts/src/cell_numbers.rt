//! Numbers.
ghost use Rattle.std.specs.Prelude.{IfSome, Some, decimal, ℕ, ◌<◌, ◌≡◌, ◌≤◌, ◌^◌};

use crate::numbers::read_decimal;

/// The number that a word is, if it is that of one up to `most`.
pub fn read_number(word: &[u8], most: u64) -> Option<u64>
    requires { most < 10 ^ 19 }
    ensures most { IfSome result (λ number. number ≤ most) }
    ensures text { IfSome result (λ number. decimal number ≡ word.now) }
    ensures read { (number : ℕ) → number ≤ most → decimal number ≡ word.now → result ≡ Some number }
{
    let number = read_decimal(word, 19)?;
    if number > most {
        return None;
    }
    Some(number)
}
