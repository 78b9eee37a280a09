//! Decimal numbers.
ghost use Rattle.line_texts.specs.Numbers.{decimal_of, digits_of, is_shortest};
ghost use Rattle.std.specs.Char.{is_ascii_digit};
ghost use Rattle.std.specs.List.{list_all};
ghost use Rattle.std.specs.Prelude.{IfSome, IsTrue, length, ◌≡◌, ◌≤◌, ◌<◌, ◌^◌};
ghost use Rattle.std.specs.Str.Parse.{digits_value};

/// The number that a word of 1 to `most` digits is, which may begin with zeros. No other word is
/// one.
pub fn read_digits(word: &[u8], most: usize) -> Option<u64>
    requires { most ≤ 19 }
    ensures number { result ≡ digits_of most word.now }
    ensures small { IfSome result (λ number. number < 10 ^ most) }
{
    if word.is_empty() || word.len() > most || !are_digits(word) {
        return None;
    }
    Some(value_of_digits(word))
}

/// The number that a word of at most `most` digits is, in the one way in which the program writes
/// it: with no zeros before it.
pub fn read_decimal(word: &[u8], most: usize) -> Option<u64>
    requires { most ≤ 19 }
    ensures number { result ≡ decimal_of most word.now }
    ensures small { IfSome result (λ number. number < 10 ^ most) }
{
    if !is_shortest(word) {
        return None;
    }
    read_digits(word, most)
}

fn is_shortest(word: &[u8]) -> bool
    ensures { result ≡ is_shortest word.now }
{
    !matches!(word, [b'0', _, ..])
}

fn are_digits(word: &[u8]) -> bool
    ensures { result ≡ list_all is_ascii_digit word.now }
{
    word.iter().all(|byte| byte.is_ascii_digit())
}

fn value_of_digits(word: &[u8]) -> u64
    requires digits { IsTrue (list_all is_ascii_digit word.now) }
    requires short { length word.now ≤ 19 }
    ensures value { result ≡ digits_value 10 word.now }
    ensures small { result < 10 ^ length word.now }
{
    let mut number = 0;
    for byte in word {
        number = number * 10 + u64::from(*byte - b'0');
    }
    number
}
