//! Numbers and values of fields.
ghost use Rattle.core_replay.specs.Numbers.{index_in, number_to, value_in, value_of};
ghost use Rattle.std.specs.Prelude.{◌∷◌, ◌≡◌};

use crate::fault::ScheduleKind;
use cell_words::Field;
use line_texts::{next_word, read_digits};

/// The next word, as the number of a mutator, a cell, a place, a field, or as a count.
pub(crate) fn read_index(rest: &[u8]) -> Result<u32, ScheduleKind>
    ensures { result ≡ index_in rest.now }
{
    let number = read_number(next_word(rest).0, u64::from(u32::MAX))?;
    Ok(number as u32)
}

/// The next word, as a value of a field.
pub(crate) fn read_value(rest: &[u8]) -> Result<Field, ScheduleKind>
    ensures { result ≡ value_in rest.now }
{
    match next_word(rest).0 {
        [] => Err(ScheduleKind::BadNumber),
        [sign, digits @ ..] => read_signed(*sign, digits),
    }
}

fn read_signed(sign: u8, digits: &[u8]) -> Result<Field, ScheduleKind>
    ensures { result ≡ value_of (sign ∷ digits.now) }
{
    if sign == b'-' && digits.is_empty() {
        return Ok(Field::Null);
    }
    if sign == b'=' {
        return Ok(Field::Num(read_number(digits, GREATEST_NUMBER)?));
    }
    if sign == b'@' {
        let cell = read_number(digits, u64::from(u32::MAX))?;
        return Ok(Field::Cell(cell as u32));
    }
    Err(ScheduleKind::BadNumber)
}

/// A word as a number of at most this size.
pub(crate) fn read_number(word: &[u8], most: u64) -> Result<u64, ScheduleKind>
    ensures number { result ≡ number_to most word.now }
{
    match read_digits(word, 19) {
        Some(number) if number <= most => Ok(number),
        _ => Err(ScheduleKind::BadNumber),
    }
}

/// The greatest number in a field.
const GREATEST_NUMBER: u64 = (1 << 62) - 1;
