//! Fields.
ghost use Rattle.line_texts.specs.CellTexts.{field_text};
ghost use Rattle.cell_words.specs.Field.{IsValidField};
ghost use Rattle.cell_words.specs.declared.fields.Field.{Field};
ghost use Rattle.cell_words.specs.declared.fields.Field.TheVariants as field;
ghost use Rattle.std.specs.Prelude.{IfOk, IfSome, Some, codes, decimal, string_bytes, ℕ, ◌++◌};
ghost use Rattle.std.specs.Prelude.{◌<◌, ◌^◌, ◌≡◌, ◌∷◌};

use crate::cell_numbers::read_number;
use cell_words::Field;
use std::alloc::{AllocError, Global};

/// A text with a space and the field's text after it.
pub fn with_field(alloc: Global, text: String, field: Field) -> Result<String, AllocError>
    ensures { IfOk result
        (λ all. string_bytes all ≡ string_bytes text ++ (codes " " ++ field_text field)) }
{
    match field {
        Field::Null => format!(in alloc; "{text} -"),
        Field::Num(number) => format!(in alloc; "{text} ={number}"),
        Field::Cell(cell) => format!(in alloc; "{text} @{cell}"),
    }
}

/// The field that a word is, if it is that of one with a word of the heap.
pub fn read_field(word: &[u8]) -> Option<Field>
    ensures valid { IfSome result IsValidField }
    ensures text { IfSome result (λ field. field_text field ≡ word.now) }
    ensures read { (field : Field) → IsValidField field → field_text field ≡ word.now
        → result ≡ Some field }
{
    match word {
        [b'-'] => Some(Field::Null),
        [b'=', digits @ ..] => read_value(digits),
        [b'@', digits @ ..] => read_cell(digits),
        _ => None,
    }
}

fn read_value(digits: &[u8]) -> Option<Field>
    ensures valid { IfSome result IsValidField }
    ensures text { IfSome result (λ field. field_text field ≡ 61 ∷ digits.now) }
    ensures read { (n : ℕ) → n < 2 ^ 62 → decimal n ≡ digits.now → result ≡ Some (field.Num n) }
{
    let number = read_number(digits, GREATEST_NUMBER)?;
    Some(Field::Num(number))
}

fn read_cell(digits: &[u8]) -> Option<Field>
    ensures valid { IfSome result IsValidField }
    ensures text { IfSome result (λ field. field_text field ≡ 64 ∷ digits.now) }
    ensures read { (n : ℕ) → n < 2 ^ 32 → decimal n ≡ digits.now → result ≡ Some (field.Cell n) }
{
    let cell = read_number(digits, u64::from(u32::MAX))?;
    Some(Field::Cell(cell as u32))
}

/// The greatest number in a field.
const GREATEST_NUMBER: u64 = (1 << 62) - 1;
