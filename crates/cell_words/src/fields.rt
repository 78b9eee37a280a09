ghost use Rattle.cell_words.specs.Field.{IsFieldWord, IsValidField, pack_field_of};
ghost use Rattle.cell_words.specs.declared.fields.Field.{Field};
ghost use Rattle.std.specs.Prelude.{IfSome, IsSome, Some, ◌≡◌, ◌↔◌};

/// What stands in one of a cell's six field words.
#[derive(Clone, Copy, Debug, PartialEq, Eq)]
pub enum Field {
    Null,
    /// a number below 2^62
    Num(u64),
    /// the index of a cell
    Cell(u32),
}

/// What a cell is once its payload stands. Field 5 holds it as a number: 1 for a record and 2 for
/// a box.
#[derive(Clone, Copy, Debug, PartialEq, Eq)]
pub enum Kind {
    /// its payload never changes again
    Record,
    /// its payload may be written by every mutator that reaches it
    Boxed,
}

/// The six fields of a cell: the payload 0 to 4, and the kind in field 5.
pub type Row = [Field; 6];

/// The word of a field. Its two low bits say which of the three it is.
pub fn pack_field(field: Field) -> u64
    requires { IsValidField field }
    ensures word { result ≡ pack_field_of field }
{
    match field {
        Field::Null => 0,
        Field::Num(number) => 4 * number + 1,
        Field::Cell(cell) => 4 * u64::from(cell) + 2,
    }
}

/// The field that a word is, if it is one's.
pub fn unpack_field(word: u64) -> Option<Field>
    ensures valid { IfSome result IsValidField }
    ensures found { IfSome result (λ field. pack_field_of field ≡ word) }
    ensures packed { (field : Field) → IsValidField field → pack_field_of field ≡ word → result ≡ Some field }
    ensures some { IsSome result ↔ IsFieldWord word }
{
    let rest = word / 4;
    match word % 4 {
        0 if rest == 0 => Some(Field::Null),
        1 => Some(Field::Num(rest)),
        2 if rest <= u64::from(u32::MAX) => Some(Field::Cell(rest as u32)),
        _ => None,
    }
}
