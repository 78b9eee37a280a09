//! Where a word lies in the table.
ghost use Rattle.std.specs.Prelude.{◌≡◌, ◌<◌, ℕ};
ghost use Rattle.core_machine.specs.Table.{ColourOf, FieldOf, StatusOf, index_of};

/// The control's word.
pub(crate) const CONTROL: usize = 0;

/// The status word of a mutator.
pub(crate) fn status_word(mutator: u32) -> usize
    ensures index { (mutators : ℕ) → result ≡ index_of mutators (StatusOf mutator) }
{
    1 + mutator as usize
}

/// The colour word of a cell.
pub(crate) fn colour_word(mutators: u32, cell: u32) -> usize
    ensures index { result ≡ index_of mutators (ColourOf cell) }
{
    1 + mutators as usize + 7 * cell as usize
}

/// The word of a field of a cell.
pub(crate) fn field_word(mutators: u32, cell: u32, field: usize) -> usize
    requires field { field < 6 }
    ensures index { result ≡ index_of mutators (FieldOf cell field) }
{
    1 + mutators as usize + 7 * cell as usize + 1 + field
}
