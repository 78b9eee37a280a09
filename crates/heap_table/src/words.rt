//! What a number found in a word of a heap stands for, where it is known to be a word of such a
//! value.
ghost use Rattle.std.specs.Prelude.{◌≡◌, IsTrue};
ghost use Rattle.cell_words.specs.Colour.{IsColourWord, pack_colour_of};
ghost use Rattle.cell_words.specs.Control.{IsControlWord, IsValidControl, pack_control_of};
ghost use Rattle.cell_words.specs.Field.{IsFieldWord, IsValidField, pack_field_of};
ghost use Rattle.cell_words.specs.Presence.{IsPresenceWord, is_valid_presence, pack_presence_of};
ghost use Rattle.cell_words.specs.declared.colours.Colour.{Colour};
ghost use Rattle.cell_words.specs.declared.controls.Control.{Control};
ghost use Rattle.cell_words.specs.declared.fields.Field.{Field};
ghost use Rattle.cell_words.specs.declared.presences.Presence.{Presence};

use cell_words::{
    Colour, Control, Field, Presence, unpack_colour, unpack_control, unpack_field, unpack_presence,
};

/// The control whose word it is.
pub fn control_of(word: u64) -> Control
    requires { IsControlWord word }
    ensures valid { IsValidControl result }
    ensures control { (control : Control) → IsValidControl control → pack_control_of control ≡ word
        → result ≡ control }
{
    match unpack_control(word) {
        Some(control) => control,
        None => unreachable!(),
    }
}

/// The presence whose word it is.
pub fn presence_of(word: u64) -> Presence
    requires { IsPresenceWord word }
    ensures presence { (presence : Presence) → IsTrue (is_valid_presence presence)
        → pack_presence_of presence ≡ word → result ≡ presence }
{
    match unpack_presence(word) {
        Some(presence) => presence,
        None => unreachable!(),
    }
}

/// The colour whose word it is.
pub fn colour_of(word: u64) -> Colour
    requires { IsColourWord word }
    ensures colour { (colour : Colour) → pack_colour_of colour ≡ word → result ≡ colour }
{
    match unpack_colour(word) {
        Some(colour) => colour,
        None => unreachable!(),
    }
}

/// The field whose word it is.
pub fn field_of(word: u64) -> Field
    requires { IsFieldWord word }
    ensures field { (field : Field) → IsValidField field → pack_field_of field ≡ word → result ≡ field }
{
    match unpack_field(word) {
        Some(field) => field,
        None => unreachable!(),
    }
}
