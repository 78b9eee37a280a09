ghost use Rattle.cell_words.specs.Colour.{IsColourWord, pack_colour_of};
ghost use Rattle.cell_words.specs.declared.colours.Colour.{Colour};
ghost use Rattle.std.specs.Prelude.{IfSome, IsSome, Some, ◌≡◌, ◌↔◌};

/// What the collector knows of a cell. It stands in the cell's first word.
#[derive(Clone, Copy, Debug, PartialEq, Eq)]
pub enum Colour {
    /// free: in use by nobody, all six fields null
    Blue,
    /// not reached in this cycle
    White,
    /// reached, and its fields not all read
    Gray,
    /// reached, and its fields read
    Black,
}

/// The word of a colour.
pub fn pack_colour(colour: Colour) -> u64
    ensures word { result ≡ pack_colour_of colour }
{
    match colour {
        Colour::Blue => 0,
        Colour::White => 1,
        Colour::Gray => 2,
        Colour::Black => 3,
    }
}

/// The colour that a word is, if it is one's.
pub fn unpack_colour(word: u64) -> Option<Colour>
    ensures found { IfSome result (λ colour. pack_colour_of colour ≡ word) }
    ensures packed { (colour : Colour) → pack_colour_of colour ≡ word → result ≡ Some colour }
    ensures some { IsSome result ↔ IsColourWord word }
{
    match word {
        0 => Some(Colour::Blue),
        1 => Some(Colour::White),
        2 => Some(Colour::Gray),
        3 => Some(Colour::Black),
        _ => None,
    }
}
