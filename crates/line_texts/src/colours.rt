//! Colours.
ghost use Rattle.line_texts.specs.CellTexts.{colour_text};
ghost use Rattle.cell_words.specs.declared.colours.Colour.{Colour};
ghost use Rattle.std.specs.Prelude.{IfSome, Some, ◌≡◌};

use cell_words::Colour;

/// The word for a colour.
pub fn colour_text(colour: Colour) -> &'static str
    ensures { result.now ≡ colour_text colour }
{
    match colour {
        Colour::Blue => "blue",
        Colour::White => "white",
        Colour::Gray => "gray",
        Colour::Black => "black",
    }
}

/// The colour that a word is, if it is one's.
pub fn read_colour(word: &[u8]) -> Option<Colour>
    ensures text { IfSome result (λ colour. colour_text colour ≡ word.now) }
    ensures read { (colour : Colour) → colour_text colour ≡ word.now → result ≡ Some colour }
{
    match word {
        b"blue" => Some(Colour::Blue),
        b"white" => Some(Colour::White),
        b"gray" => Some(Colour::Gray),
        b"black" => Some(Colour::Black),
        _ => None,
    }
}
