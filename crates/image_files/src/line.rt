//! One line of a heap file.
ghost use Rattle.image_files.specs.Line.{below, cell_in, colour_in, field_in, fields_in, head_of};
ghost use Rattle.image_files.specs.Line.{kept, line_of, sized};
ghost use Rattle.line_texts.specs.Lines.{is_missing};
ghost use Rattle.std.specs.Prelude.{Some, ◌≡◌};

use crate::fault::ImageKind;
use cell_words::{Colour, Field, GREATEST_POSITION};
use line_texts::{first_word, is_missing, next_word, read_colour, read_decimal, read_field};

/// A cell in use, as its line has it.
#[derive(Clone, Copy)]
pub(crate) struct CellLine {
    pub cell: u32,
    pub colour: Colour,
    pub fields: [Field; 6],
}

/// What a line after the head holds.
#[derive(Clone, Copy)]
pub(crate) enum Held {
    End,
    Cell(CellLine),
}

/// The number of cells in a head.
pub(crate) fn read_head(line: &[u8]) -> Option<u32>
    ensures { result ≡ head_of line.now }
{
    let digits = line.strip_prefix(b"image 1 ".as_slice())?;
    sized(read_decimal(digits, 7)?)
}

fn sized(cells: u64) -> Option<u32>
    ensures { result ≡ sized (Some cells) }
{
    if cells < 64 || cells > u64::from(GREATEST_POSITION) {
        return None;
    }
    Some(cells as u32)
}

/// A line of a file with so many cells.
pub(crate) fn read_line(size: u32, line: &[u8], has_feed: bool) -> Result<Held, ImageKind>
    ensures { result ≡ line_of size has_feed line.now }
{
    if is_missing(line, has_feed) {
        return Err(ImageKind::BadEnd);
    }
    if !has_feed {
        return Err(ImageKind::BadLine);
    }
    if line == b"end".as_slice() {
        return Ok(Held::End);
    }
    match read_cell(size, line) {
        Some(cell) => Ok(Held::Cell(cell)),
        None => Err(ImageKind::BadLine),
    }
}

fn read_cell(size: u32, line: &[u8]) -> Option<CellLine>
    ensures { result ≡ cell_in size line.now }
{
    let (number, rest) = first_word(line);
    let (word, rest) = next_word(rest);
    let cell = below(size, read_decimal(number, 19)?)?;
    let colour = colour_in(word)?;
    let fields = fields_in(size, rest)?;
    Some(CellLine {
        cell,
        colour,
        fields,
    })
}

fn below(size: u32, cell: u64) -> Option<u32>
    ensures { result ≡ below size (Some cell) }
{
    if cell >= u64::from(size) {
        return None;
    }
    Some(cell as u32)
}

// The colour of a cell in use.
fn colour_in(word: &[u8]) -> Option<Colour>
    ensures { result ≡ colour_in word.now }
{
    match read_colour(word) {
        None => None,
        Some(Colour::Blue) => None,
        Some(colour) => Some(colour),
    }
}

// Six fields, each after a space.
fn fields_in(size: u32, rest: &[u8]) -> Option<[Field; 6]>
    ensures { result ≡ fields_in size 6 rest.now }
{
    let (first, rest) = next_word(rest);
    let (second, rest) = next_word(rest);
    let (third, rest) = next_word(rest);
    let (fourth, rest) = next_word(rest);
    let (fifth, rest) = next_word(rest);
    let (kind, rest) = next_word(rest);
    let fields = [
        field_in(size, first)?,
        field_in(size, second)?,
        field_in(size, third)?,
        field_in(size, fourth)?,
        field_in(size, fifth)?,
        field_in(size, kind)?,
    ];
    if !rest.is_empty() {
        return None;
    }
    Some(fields)
}

// The field of a heap with so many cells.
fn field_in(size: u32, word: &[u8]) -> Option<Field>
    ensures { result ≡ field_in size word.now }
{
    match read_field(word) {
        None => None,
        Some(field) => kept(size, field),
    }
}

// The field, if it names no cell past the last.
fn kept(size: u32, field: Field) -> Option<Field>
    ensures { result ≡ kept size field }
{
    match field {
        Field::Cell(cell) if cell >= size => None,
        _ => Some(field),
    }
}
