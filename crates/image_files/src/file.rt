//! The cells of a heap file, as its lines show them.
//!
//! There is a place for each cell. A search among the lines would do with less memory, but a census
//! keeps flags for each cell anyway.
ghost use Rattle.cell_words.specs.declared.controls.TheConstants.{GREATEST_POSITION};
ghost use Rattle.image_files.specs.File.{FileView, IsFile, LineFits, ShowsFile, file_fits};
ghost use Rattle.image_files.specs.File.{line_for, line_number, place_of};
ghost use Rattle.std.specs.Prelude.{IfOk, OnOk, [], length, ◌++◌, ◌+◌, ◌<◌, ◌≡◌, ◌≤◌, ◌∷◌};

use crate::line::CellLine;
use cell_words::{Colour, Field};
use heap_census::{Cells, NoMemory};
use std::alloc::Global;
use std::marker::Model;

/// The lines that were read, and for each cell the place of its line among them.
#[derive(Drop)]
pub(crate) struct ImageFile {
    size: u32,
    least: u32,
    lines: Vec<CellLine>,
    places: Vec<Option<u32>>,
}

impl Model for ImageFile {
    ghost use Rattle.image_files.specs.File.{FileView};

    ghost Value = { FileView };

    ghost view = { λ f. record {
      size = f.size;
      least = f.least;
      lines = f.lines.items;
      places = f.places.items;
    } };
}

impl ImageFile {
    /// Of so many cells none has a line yet.
    pub(crate) fn new(alloc: Global, size: u32) -> Result<ImageFile, NoMemory>
        requires some { 0 < size }
        requires few { size ≤ GREATEST_POSITION }
        ensures size { IfOk result (λ file. file.size ≡ size) }
        ensures lines { IfOk result (λ file. file.lines ≡ []) }
        ensures file { IfOk result IsFile }
    {
        let lines = Vec::new(alloc);
        let places = vec![in alloc; None; size as usize]?;
        Ok(ImageFile {
            size,
            least: 0,
            lines,
            places,
        })
    }

    /// How many cells there are.
    pub(crate) fn size(&self) -> u32
        ensures { result ≡ self.now.size }
    {
        self.size
    }

    /// The least number that the next line may have.
    pub(crate) fn least(&self) -> u32
        ensures { result ≡ self.now.least }
    {
        self.least
    }

    /// How many lines there are.
    pub(crate) fn count(&self) -> u32
        requires { IsFile self.now }
        ensures count { result ≡ length self.now.lines }
        ensures few { result ≤ GREATEST_POSITION }
    {
        self.lines.len() as u32
    }

    /// One line more.
    pub(crate) fn push(&mut self, line: CellLine) -> Result<(), NoMemory>
        requires file { IsFile self.old }
        requires fits { LineFits self.old.size line }
        requires order { self.old.least ≤ line.cell }
        ensures size { OnOk result (self.new.size ≡ self.old.size) }
        ensures lines { OnOk result (self.new.lines ≡ self.old.lines ++ line ∷ []) }
        ensures file { OnOk result (IsFile self.new) }
    {
        let place = self.count();
        self.lines.push(line)?;
        self.places[line.cell as usize] = Some(place);
        self.least = line.cell + 1;
        Ok(())
    }

    /// The number of the cell's line in the file, which has a head before the lines of cells. It is
    /// 1 where the cell has none.
    pub(crate) fn line_of(&self, cell: u32) -> u32
        requires { IsFile self.now }
        ensures { result ≡ line_number self.now.lines cell }
    {
        match self.place_of(cell) {
            Some(place) => place + 2,
            None => 1,
        }
    }

    // The place of the cell's line among the lines of cells.
    fn place_of(&self, cell: u32) -> Option<u32>
        ensures { IsFile self.now → result ≡ place_of self.now.lines cell }
    {
        match self.places.get(cell as usize) {
            Some(place) => *place,
            None => None,
        }
    }

    // The cell's line.
    fn line_for(&self, cell: u32) -> Option<CellLine>
        ensures { IsFile self.now → result ≡ line_for self.now.lines cell }
    {
        match self.place_of(cell) {
            Some(place) => self.lines.get(place as usize).copied(),
            None => None,
        }
    }
}

impl Cells for ImageFile {
    ghost shows = { λ f h. ShowsFile f h };

    ghost size = { λ f. f.size };

    ghost fits = { λ f h shows. file_fits f h shows };

    fn cells(&self) -> u32 {
        self.size
    }

    fn colour(&self, cell: u32) -> Colour {
        match self.line_for(cell) {
            Some(line) => line.colour,
            None => Colour::Blue,
        }
    }

    fn field(&self, cell: u32, i: usize) -> Field {
        match self.line_for(cell) {
            Some(line) => line.fields[i],
            None => Field::Null,
        }
    }
}
