//! The machine at its opening.
ghost use Rattle.cell_words.specs.declared.colours.Colour.TheVariants as colour;
ghost use Rattle.core_machine.specs.InRange.{InRange, rows_name_below};
ghost use Rattle.core_machine.specs.State.{greatest_cells, null_row, opening};
ghost use Rattle.std.specs.Prelude.{IfOk, IsTrue, length, replicate, ◌++◌, ◌-◌, ◌<◌, ◌≡◌, ◌≤◌};

use crate::NoMemory;
use crate::collector_part::CollectorPart;
use crate::machine::Machine;
use crate::mutator_parts::MutatorParts;
use cell_words::{Colour, Control, Field, Presence, Row, Stage, Status};
use std::alloc::Global;

impl Machine {
    /// A heap of so many cells, of which the first have the given rows, for so many mutators that
    /// may each hold `room` cells.
    pub fn open(
        alloc: Global,
        cells: u32,
        mutators: u32,
        room: u32,
        first: &[Row],
    ) -> Result<Machine, NoMemory>
        requires some_cells { 0 < cells }
        requires few_cells { cells ≤ greatest_cells }
        requires room { 0 < room }
        requires rows { length first.now ≤ cells }
        requires names { IsTrue (rows_name_below cells first.now) }
        ensures opening { IfOk result (λ machine.
            machine ≡ opening cells (replicate mutators room) first.now) }
        ensures range { IfOk result InRange }
    {
        Machine::with_rows(alloc, cells, mutators, room, first)
    }

    fn with_rows(
        alloc: Global,
        cells: u32,
        mutators: u32,
        room: u32,
        first: &[Row],
    ) -> Result<Machine, NoMemory>
        requires room { 0 < room }
        requires rows { length first.now ≤ cells }
        ensures opening { IfOk result (λ machine.
            machine ≡ opening cells (replicate mutators room) first.now) }
    {
        let colours = opening_colours(alloc, cells as usize, first.len())?;
        let rows = opening_rows(alloc, cells as usize, first)?;
        let out = Presence {
            status: Status::Async,
            inside: false,
            over: false,
        };
        let presences = vec![in alloc; out; mutators as usize]?;
        let parts = MutatorParts::new(alloc, mutators, room as usize)?;
        let control = Control {
            stage: Stage::Idle,
            position: 0,
            cycles: 0,
            duty: false,
        };
        let collector = CollectorPart::new(alloc, cells, mutators)?;
        Ok(Machine {
            cells,
            colours,
            rows,
            mutators,
            presences,
            parts,
            control,
            collector,
        })
    }
}

/// White for each first row, and blue for the other cells.
fn opening_colours(alloc: Global, cells: usize, rows: usize) -> Result<Vec<Colour>, NoMemory>
    requires { rows ≤ cells }
    ensures colours { IfOk result (λ colours. colours.items
        ≡ replicate rows colour.White ++ replicate (cells - rows) colour.Blue) }
{
    let mut colours = Vec::with_capacity(alloc, cells)?;
    colours.resize(rows, Colour::White)?;
    colours.resize(cells, Colour::Blue)?;
    Ok(colours)
}

/// The first rows, and null fields for the other cells.
fn opening_rows(alloc: Global, cells: usize, first: &[Row]) -> Result<Vec<Row>, NoMemory>
    requires { length first.now ≤ cells }
    ensures rows { IfOk result (λ rows. rows.items
        ≡ first.now ++ replicate (cells - length first.now) null_row) }
{
    let mut rows = Vec::with_capacity(alloc, cells)?;
    rows.extend_from_slice(first)?;
    rows.resize(cells, [Field::Null; 6])?;
    Ok(rows)
}
