//! Making a heap.
ghost use Rattle.std.specs.Prelude.{◌≡◌, ◌≤◌, ◌<◌, ◌++◌, ◌∷◌, ◌+◌, ◌*◌, IfOk, OnOk, All, IsTrue, length, ℕ};
ghost use Rattle.cell_words.specs.Field.{IsValidField};
ghost use Rattle.cell_words.specs.declared.fields.Field.{Field};
ghost use Rattle.core_machine.specs.State.{greatest_cells};
ghost use Rattle.dlg_core.specs.FirstRows.{are_first_rows};
ghost use Rattle.heap_rule.specs.Opening.{opening_view};
ghost use Rattle.heap_rule.specs.Shape.{Shape};
ghost use Rattle.heap_table.specs.Opening.{Opens, opening_words, row_words, rows_words};

use crate::NoMemory;
use crate::heap::{CellHeap, HeapSeat};
use atomic_table::Table;
use cell_words::{
    Colour, Control, Presence, Row, Stage, Status, pack_colour, pack_control, pack_field,
    pack_presence,
};
use heap_rule::{HeapShape, Keeping};
use std::alloc::Global;

/// Adds the words of a first row.
fn push_row(row: &Row, words: &mut Vec<u64>) -> Result<(), NoMemory>
    requires { All IsValidField row.now }
    ensures words { OnOk result (words.new.items ≡ words.old.items ++ row_words row.now) }
{
    words.push(pack_colour(Colour::White))?;
    for field in row {
        words.push(pack_field(*field))?;
    }
    Ok(())
}

/// Adds the words of the first rows.

fn push_rows(first: &[Row], words: &mut Vec<u64>) -> Result<(), NoMemory>
    requires { All (All IsValidField) first.now }
    ensures words { OnOk result (words.new.items ≡ words.old.items ++ rows_words first.now) }
{
    for row in first {
        push_row(row, words)?;
    }
    Ok(())
}

/// The words of a heap at its opening.
fn words_at_opening(
    alloc: Global,
    cells: u32,
    mutators: u32,
    first: &[Row],
) -> Result<Vec<u64>, NoMemory>
    requires fields { All (All IsValidField) first.now }
    requires rows { length first.now ≤ cells }
    ensures words { IfOk result (λ words. (setting : ℕ) → words.items ≡ opening_words
        record { cells = cells; mutators = mutators; setting = setting; first = first.now }) }
{
    let status_words = 1 + mutators as usize;
    let mut words = Vec::with_capacity(alloc, status_words + 7 * cells as usize)?;
    words.push(pack_control(Control {
        stage: Stage::Idle,
        position: 0,
        cycles: 0,
        duty: false,
    }))?;
    let out = Presence {
        status: Status::Async,
        inside: false,
        over: false,
    };
    words.resize(status_words, pack_presence(out))?;
    push_rows(first, &mut words)?;
    let rest = 7 * (cells as usize - first.len());
    words.resize(words.len() + rest, 0)?;
    Ok(words)
}

impl<P: Keeping> CellHeap<P> {
    /// A heap of so many cells, of which the first have the given rows, with the collector's seat.
    /// The setting is a number for the opening passes alone.
    pub fn open(
        alloc: Global,
        cells: u32,
        mutators: u32,
        setting: u64,
        first: &[Row],
    ) -> Result<(CellHeap<P>, HeapSeat<P>), NoMemory>
        requires few_cells { cells ≤ greatest_cells }
        requires few_rows { length first.now ≤ cells }
        requires rows { IsTrue (are_first_rows first.now) }
        requires rule { Opens P.opening P.holds
            record { cells = cells; mutators = mutators; setting = setting; first = first.now } }
        ensures heap { IfOk result (λ made. made.0.shape
            ≡ record { cells = cells; mutators = mutators; setting = setting; first = first.now }) }
        ensures seat { IfOk result (λ made. made.1
            ≡ record { table = made.0.table; me = opening_view P.opening made.0.shape }) }
    {
        let words = words_at_opening(alloc, cells, mutators, first)?;
        let shape = HeapShape::new(alloc, cells, mutators, setting, first)?;
        let (table, seat) = Table::of_words(alloc, &words, &shape)?;
        Ok((
            CellHeap {
                table,
                cells,
                mutators,
            },
            HeapSeat { seat },
        ))
    }
}
