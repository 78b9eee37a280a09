//! Cells as text.
ghost use Rattle.heap_census.specs.Heap.{Heap};
ghost use Rattle.heap_census.specs.ImageText.{cell_line, image_text};
ghost use Rattle.std.specs.Prelude.{IfOk, string_bytes, ◌<◌, ◌≡◌};

use crate::checking::is_free;
use crate::reading::Cells;
use heap_table::NoMemory;
use line_texts::{colour_text, with_field};
use std::alloc::Global;

/// The text of any cells that nobody changes any more: a head with their number, a line for each in
/// use, and an end.
pub fn text_of<C: Cells>(alloc: Global, cells: &C) -> Result<Vec<u8>, NoMemory>
    ensures { IfOk result (λ text. (h : Heap) → C.shows cells.now h → text.items ≡ image_text h) }
{
    let count = cells.cells();
    let mut text = Vec::new(alloc);
    let head = format!(in alloc; "image 1 {count}\n")?;
    text.extend_from_slice(head.as_bytes())?;
    for cell in 0..count {
        if !is_free(cells.colour(cell)) {
            let line = line_of(alloc, cells, cell)?;
            text.extend_from_slice(line.as_bytes())?;
        }
    }
    text.extend_from_slice(b"end\n")?;
    Ok(text)
}

// The line of a cell.
fn line_of<C: Cells>(alloc: Global, cells: &C, cell: u32) -> Result<String, NoMemory>
    requires { cell < C.size cells.now }
    ensures { IfOk result (λ line. (h : Heap) → C.shows cells.now h
        → string_bytes line ≡ cell_line h cell) }
{
    let colour = colour_text(cells.colour(cell));
    let mut line = format!(in alloc; "{cell} {colour}")?;
    for i in 0..6 {
        line = with_field(alloc, line, cells.field(cell, i))?;
    }
    line.push_str("\n")?;
    Ok(line)
}
