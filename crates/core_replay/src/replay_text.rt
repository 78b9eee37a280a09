//! The lines that a replay writes, each with its line feed.
ghost use Rattle.line_texts.specs.CellTexts.{colour_text, field_text};
ghost use Rattle.core_machine.specs.State.{State};
ghost use Rattle.core_replay.specs.ReplayText.{cell_line_of, ending_line};
ghost use Rattle.core_replay.specs.ReplayText.{fields_text, not_now_line, six_texts};
ghost use Rattle.std.specs.Prelude.{IfOk, codes, string_bytes, ◌++◌, ◌<◌, ◌≡◌};

use dlg_core::{Core, NoMemory};
use line_texts::{colour_text, with_field};
use std::alloc::Global;

/// The line of a cell.
pub(crate) fn cell_line(alloc: Global, core: &Core, cell: u32) -> Result<String, NoMemory>
    requires { cell < core.now.cells }
    ensures { IfOk result (λ text. string_bytes text ≡ cell_line_of core.now cell) }
{
    let colour = colour_text(core.colour(cell));
    let fields = fields_said(alloc, core, cell)?;
    let freed = core.freed(cell);
    format!(in alloc; "cell {cell} {colour}{fields} freed {freed}\n")
}

// The fields of the cell, each after a space.
fn fields_said(alloc: Global, core: &Core, cell: u32) -> Result<String, NoMemory>
    requires { cell < core.now.cells }
    ensures { IfOk result (λ text. string_bytes text ≡ codes " " ++ fields_text core.now cell) }
{
    let mut text = String::new(alloc);
    for i in 0..6 {
        text = with_field(alloc, text, core.field(cell, i))?;
    }
    Ok(text)
}

/// The line of a step that cannot be taken, by the number of its own line.
pub(crate) fn refusal_line(alloc: Global, line: u32) -> Result<String, NoMemory>
    ensures { IfOk result (λ text. string_bytes text ≡ not_now_line line) }
{
    format!(in alloc; "not now {line}\n")
}

/// The last two lines: how many events were taken, and how many cells are blue.
pub(crate) fn last_lines(alloc: Global, taken: u64, free: u32) -> Result<String, NoMemory>
    ensures { IfOk result (λ text. string_bytes text ≡ ending_line taken free) }
{
    format!(in alloc; "done {taken}\nfree {free}\n")
}
