ghost use Rattle.std.specs.Prelude.{◌≡◌, IfOk};

use crate::NoMemory;
use cell_words::Row;
use std::alloc::Global;
use std::marker::Model;

/// What is fixed of a heap when it is made: its numbers of cells and of mutators, the setting for
/// the opening passes, and the first rows.
#[derive(Drop)]
pub struct HeapShape {
    cells: u32,
    mutators: u32,
    setting: u64,
    first: Vec<Row>,
}

impl Model for HeapShape {
    ghost use Rattle.heap_rule.specs.Shape.{Shape};

    ghost Value = { Shape };

    ghost view = { λ h.
        record {
          cells = h.cells;
          mutators = h.mutators;
          setting = h.setting;
          first = h.first.items;
        } };
}

impl HeapShape {
    /// The shape with these numbers and first rows.
    pub fn new(
        alloc: Global,
        cells: u32,
        mutators: u32,
        setting: u64,
        first: &[Row],
    ) -> Result<HeapShape, NoMemory>
        ensures shape { IfOk result (λ shape. shape
            ≡ record { cells = cells; mutators = mutators; setting = setting; first = first.now }) }
    {
        let mut rows = Vec::with_capacity(alloc, first.len())?;
        rows.extend_from_slice(first)?;
        Ok(HeapShape {
            cells,
            mutators,
            setting,
            first: rows,
        })
    }
}
