//! What is in the cells of a closed heap.
ghost use Rattle.std.specs.Prelude.{◌<◌};

use crate::counting::run_of;
use cell_heap::Image;
use cell_words::Colour;
use cell_words::Field::{self, Null, Num};
use outside::OpenGate;
use std::alloc::Global;
use std::sync::Wait;
use std::test::Fail;
use std::thread::Threads;

/// The payload of a cell and its kind.
fn fields_of(image: &Image, cell: u32) -> [Field; 6]
    requires cell { cell < image.now.cells }
{
    [
        image.field(cell, 0),
        image.field(cell, 1),
        image.field(cell, 2),
        image.field(cell, 3),
        image.field(cell, 4),
        image.field(cell, 5),
    ]
}

/// How many used cells have these fields.
fn count_of(image: &Image, fields: &[Field; 6]) -> u32 {
    let mut found = 0u32;
    for cell in 0..image.cells() {
        if image.colour(cell) != Colour::Blue && fields_of(image, cell) == *fields {
            found = found.saturating_add(1);
        }
    }
    found
}

/// How many cells have these fields in the end, where a hello was put.
fn cells_of_hello<R: Threads + Wait + Sync>(
    alloc: Global,
    rt: &R,
    fields: &[Field; 6],
) -> Result<u32, Fail> {
    let finished = run_of(alloc, rt, 1, b"put a hello\n", 0, &OpenGate)?;
    Ok(count_of(&finished.image, fields))
}

#[test]
fn the_cell_of_a_text_has_its_length_its_bytes_and_its_kind(rt: HostRuntime) -> Result<(), Fail> {
    let hello = [Num(5), Num(478_560_413_032), Num(0), Num(0), Null, Num(1)];
    assert_eq!(rt; cells_of_hello(rt.alloc(), &rt, &hello)?, 1);
    Ok(())
}
