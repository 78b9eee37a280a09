//! The cells of a closed heap, as rows show them.
use cell_heap::Image;
use cell_words::Field::{Cell, Null, Num};
use cell_words::Row;

/// The fields of the first four cells of a closed heap, where it has them.
pub(crate) type Cells = [Option<Row>; 4];

/// The cells that may turn up: the anchor, the copies of both records, and a free cell.
pub(crate) const ANCHOR: Option<Row> = Some([Num(0), Null, Null, Null, Null, Num(2)]);

pub(crate) const FIRST: Option<Row> = Some([Num(5), Null, Null, Null, Null, Num(1)]);

pub(crate) const SECOND: Option<Row> = Some([Cell(1), Cell(1), Null, Null, Null, Num(1)]);

pub(crate) const FREE: Option<Row> = Some([Null, Null, Null, Null, Null, Null]);

/// The fields of a cell, where there is such a cell.
fn row_of(image: &Image, cell: u32) -> Option<Row> {
    if cell >= image.cells() {
        return None;
    }
    Some([
        image.field(cell, 0),
        image.field(cell, 1),
        image.field(cell, 2),
        image.field(cell, 3),
        image.field(cell, 4),
        image.field(cell, 5),
    ])
}

pub(crate) fn cells_of(image: &Image) -> Cells {
    [
        row_of(image, 0),
        row_of(image, 1),
        row_of(image, 2),
        row_of(image, 3),
    ]
}
