//! How far the collector is with one cell: with the fields of the cell under scan, and with the
//! cell at the position of the sweep.
ghost use Rattle.core_machine.specs.Collector.{scan_shaded, scanned, sweep_of};
ghost use Rattle.std.specs.Prelude.{◌+◌, ◌<◌, ◌≡◌, ◌^◌};

use cell_words::{Colour, Field};

/// The cell that the collector scans, and how far it is.
#[derive(Clone, Copy, Debug, PartialEq, Eq)]
pub struct Scanning {
    pub cell: u32,
    /// the field to be loaded next, 0 to 5; at 5 all are scanned
    pub next: usize,
    /// the cell that was found in the field `next`, until it is shaded
    pub child: Option<u32>,
}

/// How far the collector is with the cell at its position.
#[derive(Clone, Copy, Debug, PartialEq, Eq)]
pub enum Sweeping {
    /// its colour is not known
    Fresh,
    /// it was white, and this many of its fields are null
    Wiping(usize),
    /// it was black
    BlackFound,
    /// nothing is left to do
    Done,
}

/// The scan after a look at its next field: the cell in it is the child, and without one the scan
/// goes on.
pub(crate) fn scanned(scan: Scanning, found: Field) -> Scanning
    requires { scan.next + 1 < 2 ^ 64 }
    ensures scan { result ≡ scanned scan found }
{
    match found {
        Field::Cell(cell) => Scanning {
            child: Some(cell),
            ..scan
        },
        Field::Null | Field::Num(_) => Scanning {
            next: scan.next + 1,
            ..scan
        },
    }
}

/// The scan after its child is shaded.
pub(crate) fn scan_shaded(scan: Scanning) -> Scanning
    requires { scan.next + 1 < 2 ^ 64 }
    ensures scan { result ≡ scan_shaded scan }
{
    Scanning {
        next: scan.next + 1,
        child: None,
        ..scan
    }
}

/// What is to be done with a cell of a colour.
pub(crate) fn sweep_of(colour: Colour) -> Sweeping
    ensures sweep { result ≡ sweep_of colour }
{
    match colour {
        Colour::Blue => Sweeping::Done,
        Colour::White => Sweeping::Wiping(0),
        Colour::Gray => Sweeping::Fresh,
        Colour::Black => Sweeping::BlackFound,
    }
}
