//! How far the collector is, as far as its code has to know it.
ghost use Rattle.cell_heap.specs.Progress.{changed};
ghost use Rattle.core_machine.specs.Collector.{posted, restarted, scan_shaded, scanned, seen};
ghost use Rattle.core_machine.specs.Collector.{sweep_of, wiped};
ghost use Rattle.core_machine.specs.Sweep.{wiped_count};
ghost use Rattle.core_machine.specs.Tracing.{child_or_anchor, scan_or_none};
ghost use Rattle.std.specs.Prelude.{◌≡◌, ◌<◌, ◌≤◌};

use cell_words::{Colour, Field, Stage};
use core_machine::{Scanning, Sweeping};

/// What the code keeps at hand of the collector's own part: what its next operation depends on, and
/// the count of freed cells.
#[derive(Clone, Copy)]
pub(crate) struct Progress {
    /// the cell that clearing, or this pass of tracing, has come to
    pub cursor: u32,
    /// this pass of tracing has met no gray cell
    pub clean: bool,
    /// the scan of a gray cell
    pub scan: Option<Scanning>,
    /// the sweep of the cell at the position
    pub sweep: Sweeping,
    /// how many cells were freed in all
    pub freed: u64,
}

impl Progress {
    /// Goes on to a stage.
    pub fn post(&mut self, stage: Stage)
        ensures posted { self.new ≡ changed (λ part. posted part stage) self.old }
    {
        match stage {
            Stage::Idle | Stage::Sync1 | Stage::Sync2 => {}
            Stage::Clear => self.cursor = 0,
            Stage::Trace => {
                self.cursor = 0;
                self.clean = true;
            }
            Stage::Sweep => self.sweep = Sweeping::Fresh,
        }
    }
    /// Passes a cell of a colour: on to its scan if it is gray, otherwise past it where the pass
    /// has come to it. A pass that met gray and has come to the end starts over.
    pub fn see(&mut self, cells: u32, cell: u32, colour: Colour)
        requires below { cell < cells }
        ensures seen { self.new
            ≡ changed (λ part. seen (restarted part cells) cell colour) self.old }
    {
        if self.cursor == cells && !self.clean {
            self.cursor = 0;
            self.clean = true;
        }
        match colour {
            Colour::Gray => {
                self.clean = false;
                self.scan = Some(Scanning {
                    cell,
                    next: 0,
                    child: None,
                });
            }
            Colour::Blue | Colour::White | Colour::Black => {
                if cell == self.cursor {
                    self.cursor += 1;
                }
            }
        }
    }
}

/// The scan that goes on; one with nothing left to do where there is none.
pub(crate) fn scan_or_none(scan: Option<Scanning>) -> Scanning
    ensures scan { result ≡ scan_or_none scan }
{
    match scan {
        Some(scan) => scan,
        None => Scanning {
            cell: 0,
            next: 5,
            child: None,
        },
    }
}

/// The cell that is left to be shaded; the anchor where there is none.
pub(crate) fn child_or_anchor(child: Option<u32>) -> u32
    ensures child { result ≡ child_or_anchor child }
{
    match child {
        Some(child) => child,
        None => 0,
    }
}

/// The scan after a load of its next field.
pub(crate) fn scanned(scan: Scanning, found: Field) -> Scanning
    requires { scan.next < 6 }
    ensures scan { result ≡ scanned scan found }
{
    match found {
        Field::Cell(cell) => Scanning {
            child: Some(cell),
            ..scan
        },
        Field::Null | Field::Num(_) => Scanning {
            next: scan.next + 1,
            ..scan
        },
    }
}

/// The scan after its child is shaded.
pub(crate) fn scan_shaded(scan: Scanning) -> Scanning
    requires { scan.next < 6 }
    ensures scan { result ≡ scan_shaded scan }
{
    Scanning {
        next: scan.next + 1,
        child: None,
        ..scan
    }
}

/// What is to be done with a cell of a colour at the position.
pub(crate) fn sweep_of(colour: Colour) -> Sweeping
    ensures sweep { result ≡ sweep_of colour }
{
    match colour {
        Colour::Blue => Sweeping::Done,
        Colour::White => Sweeping::Wiping(0),
        Colour::Gray => Sweeping::Fresh,
        Colour::Black => Sweeping::BlackFound,
    }
}

/// How many fields of the cell at the position are null; 6 where it is not being wiped.
pub(crate) fn wiped_count(sweep: Sweeping) -> usize
    ensures count { result ≡ wiped_count sweep }
{
    match sweep {
        Sweeping::Wiping(count) => count,
        Sweeping::Fresh | Sweeping::BlackFound | Sweeping::Done => 6,
    }
}

/// The sweep after one field more is null.
pub(crate) fn wiped(sweep: Sweeping) -> Sweeping
    requires { wiped_count sweep ≤ 6 }
    ensures sweep { result ≡ wiped sweep }
{
    match sweep {
        Sweeping::Wiping(count) => Sweeping::Wiping(count + 1),
        Sweeping::Fresh | Sweeping::BlackFound | Sweeping::Done => sweep,
    }
}
