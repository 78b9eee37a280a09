//! What the collector's handle tells of the collector.
ghost use Rattle.std.specs.Prelude.{◌≡◌};
ghost use Rattle.heap_c.specs.Handles.{number_of};
ghost use Rattle.heap_c.specs.Seating.{when_there};

use crate::codes::Code;
use crate::keeper::HeapCol;
use cell_words::Stage;

/// Where the collector is, and what its moves came to, in the memory of C.
#[repr(C)]
#[derive(Clone, Copy, Drop)]
pub struct HeapStats {
    pub(crate) cycles: u32,
    pub(crate) stage: u32,
    pub(crate) heard: u32,
    pub(crate) asks: u32,
    pub(crate) freed: u64,
    pub(crate) free_about: u64,
    pub(crate) passes: u64,
    pub(crate) scanned: u64,
    pub(crate) stacked: u64,
    pub(crate) spilled: u64,
}

/// The number of a stage for C.
pub(crate) fn number_of(stage: Stage) -> u32 {
    match stage {
        Stage::Idle => 0,
        Stage::Sync1 => 1,
        Stage::Clear => 2,
        Stage::Sync2 => 3,
        Stage::Trace => 4,
        Stage::Sweep => 5,
    }
}

fn look(col: &mut HeapCol, out: &mut HeapStats) -> Code
    ensures told { result ≡ when_there col.old.collecting }
{
    match col.collecting() {
        None => Code::NoHandle,
        Some(keeper) => {
            *out = keeper.stats();
            Code::Ok
        }
    }
}

/// Tells where the collector is.
#[unsafe(no_mangle)]
pub extern "C" fn heap_look(col: &mut HeapCol, out: &mut HeapStats) -> i32
    ensures told { result ≡ number_of (when_there col.old.collecting) }
{
    look(col, out).number()
}
