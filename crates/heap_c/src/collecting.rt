//! What the collector's handle owns: its seat, the mark stack, and a share of the heap.
ghost use Rattle.std.specs.Prelude.{◌≡◌, ◌<◌, ◌≤◌, ◌+◌, IfOk, IsTrue, ◌↔◌, Some};
ghost use Rattle.heap_c.specs.Keeping.{IsKeeping};
ghost use Rattle.heap_c.specs.Seating.{IsFresh};

use crate::looking::{HeapStats, number_of};
use crate::mine::Mine;
use crate::rule::Rule;
use crate::sharing::{Sharing, Unnoted};
use crate::works::{Counts, How, Works, work};
use cell_heap::{CellHeap, NoMemory};
use local_records::LocalRecords;
use sorted_boxes::Sorts;
use std::alloc::Global;
use std::marker::Model;
use std::mem;
use std::sync::Arc;

/// The collector's parts with its heap, and how many mutators have been given their seats.
#[derive(Drop)]
pub struct Collecting {
    heap: Arc<CellHeap<Rule>, Global>,
    sharing: Arc<Sharing, Global>,
    /// there but for a moment within a call
    works: Option<Works>,
    given: u32,
    /// how many fields of each box name boxes
    boxes: u64,
    counts: Counts,
    /// whether the last move asked a mutator to answer
    asks: bool,
}

impl Model for Collecting {
    ghost use Rattle.std.specs.Coded.{codes};
    ghost use Rattle.cell_words.specs.contracts.terms.Term as term;
    ghost use Rattle.heap_c.specs.Keeping.{IsKeeping, Keeps};

    ghost Value = { Keeps };

    ghost coded = { Prim.hlevel (codes, term.the_row.coded) };

    ghost view = { λ k. record {
      heap = k.heap.value;
      works = k.works;
      given = k.given;
      boxes = k.boxes;
    } };

    ghost invariant = { λ k. IsKeeping k.heap.value k.works k.given k.boxes };
}

impl Collecting {
    /// What has these parts on this heap, which was opened just now.
    pub(crate) fn new(
        heap: Arc<CellHeap<Rule>, Global>,
        sharing: Arc<Sharing, Global>,
        works: Works,
        boxes: u64,
    ) -> Collecting
        requires keeping { IsKeeping heap.value (Some works) 0 boxes }
        ensures given { result.given ≡ 0 }
    {
        Collecting {
            heap,
            sharing,
            works: Some(works),
            given: 0,
            boxes,
            counts: Counts {
                passes: 0,
                scanned: 0,
                freed: 0,
                stacked: 0,
                spilled: 0,
                unnoted: Unnoted { block: 0, cells: 0 },
            },
            asks: false,
        }
    }

    /// Whether each mutator has its seat.
    pub(crate) fn is_spent(&self) -> bool
        ensures spent { IsTrue result ↔ (self.now.heap.shape.mutators ≤ self.now.given) }
    {
        self.heap.mutators() <= self.given
    }

    /// Splits the seat of the next mutator off, with so many places of room.
    pub(crate) fn split(&mut self, alloc: Global, room: u32) -> Result<Mine, NoMemory>
        requires left { self.old.given < self.old.heap.shape.mutators }
        requires room { 1 ≤ room }
        ensures fresh { IfOk result (IsFresh room) }
    {
        let heap = Arc::try_clone(&self.heap)?;
        let sharing = Arc::try_clone(&self.sharing)?;
        // As many as there are fit a number, and so does one more than were given.
        let start = sharing.blocks.start_of(self.given, self.heap.mutators());
        let Some(works) = &mut self.works else {
            return Err(NoMemory);
        };
        let sorts = Sorts::with_room(alloc, self.boxes, room as usize)?;
        let local = LocalRecords::with_room(alloc, 0, 0)?;
        let seat = works.seat.split(alloc, &self.heap, self.given, room)?;
        self.given += 1;
        Ok(Mine::new(heap, sharing, seat, sorts, local, start))
    }

    /// Makes at most so many moves.
    pub(crate) fn step(&mut self, moves: u32) -> How {
        let Some(works) = mem::replace(&mut self.works, None) else {
            return How::Spent;
        };
        let (works, how) = work(&self.heap, works, &self.sharing, &mut self.counts, moves);
        self.works = Some(works);
        self.asks = how == How::Asks;
        how
    }

    /// Where the collector is, and what its moves came to.
    pub(crate) fn stats(&self) -> HeapStats {
        let counts = self.counts;
        let (cycles, stage, heard) = match &self.works {
            None => (0, 0, 0),
            Some(works) => {
                let control = works.seat.control();
                (control.cycles, number_of(control.stage), works.heard)
            }
        };
        HeapStats {
            cycles,
            stage,
            heard,
            asks: if self.asks { 1 } else { 0 },
            freed: counts.freed,
            free_about: self.sharing.blocks.about(),
            passes: counts.passes,
            scanned: counts.scanned,
            stacked: counts.stacked,
            spilled: counts.spilled,
        }
    }

    /// Goes on duty, or off.
    pub(crate) fn set_duty(&mut self, on: bool) {
        self.sharing.set_duty(on);
    }
}
