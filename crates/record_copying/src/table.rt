//! Which records have their copies, and where.
ghost use Rattle.std.specs.Prelude.{◌≡◌, ◌≢◌, ◌<◌, ◌≤◌, ◌+◌, All, IfNone, IfOk, IfSome, false, length};
ghost use Rattle.std.specs.Prelude.{slice_index_or, true};
ghost use Rattle.minor_heap.specs.Nursery.{Stands};
ghost use Rattle.minor_heap.specs.Spans.{NoneMarked};
ghost use Rattle.minor_heap.specs.Terms.{terms_of};
ghost use Rattle.mutator_seat.specs.Bound.{IsBound, bound};
ghost use Rattle.promotion.specs.Copying.{GrownBy};
ghost use Rattle.promotion.specs.Sharing.{known_terms};
ghost use Rattle.record_copying.specs.Copies.{AllShare, AreCopies, CopiesUpTo, IsCopied, KeepCopies};
ghost use Rattle.record_copying.specs.Settling.{Settled};
ghost use Rattle.record_copying.specs.Table.{AreBelow};
ghost use Rattle.record_copying.specs.declared.slices.Progress.TheVariants as progress;

use crate::cells::RawCells;
use crate::settling::settle;
use crate::slices::{Progress, copy_reached};
use heap_rule::Keeping;
use heap_table::CellHeap;
use minor_heap::{MinorHeap, MinorRef, RecordSpan};
use mutator_seat::MutSeat;
pub use std::alloc::AllocError as NoMemory;
use std::alloc::Global;
use std::marker::Model;

/// By record, the place of its copy, or none. It is kept until the records move.
pub struct CopyTable {
    room: u32,
    /// by record, whether it is reached; between calls no record is marked
    marks: Vec<bool>,
    /// by record, whether its copy is there
    copied: Vec<bool>,
    /// by record, the place of its copy
    places: Vec<usize>,
}

impl Drop for CopyTable {
    fn drop(self) {
        let CopyTable {
            room: _,
            marks: _marks,
            copied: _copied,
            places: _places,
        } = self;
    }
}

impl Model for CopyTable {
    ghost use Rattle.record_copying.specs.Table.{IsTableFor, Table};

    ghost Value = { Table };

    ghost view = { λ t. record { room = t.room; copied = t.copied.items; places = t.places.items } };

    ghost invariant = { λ t. IsTableFor t.room t.marks.items t.copied.items t.places.items };
}

impl CopyTable {
    /// A table without copies, for so many records. All of its memory is taken here.
    pub fn with_room(alloc: Global, records: u32) -> Result<CopyTable, NoMemory>
        ensures room { IfOk result (λ table. table.room ≡ records) }
        ensures none { IfOk result (λ table. NoneMarked table.copied) }
    {
        Ok(CopyTable {
            room: records,
            marks: Vec::from_elem(alloc, false, records as usize)?,
            copied: Vec::from_elem(alloc, false, records as usize)?,
            places: Vec::from_elem(alloc, 0, records as usize)?,
        })
    }

    /// The place of the copy of a record, if it is there.
    pub fn place(&self, r: MinorRef) -> Option<usize>
        requires room { r.number < self.now.room }
        ensures there { IfSome result (λ place. IsCopied self.now.copied r) }
        ensures place { IfSome result (λ place. place ≡ slice_index_or self.now.places r.number 0) }
        ensures none { IfNone result (slice_index_or self.now.copied r.number false ≡ false) }
    {
        if self.copied[r.number as usize] {
            Some(self.places[r.number as usize])
        } else {
            None
        }
    }

    /// Forgets the copies of so many records, which are all that there are. It is for when the
    /// records have moved.
    pub fn forget(&mut self, records: u32)
        requires fits { records ≤ self.old.room }
        requires below { AreBelow records self.old.copied }
        ensures none { NoneMarked self.new.copied }
        ensures room { self.new.room ≡ self.old.room }
    {
        let all = RecordSpan {
            first: 0,
            end: records,
        };
        all.unmark(self.copied.as_mut_slice());
    }

    /// Copies records that the roots reach and that have no copy, the oldest first, and at most so
    /// many. Where it ends early it has lost nothing, and goes on when it is called again.
    pub fn copy_reached<P: Keeping, C: RawCells<P>>(
        &mut self,
        heap: &CellHeap<P>,
        seat: &mut MutSeat<P>,
        cells: &mut C,
        minor: &MinorHeap,
        roots: &[MinorRef],
        most: usize,
    ) -> Progress
        requires seat { IsBound heap.now seat.old }
        requires inside { seat.old.me.presence.inside ≡ true }
        requires room { length seat.old.me.own.held + most ≤ seat.old.me.room }
        requires stand { All (Stands minor.now.records) roots.now }
        requires fits { length minor.now.records ≤ self.old.room }
        requires shares { AllShare seat.old.me.known minor.now.records }
        requires copies { AreCopies seat.old.me.known minor.now.records self.old.copied
            self.old.places }
        ensures seat { IsBound heap.now seat.new }
        ensures grown { CopiesUpTo most (bound heap.now seat.old) (bound heap.now seat.new) }
        ensures part { result ≡ progress.Part
            → GrownBy most (bound heap.now seat.old) (bound heap.now seat.new) }
        ensures no_cell { result ≡ progress.NoCell
            → C.refusals cells.new ≢ C.refusals cells.old }
        ensures done { result ≡ progress.Done → All (IsCopied self.new.copied) roots.now }
        ensures shares { AllShare seat.new.me.known minor.now.records }
        ensures terms { terms_of (known_terms seat.new.me.known) minor.now.records
            ≡ terms_of (known_terms seat.old.me.known) minor.now.records }
        ensures copies { AreCopies seat.new.me.known minor.now.records self.new.copied
            self.new.places }
        ensures keeps { KeepCopies self.old.copied self.old.places self.new.copied
            self.new.places }
        ensures table { self.new.room ≡ self.old.room }
    {
        let marks = self.marks.as_mut_slice();
        let copied = self.copied.as_mut_slice();
        let places = self.places.as_mut_slice();
        copy_reached(heap, seat, cells, minor, roots, marks, copied, places, most)
    }

    /// Holds the first `base` places and then the copy of each root, in order: for when each root
    /// has its copy. The private records may go then.
    pub fn settle<P: Keeping>(
        &self,
        heap: &CellHeap<P>,
        seat: &mut MutSeat<P>,
        minor: &MinorHeap,
        roots: &[MinorRef],
        base: usize,
    )
        requires seat { IsBound heap.now seat.old }
        requires inside { seat.old.me.presence.inside ≡ true }
        requires some { 1 ≤ base }
        requires base { base ≤ length seat.old.me.own.held }
        requires room { length seat.old.me.own.held + length roots.now ≤ seat.old.me.room }
        requires fits { length minor.now.records ≤ self.now.room }
        requires copies { AreCopies seat.old.me.known minor.now.records self.now.copied
            self.now.places }
        requires done { All (IsCopied self.now.copied) roots.now }
        ensures seat { IsBound heap.now seat.new }
        ensures settled { Settled (bound heap.now seat.old) minor.now.records roots.now base
            (bound heap.now seat.new) }
    {
        settle(heap, seat, minor, self.places.as_slice(), roots, base);
    }
}
