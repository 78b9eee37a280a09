//! Copies of private records in the shared heap, a part at a time.
ghost use Rattle.std.specs.Prelude.{◌≡◌, ◌≢◌, ◌<◌, ◌≤◌, ◌+◌, All, Err, IfOk, length};
ghost use Rattle.std.specs.Prelude.{slice_index_or, true};
ghost use Rattle.heap_rule.specs.Lore.{known_at};
ghost use Rattle.minor_heap.specs.Nursery.{Stands};
ghost use Rattle.minor_heap.specs.Terms.{terms_of};
ghost use Rattle.mutator_seat.specs.Bound.{IsBound, bound};
ghost use Rattle.promotion.specs.Copying.{GrownBy};
ghost use Rattle.promotion.specs.Promoting.{knows_term};
ghost use Rattle.promotion.specs.Sharing.{known_terms};
ghost use Rattle.record_copying.specs.Copies.{CopiesUpTo, IsCopied, KeepCopies};
ghost use Rattle.record_copying.specs.declared.slices.Progress.TheVariants as progress;
ghost use Rattle.local_references.specs.Roots.{private_of};
ghost use Rattle.local_records.specs.Local.{AreLocal, IsLocal};

use crate::local::LocalRecords;
use heap_rule::Keeping;
use heap_table::CellHeap;
use local_references::RootStack;
use minor_heap::{MinorHeap, MinorRef};
use mutator_seat::MutSeat;
use record_copying::{CopyTable, Progress, RawCells};

/// Copies records that these reach and that have no copy, the oldest first, and at most so many.
fn copy_reached<P: Keeping, C: RawCells<P>>(
    heap: &CellHeap<P>,
    seat: &mut MutSeat<P>,
    cells: &mut C,
    minor: &MinorHeap,
    table: &mut CopyTable,
    stack: &RootStack,
    named: usize,
    from: &[MinorRef],
    most: usize,
) -> Progress
    requires seat { IsBound heap.now seat.old }
    requires inside { seat.old.me.presence.inside ≡ true }
    requires room { length seat.old.me.own.held + most ≤ seat.old.me.room }
    requires fits { length minor.now.records ≤ table.old.room }
    requires stand { All (Stands minor.now.records) from.now }
    requires local { AreLocal seat.old.me.known named minor.now.records table.old.copied
        table.old.places stack.now.roots }
    ensures seat { IsBound heap.now seat.new }
    ensures grown { CopiesUpTo most (bound heap.now seat.old) (bound heap.now seat.new) }
    ensures done { result ≡ progress.Done → All (IsCopied table.new.copied) from.now }
    ensures part { result ≡ progress.Part
        → GrownBy most (bound heap.now seat.old) (bound heap.now seat.new) }
    ensures no_cell { result ≡ progress.NoCell → C.refusals cells.new ≢ C.refusals cells.old }
    ensures keeps { KeepCopies table.old.copied table.old.places table.new.copied
        table.new.places }
    ensures terms { terms_of (known_terms seat.new.me.known) minor.now.records
        ≡ terms_of (known_terms seat.old.me.known) minor.now.records }
    ensures table { table.new.room ≡ table.old.room }
    ensures local { AreLocal seat.new.me.known (length seat.new.me.known) minor.now.records
        table.new.copied table.new.places stack.now.roots }
{
    let _ = stack;
    let _ = named;
    table.copy_reached(heap, seat, cells, minor, from, most)
}

/// The place of the copy of a record. Where it has none, it and what it reaches is copied, and at
/// most so many records.
fn copy_one<P: Keeping, C: RawCells<P>>(
    heap: &CellHeap<P>,
    seat: &mut MutSeat<P>,
    cells: &mut C,
    minor: &MinorHeap,
    table: &mut CopyTable,
    stack: &RootStack,
    named: usize,
    r: MinorRef,
    most: usize,
) -> Result<usize, Progress>
    requires seat { IsBound heap.now seat.old }
    requires inside { seat.old.me.presence.inside ≡ true }
    requires room { length seat.old.me.own.held + most ≤ seat.old.me.room }
    requires fits { length minor.now.records ≤ table.old.room }
    requires stands { Stands minor.now.records r }
    requires local { AreLocal seat.old.me.known named minor.now.records table.old.copied
        table.old.places stack.now.roots }
    ensures seat { IsBound heap.now seat.new }
    ensures grown { CopiesUpTo most (bound heap.now seat.old) (bound heap.now seat.new) }
    ensures copy { IfOk result (λ place. known_at seat.new.me.known place
        ≡ knows_term (bound heap.now seat.old) minor.now.records r) }
    ensures there { IfOk result (λ place. place < length seat.new.me.known) }
    ensures undone { result ≡ Err progress.Done → ⊥ }
    ensures part { result ≡ Err progress.Part
        → GrownBy most (bound heap.now seat.old) (bound heap.now seat.new) }
    ensures no_cell { result ≡ Err progress.NoCell
        → C.refusals cells.new ≢ C.refusals cells.old }
    ensures keeps { KeepCopies table.old.copied table.old.places table.new.copied
        table.new.places }
    ensures terms { terms_of (known_terms seat.new.me.known) minor.now.records
        ≡ terms_of (known_terms seat.old.me.known) minor.now.records }
    ensures table { table.new.room ≡ table.old.room }
    ensures local { AreLocal seat.new.me.known (length seat.new.me.known) minor.now.records
        table.new.copied table.new.places stack.now.roots }
{
    let from = [r];
    let progress = copy_reached(heap, seat, cells, minor, table, stack, named, &from, most);
    match progress {
        Progress::Done => Ok(table.place(r).unwrap()),
        Progress::Part => Err(Progress::Part),
        Progress::NoCell => Err(Progress::NoCell),
    }
}

impl LocalRecords {
    /// Copies records that the roots reach and that have no copy, the oldest first, and at most so
    /// many. Where it ends early it has lost nothing, and goes on when it is called again.
    pub fn copy_slice<P: Keeping, C: RawCells<P>>(
        &mut self,
        heap: &CellHeap<P>,
        seat: &mut MutSeat<P>,
        cells: &mut C,
        most: usize,
    ) -> Progress
        requires seat { IsBound heap.now seat.old }
        requires inside { seat.old.me.presence.inside ≡ true }
        requires room { length seat.old.me.own.held + most ≤ seat.old.me.room }
        requires local { IsLocal self.old seat.old.me.known }
        ensures seat { IsBound heap.now seat.new }
        ensures grown { CopiesUpTo most (bound heap.now seat.old) (bound heap.now seat.new) }
        ensures done { result ≡ progress.Done
            → All (IsCopied self.new.copied) (private_of self.new.roots) }
        ensures part { result ≡ progress.Part
            → GrownBy most (bound heap.now seat.old) (bound heap.now seat.new) }
        ensures no_cell { result ≡ progress.NoCell → C.refusals cells.new ≢ C.refusals cells.old }
        ensures only { self.new ≡ record self.old {
          copied = self.new.copied;
          places = self.new.places;
          named = self.new.named;
        } }
        ensures keeps { KeepCopies self.old.copied self.old.places self.new.copied
            self.new.places }
        ensures terms { terms_of (known_terms seat.new.me.known) self.new.records
            ≡ terms_of (known_terms seat.old.me.known) self.old.records }
        ensures named { self.new.named ≡ length seat.new.me.known }
        ensures local { IsLocal self.new seat.new.me.known }
    {
        self.stack.take_private();
        let minor = self.nursery.heap();
        let _spare = minor.spare();
        let from = self.stack.taken();
        let progress = copy_reached(
            heap,
            seat,
            cells,
            minor,
            &mut self.table,
            &self.stack,
            self.named,
            from,
            most,
        );
        let named = seat.held_len();
        self.named = named;
        progress
    }

    /// The place of the copy of a record. Where it has none, it and what it reaches is copied, and
    /// at most so many records; where that is not enough, the next call goes on.
    pub fn promote<P: Keeping, C: RawCells<P>>(
        &mut self,
        heap: &CellHeap<P>,
        seat: &mut MutSeat<P>,
        cells: &mut C,
        r: MinorRef,
        most: usize,
    ) -> Result<usize, Progress>
        requires seat { IsBound heap.now seat.old }
        requires inside { seat.old.me.presence.inside ≡ true }
        requires room { length seat.old.me.own.held + most ≤ seat.old.me.room }
        requires stands { Stands self.old.records r }
        requires local { IsLocal self.old seat.old.me.known }
        ensures seat { IsBound heap.now seat.new }
        ensures grown { CopiesUpTo most (bound heap.now seat.old) (bound heap.now seat.new) }
        ensures copy { IfOk result (λ place. known_at seat.new.me.known place
            ≡ knows_term (bound heap.now seat.old) self.old.records r) }
        ensures there { IfOk result (λ place. place < length seat.new.me.known) }
        ensures undone { result ≡ Err progress.Done → ⊥ }
        ensures part { result ≡ Err progress.Part
            → GrownBy most (bound heap.now seat.old) (bound heap.now seat.new) }
        ensures no_cell { result ≡ Err progress.NoCell
            → C.refusals cells.new ≢ C.refusals cells.old }
        ensures only { self.new ≡ record self.old {
          copied = self.new.copied;
          places = self.new.places;
          named = self.new.named;
        } }
        ensures keeps { KeepCopies self.old.copied self.old.places self.new.copied
            self.new.places }
        ensures terms { terms_of (known_terms seat.new.me.known) self.new.records
            ≡ terms_of (known_terms seat.old.me.known) self.old.records }
        ensures named { self.new.named ≡ length seat.new.me.known }
        ensures local { IsLocal self.new seat.new.me.known }
    {
        let minor = self.nursery.heap();
        let _spare = minor.spare();
        let copy = copy_one(
            heap,
            seat,
            cells,
            minor,
            &mut self.table,
            &self.stack,
            self.named,
            r,
            most,
        );
        let named = seat.held_len();
        self.named = named;
        copy
    }
}
