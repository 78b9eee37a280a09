//! Copies of some of the records that are marked, the oldest first.
ghost use Rattle.std.specs.Prelude.{◌≡◌, ◌≢◌, ◌<◌, ◌≤◌, ◌+◌, All, IfNone, IfSome, false, length};
ghost use Rattle.std.specs.Prelude.{slice_index_or, true, ℕ};
ghost use Rattle.minor_heap.specs.Nursery.{IsOrdered, Stands, field_at};
ghost use Rattle.minor_heap.specs.Spans.{AreWithin, NoneMarked};
ghost use Rattle.minor_heap.specs.Terms.{term_of, terms_of};
ghost use Rattle.minor_heap.specs.declared.fields.MinorField.TheVariants as field;
ghost use Rattle.minor_heap.specs.declared.fields.MinorRef.{MinorRef};
ghost use Rattle.mutator_seat.specs.Bound.{IsBound, bound};
ghost use Rattle.mutator_seat.specs.Claims.{Seeking};
ghost use Rattle.mutator_seat.specs.Stretches.{Calm};
ghost use Rattle.promotion.specs.Copying.{Copied, GrownBy};
ghost use Rattle.promotion.specs.Sharing.{known_terms};
ghost use Rattle.record_copying.specs.Copies.{AllShare, AreCopies, CopiesUpTo, IsCopied, KeepCopies};
ghost use Rattle.record_copying.specs.declared.slices.Progress.TheVariants as progress;

use crate::cells::RawCells;
use crate::copying::copy_record;
use heap_rule::Keeping;
use heap_table::CellHeap;
use minor_heap::{MinorHeap, MinorRef, RecordSpan};
use mutator_seat::MutSeat;

/// How far a call came.
#[derive(Clone, Copy, Debug, PartialEq, Eq)]
pub enum Progress {
    /// each record that is reached has its copy
    Done,
    /// it made as many copies as it was to make at most
    Part,
    /// it got no cell
    NoCell,
}

/// Copies a record whose older ones are copied, where it gets a cell: the place of the copy.
fn copy_one<P: Keeping, C: RawCells<P>>(
    heap: &CellHeap<P>,
    seat: &mut MutSeat<P>,
    cells: &mut C,
    minor: &MinorHeap,
    copied: &mut [bool],
    places: &mut [usize],
    r: MinorRef,
) -> Option<usize>
    requires seat { IsBound heap.now seat.old }
    requires inside { seat.old.me.presence.inside ≡ true }
    requires room { length seat.old.me.own.held < seat.old.me.room }
    requires stands { Stands minor.now.records r }
    requires ordered { IsOrdered 0 minor.now.records }
    requires fit { length minor.now.records ≤ length copied.old }
    requires places { length minor.now.records ≤ length places.old }
    requires shares { AllShare seat.old.me.known minor.now.records }
    requires copies { AreCopies seat.old.me.known minor.now.records copied.old places.old }
    requires older { (i : ℕ) (older : MinorRef) → i < 5
        → field_at minor.now.records r.number i ≡ field.Minor older → IsCopied copied.old older }
    requires due { slice_index_or copied.old r.number false ≡ false }
    ensures seat { IsBound heap.now seat.new }
    ensures got { IfSome result (λ place. Copied (bound heap.now seat.old) place
        (term_of (known_terms seat.old.me.known) minor.now.records r)
        (bound heap.now seat.new)) }
    ensures none { IfNone result
        (Calm Seeking (bound heap.now seat.old) (bound heap.now seat.new)) }
    ensures given { IfSome result (λ place. C.refusals cells.new ≡ C.refusals cells.old) }
    ensures refused { IfNone result (C.refusals cells.new ≢ C.refusals cells.old) }
    ensures there { IfSome result (λ place. IsCopied copied.new r) }
    ensures copies { AreCopies seat.new.me.known minor.now.records copied.new places.new }
    ensures keeps { KeepCopies copied.old places.old copied.new places.new }
    ensures copied { length copied.new ≡ length copied.old }
    ensures places { length places.new ≡ length places.old }
{
    match cells.claim(heap, seat) {
        Some(place) => {
            copy_record(heap, seat, minor, places, r, place);
            copied[r.number as usize] = true;
            places[r.number as usize] = place;
            Some(place)
        }
        None => None,
    }
}

/// Whether the record is marked and has no copy.
fn is_due(marks: &[bool], copied: &[bool], number: u32) -> bool
    requires marks { number < length marks.now }
    requires copied { number < length copied.now }
    ensures due { (result ≡ true) → slice_index_or copied.now number false ≡ false }
    ensures marked { (result ≡ true) → slice_index_or marks.now number false ≡ true }
    ensures done { (result ≡ false) → slice_index_or marks.now number false ≡ true
        → slice_index_or copied.now number false ≡ true }
{
    marks[number as usize] && !copied[number as usize]
}

/// Copies records that are marked and have no copy, the oldest first, and at most so many.
pub(crate) fn copy_marked<P: Keeping, C: RawCells<P>>(
    heap: &CellHeap<P>,
    seat: &mut MutSeat<P>,
    cells: &mut C,
    minor: &MinorHeap,
    marks: &[bool],
    span: RecordSpan,
    copied: &mut [bool],
    places: &mut [usize],
    most: usize,
) -> Progress
    requires seat { IsBound heap.now seat.old }
    requires inside { seat.old.me.presence.inside ≡ true }
    requires room { length seat.old.me.own.held + most ≤ seat.old.me.room }
    requires ordered { IsOrdered 0 minor.now.records }
    requires within { AreWithin span marks.now }
    requires stands { span.end ≤ length minor.now.records }
    requires marks { length minor.now.records ≤ length marks.now }
    requires closed { (k i : ℕ) (older : MinorRef) → i < 5 → slice_index_or marks.now k false ≡ true
        → field_at minor.now.records k i ≡ field.Minor older
        → slice_index_or marks.now older.number false ≡ true }
    requires fit { length minor.now.records ≤ length copied.old }
    requires places { length minor.now.records ≤ length places.old }
    requires shares { AllShare seat.old.me.known minor.now.records }
    requires copies { AreCopies seat.old.me.known minor.now.records copied.old places.old }
    ensures seat { IsBound heap.now seat.new }
    ensures grown { CopiesUpTo most (bound heap.now seat.old) (bound heap.now seat.new) }
    ensures part { result ≡ progress.Part
        → GrownBy most (bound heap.now seat.old) (bound heap.now seat.new) }
    ensures no_cell { result ≡ progress.NoCell → C.refusals cells.new ≢ C.refusals cells.old }
    ensures done { result ≡ progress.Done → (k : ℕ) → slice_index_or marks.now k false ≡ true
        → slice_index_or copied.new k false ≡ true }
    ensures copies { AreCopies seat.new.me.known minor.now.records copied.new places.new }
    ensures keeps { KeepCopies copied.old places.old copied.new places.new }
    ensures copied { length copied.new ≡ length copied.old }
    ensures places { length places.new ≡ length places.old }
{
    let mut count: usize = 0;
    for number in span.first..span.end {
        if is_due(marks, copied, number) {
            if count == most {
                return Progress::Part;
            }
            match copy_one(
                heap,
                seat,
                cells,
                minor,
                copied,
                places,
                MinorRef { number },
            ) {
                Some(_) => count += 1,
                None => return Progress::NoCell,
            }
        }
    }
    Progress::Done
}

/// Whether each of these has its copy.
fn are_copied(roots: &[MinorRef], copied: &[bool]) -> bool
    requires stand { All (λ r. r.number < length copied.now) roots.now }
    ensures done { result ≡ true → All (IsCopied copied.now) roots.now }
{
    for r in roots {
        if !copied[r.number as usize] {
            return false;
        }
    }
    true
}

/// Copies records that these reach and that have no copy, the oldest first, and at most so many.
/// Nothing is marked before and after.
pub(crate) fn copy_reached<P: Keeping, C: RawCells<P>>(
    heap: &CellHeap<P>,
    seat: &mut MutSeat<P>,
    cells: &mut C,
    minor: &MinorHeap,
    roots: &[MinorRef],
    marks: &mut [bool],
    copied: &mut [bool],
    places: &mut [usize],
    most: usize,
) -> Progress
    requires seat { IsBound heap.now seat.old }
    requires inside { seat.old.me.presence.inside ≡ true }
    requires room { length seat.old.me.own.held + most ≤ seat.old.me.room }
    requires stand { All (Stands minor.now.records) roots.now }
    requires none { NoneMarked marks.old }
    requires marks { length minor.now.records ≤ length marks.old }
    requires fit { length minor.now.records ≤ length copied.old }
    requires places { length minor.now.records ≤ length places.old }
    requires shares { AllShare seat.old.me.known minor.now.records }
    requires copies { AreCopies seat.old.me.known minor.now.records copied.old places.old }
    ensures seat { IsBound heap.now seat.new }
    ensures none { NoneMarked marks.new }
    ensures marks { length marks.new ≡ length marks.old }
    ensures grown { CopiesUpTo most (bound heap.now seat.old) (bound heap.now seat.new) }
    ensures part { result ≡ progress.Part
        → GrownBy most (bound heap.now seat.old) (bound heap.now seat.new) }
    ensures no_cell { result ≡ progress.NoCell → C.refusals cells.new ≢ C.refusals cells.old }
    ensures done { result ≡ progress.Done → All (IsCopied copied.new) roots.now }
    ensures shares { AllShare seat.new.me.known minor.now.records }
    ensures terms { terms_of (known_terms seat.new.me.known) minor.now.records
        ≡ terms_of (known_terms seat.old.me.known) minor.now.records }
    ensures copies { AreCopies seat.new.me.known minor.now.records copied.new places.new }
    ensures keeps { KeepCopies copied.old places.old copied.new places.new }
    ensures copied { length copied.new ≡ length copied.old }
    ensures places { length places.new ≡ length places.old }
{
    // A record that has its copy is asked for again and again by whoever stores it in many boxes.
    if are_copied(roots, copied) {
        return Progress::Done;
    }
    let span = minor.mark_span(roots, marks);
    let progress = copy_marked(heap, seat, cells, minor, marks, span, copied, places, most);
    span.unmark(marks);
    progress
}
