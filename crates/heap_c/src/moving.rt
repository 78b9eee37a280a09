//! What copies private records into the shared heap, and what makes room for more of them.
ghost use Rattle.std.specs.Prelude.{◌≡◌, ◌≢◌, ◌<◌, ◌≤◌, ◌+◌, ◌/◌, ◌++◌, ◌∷◌, ◌⊎◌, [], All, Err};
ghost use Rattle.std.specs.Prelude.{IfErr, IfOk, List, length, max, true, ℕ};
ghost use Rattle.std.specs.Bool.{OnFalse, OnTrue};
ghost use Rattle.heap_c.specs.Claiming.{SaysNone};
ghost use Rattle.heap_c.specs.Holding.{IsOwned, NoAnchor, NotesCopies, owned_by};
ghost use Rattle.heap_c.specs.Moving.{AgesFor, CopiesRecords, MakesRoom, PromotesRecord};
ghost use Rattle.heap_c.specs.Moving.{ReleasesPlaces, SettlesRoots, SharesFor, SharesRoots};
ghost use Rattle.heap_c.specs.Moving.{TellsRoots};
ghost use Rattle.heap_c.specs.declared.codes.Code.TheVariants as code;
ghost use Rattle.heap_rule.specs.declared.known.Known.{Known};
ghost use Rattle.heap_rule.specs.Lore.{known_at};
ghost use Rattle.local_records.specs.Local.{IsLocal, IsRootBelow};
ghost use Rattle.local_records.specs.Settling.{cell_count, cells_in};
ghost use Rattle.local_references.specs.Roots.{private_of, slot_at};
ghost use Rattle.local_references.specs.declared.roots.Root.{Root};
ghost use Rattle.minor_heap.specs.Nursery.{Stands};
ghost use Rattle.minor_heap.specs.Spans.{NoneMarked};
ghost use Rattle.mutator_seat.specs.Bound.{bound};
ghost use Rattle.promotion.specs.Copying.{GrownBy};
ghost use Rattle.promotion.specs.Promoting.{knows_term};
ghost use Rattle.record_copying.specs.Copies.{IsCopied};
ghost use Rattle.record_copying.specs.declared.slices.Progress.TheVariants as progress;
ghost use Rattle.sorted_boxes.specs.Sorts.{SortList};

use crate::cells::FreeCells;
use crate::codes::Code;
use crate::records::find;
use crate::rule::Rule;
use crate::values::{FIRST, HeapVal};
use heap_table::CellHeap;
use local_records::LocalRecords;
use local_references::Root;
use minor_heap::MinorRef;
use mutator_seat::MutSeat;
use record_copying::Progress;
use sorted_boxes::{Sorts, copies, placing};

/// Keeps the first n places, and those that private records and roots name.
pub(crate) fn release(
    heap: &CellHeap<Rule>,
    seat: &mut MutSeat<Rule>,
    sorts: &mut Sorts,
    local: &LocalRecords,
    n: usize,
) -> Code
    requires owned { IsOwned heap.now seat.old sorts.old local.now }
    ensures owned { IsOwned heap.now seat.new sorts.new local.now }
    ensures released { ReleasesPlaces (owned_by heap.now seat.old sorts.old local.now)
        (owned_by heap.now seat.new sorts.new local.now) n result }
{
    if !seat.is_in() {
        return Code::NotIn;
    }
    let held = seat.held_len();
    let _room = seat.room();
    if n < FIRST || held < n {
        return Code::BadPlace;
    }
    placing::keep(heap, seat, sorts, n.max(local.named()), 0, 0);
    let _kept = seat.held_len();
    Code::Ok
}

/// Copies records that the roots lead to, and at most so many.
fn copy_rooted(
    heap: &CellHeap<Rule>,
    seat: &mut MutSeat<Rule>,
    sorts: &mut Sorts,
    local: &mut LocalRecords,
    cells: &mut FreeCells<'_>,
    most: usize,
) -> Progress
    requires owned { IsOwned heap.now seat.old sorts.old local.old }
    requires inside { seat.old.me.presence.inside ≡ true }
    requires room { length seat.old.me.own.held + most ≤ seat.old.me.room }
    ensures owned { IsOwned heap.now seat.new sorts.new local.new }
    ensures copies { CopiesRecords (owned_by heap.now seat.old sorts.old local.old)
        (owned_by heap.now seat.new sorts.new local.new) most }
    ensures done { result ≡ progress.Done
        → All (IsCopied local.new.copied) (private_of local.new.roots) }
    ensures part { result ≡ progress.Part
        → GrownBy most (bound heap.now seat.old) (bound heap.now seat.new) }
    ensures no_cell { result ≡ progress.NoCell → cells.new.refusals ≢ cells.old.refusals }
{
    let first = seat.held_len();
    let progress = local.copy_slice(heap, seat, cells, most);
    copies::hold_records(seat, sorts, first);
    progress
}

/// The place of the copy of a record. It and what it leads to is copied first, and at most so many
/// records.
fn copy_one(
    heap: &CellHeap<Rule>,
    seat: &mut MutSeat<Rule>,
    sorts: &mut Sorts,
    local: &mut LocalRecords,
    cells: &mut FreeCells<'_>,
    r: MinorRef,
    most: usize,
) -> Result<usize, Progress>
    requires owned { IsOwned heap.now seat.old sorts.old local.old }
    requires inside { seat.old.me.presence.inside ≡ true }
    requires room { length seat.old.me.own.held + most ≤ seat.old.me.room }
    requires stands { Stands local.old.records r }
    ensures owned { IsOwned heap.now seat.new sorts.new local.new }
    ensures copies { CopiesRecords (owned_by heap.now seat.old sorts.old local.old)
        (owned_by heap.now seat.new sorts.new local.new) most }
    ensures copy { IfOk result (λ place. known_at seat.new.me.known place
        ≡ knows_term (bound heap.now seat.old) local.old.records r) }
    ensures there { IfOk result (λ place. place < length seat.new.me.own.held) }
    ensures undone { result ≡ Err progress.Done → ⊥ }
    ensures part { result ≡ Err progress.Part
        → GrownBy most (bound heap.now seat.old) (bound heap.now seat.new) }
    ensures no_cell { result ≡ Err progress.NoCell → cells.new.refusals ≢ cells.old.refusals }
{
    let first = seat.held_len();
    let copy = local.promote(heap, seat, cells, r, most);
    copies::hold_records(seat, sorts, first);
    let _held = seat.held_len();
    copy
}

/// The place of the copy of a private record. It and what it leads to is copied first, and at most
/// so many records. It is noted that records may have copies then.
pub(crate) fn promote(
    heap: &CellHeap<Rule>,
    seat: &mut MutSeat<Rule>,
    sorts: &mut Sorts,
    local: &mut LocalRecords,
    copied: &mut bool,
    cells: &mut FreeCells<'_>,
    val: HeapVal,
    most: usize,
) -> Result<usize, Code>
    requires owned { IsOwned heap.now seat.old sorts.old local.old }
    requires noted { NotesCopies copied.old local.old }
    ensures owned { IsOwned heap.now seat.new sorts.new local.new }
    ensures noted { NotesCopies copied.new local.new }
    ensures promoted { PromotesRecord (owned_by heap.now seat.old sorts.old local.old)
        (owned_by heap.now seat.new sorts.new local.new) val most result }
    ensures waits { IfErr result (λ code. SaysNone code
        → cells.new.refusals ≢ cells.old.refusals) }
{
    if !seat.is_in() {
        return Err(Code::NotIn);
    }
    let Some(r) = find(local, val.tag, val.n) else {
        return Err(Code::BadValue);
    };
    if most == 0 {
        return Err(Code::BadSize);
    }
    let free = seat.room();
    let most = at_most(most, free);
    *copied = true;
    match copy_one(heap, seat, sorts, local, cells, r, most) {
        Ok(place) => Ok(place),
        Err(Progress::Part) => {
            if most == 0 {
                Err(Code::NoRoom)
            } else {
                Err(Code::Part)
            }
        }
        Err(Progress::NoCell) => Err(cells.code()),
        Err(Progress::Done) => Err(Code::Part),
    }
}

/// The lesser one.
fn at_most(most: usize, free: usize) -> usize
    ensures most { result ≤ most }
    ensures free { result ≤ free }
    ensures one { (result ≡ most) ⊎ (result ≡ free) }
{
    if most < free { most } else { free }
}

/// Tells of a root at the next place, if it is a cell: the place after.
fn sort_root(sorts: &mut Sorts, root: Root, first: usize, next: usize) -> usize
    requires there { next < length sorts.old.records }
    requires few { next < 18446744073709551615 }
    requires below { IsRootBelow first root }
    ensures next { result ≡ next + cells_in root }
    ensures told { (before : SortList) (roots : List Root) → TellsRoots first before roots sorts.old
        → next ≡ first + cell_count roots → TellsRoots first before (roots ++ root ∷ []) sorts.new }
{
    let _ = first;
    match root {
        Root::Null => next,
        Root::Num(_) => next,
        Root::Private(_) => {
            sorts.set(next, true);
            next + 1
        }
        Root::Shared(place) => {
            let is_record = sorts.is_record(place);
            sorts.set(next, is_record);
            next + 1
        }
    }
}

/// Tells of the roots that are cells at the places from one on: the place after the last.
fn sort_roots(sorts: &mut Sorts, local: &LocalRecords, first: usize) -> usize
    requires room { first + length local.now.roots ≤ length sorts.old.records }
    requires few { first + length local.now.roots < 18446744073709551616 }
    requires below { (i : ℕ) → IsRootBelow first (slot_at local.now.roots i) }
    ensures told { TellsRoots first sorts.old local.now.roots sorts.new }
    ensures end { result ≡ first + cell_count local.now.roots }
{
    let mut next = first;
    for i in 0..local.roots_len() {
        let root = local.root(i);
        next = sort_root(sorts, root, first, next);
    }
    next
}

/// Holds the first places and then each root that is a cell, and lets all private records go.
fn settle(
    heap: &CellHeap<Rule>,
    seat: &mut MutSeat<Rule>,
    sorts: &mut Sorts,
    local: &mut LocalRecords,
    base: usize,
)
    requires owned { IsOwned heap.now seat.old sorts.old local.old }
    requires inside { seat.old.me.presence.inside ≡ true }
    requires some { 1 ≤ base }
    requires base { base ≤ length seat.old.me.own.held }
    requires room { length seat.old.me.own.held + length local.old.roots ≤ seat.old.me.room }
    requires few { seat.old.me.room < 18446744073709551616 }
    requires turn { local.old.turn ≢ 4294967295 }
    requires done { All (IsCopied local.old.copied) (private_of local.old.roots) }
    ensures owned { IsOwned heap.now seat.new sorts.new local.new }
    ensures settles { SettlesRoots (owned_by heap.now seat.old sorts.old local.old)
        (owned_by heap.now seat.new sorts.new local.new) base }
{
    let first = seat.held_len();
    let end = sort_roots(sorts, local, first);
    local.settle(heap, seat, base);
    let _held = seat.held_len();
    sorts.keep(base, first, end - first);
}

/// Whether records can move no more, as no turn is left.
fn is_spent(local: &LocalRecords) -> bool
    ensures yes { OnTrue result (local.now.turn ≡ 4294967295) }
    ensures no { OnFalse result (local.now.turn ≢ 4294967295) }
{
    local.give(MinorRef { number: 0 }).turn == u32::MAX
}

/// Copies private records that the roots lead to, and at most so many. Once all have been copied
/// the first `base` places are held and then the roots, and no private record is left. It is noted
/// whether records may have copies then.
pub(crate) fn share(
    heap: &CellHeap<Rule>,
    seat: &mut MutSeat<Rule>,
    sorts: &mut Sorts,
    local: &mut LocalRecords,
    copied: &mut bool,
    cells: &mut FreeCells<'_>,
    base: usize,
    most: usize,
) -> Code
    requires owned { IsOwned heap.now seat.old sorts.old local.old }
    requires noted { NotesCopies copied.old local.old }
    ensures owned { IsOwned heap.now seat.new sorts.new local.new }
    ensures noted { NotesCopies copied.new local.new }
    ensures shared { SharesRoots (owned_by heap.now seat.old sorts.old local.old)
        (owned_by heap.now seat.new sorts.new local.new) base most result }
    ensures waits { SaysNone result → cells.new.refusals ≢ cells.old.refusals }
{
    if !seat.is_in() {
        return Code::NotIn;
    }
    let held = seat.held_len();
    if base < FIRST || held < base {
        return Code::BadPlace;
    }
    if most == 0 {
        return Code::BadSize;
    }
    if is_spent(local) {
        return Code::Spent;
    }
    let free = seat.room();
    let roots = local.roots_len();
    if free < roots || usize::MAX - held < free {
        return Code::NoRoom;
    }
    let most = at_most(most, free - roots);
    *copied = true;
    match copy_rooted(heap, seat, sorts, local, cells, most) {
        Progress::Done => {
            settle(heap, seat, sorts, local, base);
            *copied = false;
            Code::Ok
        }
        Progress::Part => { if most == 0 { Code::NoRoom } else { Code::Part } }
        Progress::NoCell => cells.code(),
    }
}

/// How many copies a call makes at most that makes room.
fn slice_of(local: &LocalRecords) -> usize
    ensures slice { result ≡ max 1000 (local.now.room / 8) }
{
    let room = u64::from(local.spare()) + u64::from(local.len());
    let part = (room / 8) as usize;
    part.max(1000)
}

/// Whether all was done.
fn is_ok(answer: Code) -> bool
    ensures yes { OnTrue result (answer ≡ code.Ok) }
    ensures no { OnFalse result (answer ≡ code.Ok → ⊥) }
{
    match answer {
        Code::Ok => true,
        _ => false,
    }
}

/// One step of a sharing that is to leave so many places free.
fn share_for(
    heap: &CellHeap<Rule>,
    seat: &mut MutSeat<Rule>,
    sorts: &mut Sorts,
    local: &mut LocalRecords,
    copied: &mut bool,
    cells: &mut FreeCells<'_>,
    base: usize,
    places: usize,
) -> Code
    requires owned { IsOwned heap.now seat.old sorts.old local.old }
    requires noted { NotesCopies copied.old local.old }
    ensures owned { IsOwned heap.now seat.new sorts.new local.new }
    ensures noted { NotesCopies copied.new local.new }
    ensures shared { SharesFor (owned_by heap.now seat.old sorts.old local.old)
        (owned_by heap.now seat.new sorts.new local.new) base places result }
    ensures waits { SaysNone result → cells.new.refusals ≢ cells.old.refusals }
{
    let most = slice_of(local);
    let code = share(heap, seat, sorts, local, copied, cells, base, most);
    if is_ok(code) {
        if seat.room() < places {
            Code::NoRoom
        } else {
            Code::Ok
        }
    } else {
        code
    }
}

/// Whether an ageing may come: no record has a copy, which would be lost, and none was kept by an
/// ageing since the last sharing.
fn may_age(copied: bool, local: &LocalRecords) -> bool
    requires noted { NotesCopies copied local.now }
    ensures none { OnTrue result (NoneMarked local.now.copied) }
    ensures first { OnTrue result (local.now.aged ≡ 0) }
{
    !copied && !local.has_aged()
}

/// Lets records go that no root leads to: whether that is enough for so many more.
fn age(local: &mut LocalRecords, records: u32) -> Code
    requires none { NoneMarked local.old.copied }
    ensures none { NoneMarked local.new.copied }
    ensures ages { AgesFor local.old local.new records result }
    ensures local { (known : List Known) → IsLocal local.old known → IsLocal local.new known }
    ensures apart { NoAnchor local.old.roots → NoAnchor local.new.roots }
{
    match local.age() {
        Ok(()) => {
            if records <= local.spare() {
                Code::Ok
            } else {
                Code::Part
            }
        }
        Err(_) => Code::Spent,
    }
}

/// Whether so many places are free, and besides as many as a sharing may need later: one for each
/// record, with so many more records, and one for each root.
fn has_places(free: usize, places: usize, roots: usize, all: u32, records: u32) -> bool
    ensures yes { OnTrue result (places + (roots + (all + records)) ≤ free) }
    ensures no { OnFalse result (free < places + (roots + (all + records))) }
{
    if free < places {
        return false;
    }
    let left = free - places;
    if left < roots {
        return false;
    }
    u64::from(all) + u64::from(records) <= (left - roots) as u64
}

/// Makes room for so many more private records and places, by one step.
pub(crate) fn reserve(
    heap: &CellHeap<Rule>,
    seat: &mut MutSeat<Rule>,
    sorts: &mut Sorts,
    local: &mut LocalRecords,
    copied: &mut bool,
    cells: &mut FreeCells<'_>,
    base: usize,
    records: u32,
    places: usize,
) -> Code
    requires owned { IsOwned heap.now seat.old sorts.old local.old }
    requires noted { NotesCopies copied.old local.old }
    ensures owned { IsOwned heap.now seat.new sorts.new local.new }
    ensures noted { NotesCopies copied.new local.new }
    ensures reserved { MakesRoom (owned_by heap.now seat.old sorts.old local.old)
        (owned_by heap.now seat.new sorts.new local.new) base records places result }
    ensures waits { SaysNone result → cells.new.refusals ≢ cells.old.refusals }
{
    if !seat.is_in() {
        return Code::NotIn;
    }
    let held = seat.held_len();
    if base < FIRST || held < base {
        return Code::BadPlace;
    }
    let spare = local.spare();
    let all = local.len();
    if spare < records && all < records - spare {
        return Code::BadSize;
    }
    let free = seat.room();
    let roots = local.roots_len();
    if has_places(free, places, roots, all, records) {
        if records <= spare {
            return Code::Ok;
        }
        if may_age(*copied, local) {
            return age(local, records);
        }
    }
    share_for(heap, seat, sorts, local, copied, cells, base, places)
}
