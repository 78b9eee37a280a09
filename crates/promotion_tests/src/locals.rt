//! Private records of a program that is not proved: two of them, their roots, and their copies.
ghost use Rattle.std.specs.Prelude.{◌≡◌, ◌≤◌, List, length, true};
ghost use Rattle.heap_rule.specs.declared.known.Known.{Known};
ghost use Rattle.mutator_seat.specs.Bound.{IsBound};
ghost use Rattle.local_records.specs.Local.{IsLocal};

use crate::cells::NextCells;
use crate::heaps::{close_one, open_one};
use crate::seats::{come_in, leave};
use crate::shown::{Cells, cells_of};
use cell_heap::NoMemory;
use heap_rule::NoRule;
use heap_table::CellHeap;
use local_records::{LocalRecords, NotMade};
use local_references::{LocalRef, Root};
use minor_heap::FieldKind::{Minor, Null, Num};
use minor_heap::MinorField;
use mutator_seat::MutSeat;
use record_copying::Progress;
use std::alloc::Global;

/// What a make answered.
pub(crate) type Made = Result<LocalRef, NotMade>;

/// A record of the number 5, one that names a record that is not there, one that names the first
/// twice, and one for which there is no room.
pub(crate) fn make_two(local: &mut LocalRecords) -> [Made; 4]
    ensures local { (known : List Known) → IsLocal local.old known → IsLocal local.new known }
{
    let first = local.make([Num, Null, Null, Null, Null], [5, 0, 0, 0, 0], 1);
    let unfit = local.make([Minor, Null, Null, Null, Null], [1, 0, 0, 0, 0], 1);
    let second = local.make([Minor, Minor, Null, Null, Null], [0, 0, 0, 0, 0], 1);
    let full = local.make([Null, Null, Null, Null, Null], [0, 0, 0, 0, 0], 1);
    [first, unfit, second, full]
}

/// Keeps the record that a reference names as a root, if it is of this turn.
pub(crate) fn keep_root(local: &mut LocalRecords, r: LocalRef)
    ensures local { (known : List Known) → IsLocal local.old known → IsLocal local.new known }
{
    if let Some(found) = local.find(r) {
        let _ = local.push(Root::Private(found), 0);
    }
}

/// Keeps the second record, a number and the anchor as roots.
fn keep_three(local: &mut LocalRecords)
    ensures local { (known : List Known) → IsLocal local.old known → 1 ≤ length known
        → IsLocal local.new known }
{
    keep_root(local, LocalRef { turn: 0, number: 1 });
    let _ = local.push(Root::Num(9), 1);
    let _ = local.push(Root::Shared(0), 1);
}

/// A root, where there is one.
pub(crate) fn root_at(local: &LocalRecords, i: usize) -> Option<Root> {
    if i < local.roots_len() {
        Some(local.root(i))
    } else {
        None
    }
}

/// A field of the record that a root is, where it is one.
pub(crate) fn field_of(local: &LocalRecords, i: usize, field: usize) -> Option<MinorField> {
    if i >= local.roots_len() || field >= 5 {
        return None;
    }
    match local.root(i) {
        Root::Private(r) => Some(local.field(r, field)),
        Root::Null | Root::Num(_) | Root::Shared(_) => None,
    }
}

/// Copies at most so many records of what the roots reach, where it gets at most so many cells, and
/// settles the roots after the anchor where that is all.
fn share_some(
    heap: &CellHeap<NoRule>,
    seat: &mut MutSeat<NoRule>,
    cells: &mut NextCells,
    local: &mut LocalRecords,
    given: u32,
    most: usize,
) -> Progress
    requires seat { IsBound heap.now seat.old }
    requires inside { seat.old.me.presence.inside ≡ true }
    requires local { IsLocal local.old seat.old.me.known }
    ensures seat { IsBound heap.now seat.new }
    ensures inside { seat.new.me.presence.inside ≡ true }
    ensures local { IsLocal local.new seat.new.me.known }
{
    cells.left = given;
    let most = most.min(seat.room());
    let progress = local.copy_slice(heap, seat, cells, most);
    let _held = seat.held_len();
    match progress {
        Progress::Done => {
            if local.roots_len() <= seat.room() {
                local.settle(heap, seat, 1);
            }
        }
        Progress::Part => (),
        Progress::NoCell => (),
    }
    progress
}

/// Three calls: one gets no cell, one may copy one record, and one copies the other.
fn share_all(
    heap: &CellHeap<NoRule>,
    seat: &mut MutSeat<NoRule>,
    local: &mut LocalRecords,
) -> [Progress; 3]
    requires seat { IsBound heap.now seat.old }
    requires inside { seat.old.me.presence.inside ≡ true }
    requires local { IsLocal local.old seat.old.me.known }
    ensures seat { IsBound heap.now seat.new }
    ensures inside { seat.new.me.presence.inside ≡ true }
{
    let mut cells = NextCells {
        next: 1,
        left: 0,
        refusals: 0,
    };
    let waits = share_some(heap, seat, &mut cells, local, 0, 1);
    let one = share_some(heap, seat, &mut cells, local, 2, 1);
    let all = share_some(heap, seat, &mut cells, local, 2, 2);
    [waits, one, all]
}

fn three_roots(local: &LocalRecords) -> [Option<Root>; 3] {
    [root_at(local, 0), root_at(local, 1), root_at(local, 2)]
}

/// What becomes of two records whose roots are shared: the makes, the slices, the roots before and
/// after, whether a reference of before is found, and the cells of the heap.
pub(crate) type Shared = (
    [Made; 4],
    [Progress; 3],
    [Option<Root>; 3],
    [Option<Root>; 3],
    bool,
    Cells,
);

pub(crate) fn shared(alloc: Global) -> Result<Shared, NoMemory> {
    let mut local = LocalRecords::with_room(alloc, 2, 3)?;
    let (heap, collector, mut seat) = open_one(alloc, 4)?;
    come_in(&heap, &mut seat);
    let _held = seat.held_len();
    let made = make_two(&mut local);
    keep_three(&mut local);
    let before = three_roots(&local);
    let steps = share_all(&heap, &mut seat, &mut local);
    let after = three_roots(&local);
    let is_found = local.find(LocalRef { turn: 0, number: 1 }).is_some();
    leave(&heap, &mut seat);
    let image = close_one(heap, collector, seat);
    Ok((made, steps, before, after, is_found, cells_of(&image)))
}

/// What becomes of a root when its record ages after one that nothing reaches: the root, a field of
/// its record, how many records stand, whether they have aged, and whether a reference of before is
/// found.
pub(crate) type Aged = (Option<Root>, Option<MinorField>, u32, bool, bool);

pub(crate) fn aged(alloc: Global) -> Result<Aged, NoMemory> {
    let mut local = LocalRecords::with_room(alloc, 3, 1)?;
    let _ = local.make([Num, Null, Null, Null, Null], [5, 0, 0, 0, 0], 0);
    let _ = local.make([Num, Null, Null, Null, Null], [7, 0, 0, 0, 0], 0);
    let second = LocalRef { turn: 0, number: 1 };
    keep_root(&mut local, second);
    let _ = local.age();
    Ok((
        root_at(&local, 0),
        field_of(&local, 0, 0),
        local.len(),
        local.has_aged(),
        local.find(second).is_some(),
    ))
}

/// What two promotions of the second record answer, of which the first may copy one record alone.
fn promote_twice(
    heap: &CellHeap<NoRule>,
    seat: &mut MutSeat<NoRule>,
    local: &mut LocalRecords,
) -> Option<[Result<usize, Progress>; 2]>
    requires seat { IsBound heap.now seat.old }
    requires inside { seat.old.me.presence.inside ≡ true }
    requires local { IsLocal local.old seat.old.me.known }
    ensures seat { IsBound heap.now seat.new }
    ensures inside { seat.new.me.presence.inside ≡ true }
{
    let mut cells = NextCells {
        next: 1,
        left: 3,
        refusals: 0,
    };
    let second = local.find(LocalRef { turn: 0, number: 1 })?;
    if seat.room() == 0 {
        return None;
    }
    let part = local.promote(heap, seat, &mut cells, second, 1);
    if seat.room() == 0 {
        return None;
    }
    let done = local.promote(heap, seat, &mut cells, second, 1);
    Some([part, done])
}

/// What two promotions answer, and how many records stand once all is let go.
pub(crate) type Promoted = (Option<[Result<usize, Progress>; 2]>, u32);

pub(crate) fn promoted(alloc: Global) -> Result<Promoted, NoMemory> {
    let mut local = LocalRecords::with_room(alloc, 2, 3)?;
    let (heap, collector, mut seat) = open_one(alloc, 4)?;
    come_in(&heap, &mut seat);
    let _ = make_two(&mut local);
    let steps = promote_twice(&heap, &mut seat, &mut local);
    local.clear();
    let left = local.len();
    leave(&heap, &mut seat);
    let _image = close_one(heap, collector, seat);
    Ok((steps, left))
}
