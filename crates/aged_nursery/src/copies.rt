//! Records copied from one heap into another.
ghost use Rattle.std.specs.Prelude.{◌≡◌, ◌<◌, ◌≤◌, ◌++◌, ◌∷◌, [], All, map, length, slice_index_or};
ghost use Rattle.minor_heap.specs.declared.fields.MinorRef.{MinorRef};
ghost use Rattle.minor_heap.specs.Marking.{marked_of};
ghost use Rattle.minor_heap.specs.Nursery.{FitsRecord, IsOrdered, Stands, field_at};
ghost use Rattle.minor_heap.specs.Reaches.{IsMarked};
ghost use Rattle.minor_heap.specs.Spans.{NoneMarked};
ghost use Rattle.aged_nursery.specs.Copies.{AreClosed, AreCopied, moved_field, moved_record};
ghost use Rattle.aged_nursery.specs.Copies.{moved_ref};
ghost use Rattle.aged_nursery.specs.Survivors.{AreSurvivors, NameNoMore};

use minor_heap::{MinorField, MinorHeap, MinorRef};

/// Copies what some roots reach into an empty heap, and sets the roots to their copies. Nothing is
/// marked before or after.
pub(crate) fn copy_reached(
    heap: &MinorHeap,
    other: &mut MinorHeap,
    marks: &mut [bool],
    numbers: &mut [u32],
    roots: &mut [MinorRef],
)
    requires stand { All (Stands heap.now.records) roots.old }
    requires empty { other.old.records ≡ [] }
    requires room { length heap.now.records ≤ other.old.room }
    requires marks { length heap.now.records ≤ length marks.old }
    requires numbers { length heap.now.records ≤ length numbers.old }
    requires none { NoneMarked marks.old }
    ensures survivors { AreSurvivors heap.now.records roots.old other.new.records roots.new }
    ensures named { NameNoMore heap.now.records other.new.records }
    ensures room { other.new.room ≡ other.old.room }
    ensures marks { length marks.new ≡ length marks.old }
    ensures numbers { length numbers.new ≡ length numbers.old }
    ensures none { NoneMarked marks.new }
{
    let span = heap.mark_span(roots, marks);
    copy_marked(heap, other, marks, numbers);
    move_refs(numbers, roots);
    span.unmark(marks);
}

/// Copies each record that is marked, the oldest first, into an empty heap.
fn copy_marked(heap: &MinorHeap, other: &mut MinorHeap, marks: &[bool], numbers: &mut [u32])
    requires closed { AreClosed heap.now.records marks.now }
    requires marks { length heap.now.records ≤ length marks.now }
    requires empty { other.old.records ≡ [] }
    requires room { length heap.now.records ≤ other.old.room }
    requires numbers { length heap.now.records ≤ length numbers.old }
    ensures copied { AreCopied heap.now.records marks.now numbers.new other.new.records
        (length heap.now.records) }
    ensures named { NameNoMore heap.now.records other.new.records }
    ensures ordered { IsOrdered 0 other.new.records }
    ensures many { length other.new.records ≡ length (marked_of 0 marks.now) }
    ensures fewer { length other.new.records ≤ length heap.now.records }
    ensures room { other.new.room ≡ other.old.room }
    ensures numbers { length numbers.new ≡ length numbers.old }
{
    for number in 0..heap.len() {
        if marks[number as usize] {
            let made = copy(heap, MinorRef { number }, numbers, other);
            numbers[number as usize] = made.number;
        }
    }
}

/// Copies a record whose older ones have been copied.
fn copy(heap: &MinorHeap, r: MinorRef, numbers: &[u32], other: &mut MinorHeap) -> MinorRef
    requires stands { Stands heap.now.records r }
    requires numbers { r.number ≤ length numbers.now }
    requires fits { All (FitsRecord (length other.old.records))
        (moved_record numbers.now (slice_index_or heap.now.records r.number [])) }
    requires room { length other.old.records < other.old.room }
    ensures made { result.number ≡ length other.old.records }
    ensures records { other.new.records ≡ other.old.records
        ++ moved_record numbers.now (slice_index_or heap.now.records r.number []) ∷ [] }
    ensures room { other.new.room ≡ other.old.room }
{
    other.make(moved(heap, r, numbers)).unwrap()
}

/// The fields of a record's copy.
fn moved(heap: &MinorHeap, r: MinorRef, numbers: &[u32]) -> [MinorField; 5]
    requires stands { Stands heap.now.records r }
    requires numbers { r.number ≤ length numbers.now }
    ensures fields { result
        ≡ moved_record numbers.now (slice_index_or heap.now.records r.number []) }
{
    [
        moved_field(heap, r, 0, numbers),
        moved_field(heap, r, 1, numbers),
        moved_field(heap, r, 2, numbers),
        moved_field(heap, r, 3, numbers),
        moved_field(heap, r, 4, numbers),
    ]
}

fn moved_field(heap: &MinorHeap, r: MinorRef, i: usize, numbers: &[u32]) -> MinorField
    requires stands { Stands heap.now.records r }
    requires range { i < 5 }
    requires numbers { r.number ≤ length numbers.now }
    ensures field { result ≡ moved_field numbers.now (field_at heap.now.records r.number i) }
{
    match heap.field(r, i) {
        MinorField::Minor(older) => MinorField::Minor(moved_ref(older, numbers)),
        field => field,
    }
}

/// Sets each of these records to its copy.
fn move_refs(numbers: &[u32], refs: &mut [MinorRef])
    requires stand { All (λ r. r.number < length numbers.now) refs.old }
    ensures moved { refs.new ≡ map (moved_ref numbers.now) refs.old }
{
    for r in refs.iter_mut() {
        *r = moved_ref(*r, numbers);
    }
}

fn moved_ref(r: MinorRef, numbers: &[u32]) -> MinorRef
    requires stands { r.number < length numbers.now }
    ensures moved { result ≡ moved_ref numbers.now r }
{
    MinorRef {
        number: numbers[r.number as usize],
    }
}
