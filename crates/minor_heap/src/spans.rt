//! Marks where few of the records are reached.
//!
//! What some roots reach lies between the oldest record that is reached and the newest root. A pass
//! that goes down from there and stops at the oldest mark looks at no other record.
ghost use Rattle.std.specs.Prelude.{◌≡◌, ◌<◌, ◌≤◌, ◌↔◌, All, [], length, slice_index_or};
ghost use Rattle.std.specs.List.{Contains};
ghost use Rattle.minor_heap.specs.declared.fields.MinorRef.{MinorRef};
ghost use Rattle.minor_heap.specs.Marking.{marked_of, with_field, with_fields};
ghost use Rattle.minor_heap.specs.Nursery.{FitsRecord, IsOrdered, Stands};
ghost use Rattle.minor_heap.specs.Reaches.{AreReached, IsMarked, Reaches};
ghost use Rattle.minor_heap.specs.Spans.{AreFrom, AreWithin, NoneMarked};

use crate::fields::{MinorField, MinorRef};
use crate::heap::MinorHeap;
use crate::marks::mark_all;

/// Two numbers, and the records between them.
#[derive(Clone, Copy, Debug, PartialEq, Eq)]
pub struct RecordSpan {
    pub first: u32,
    /// the number after the last
    pub end: u32,
}

impl RecordSpan {
    /// Takes away the marks of these records.
    pub fn unmark(self, marks: &mut [bool])
        requires stands { self.end ≤ length marks.old }
        requires within { AreWithin self marks.old }
        ensures none { NoneMarked marks.new }
        ensures length { length marks.new ≡ length marks.old }
    {
        for number in self.first..self.end {
            marks[number as usize] = false;
        }
    }
}

impl MinorHeap {
    /// Marks, where nothing is marked, each record that these reach, and tells between which
    /// numbers they lie. It takes no memory.
    pub fn mark_span(&self, from: &[MinorRef], marks: &mut [bool]) -> RecordSpan
        requires stand { All (Stands self.now.records) from.now }
        requires room { length self.now.records ≤ length marks.old }
        requires none { NoneMarked marks.old }
        ensures length { length marks.new ≡ length marks.old }
        ensures marks { (r : MinorRef) → IsMarked marks.new r
            ↔ Reaches self.now.records (Contains from.now) r }
        ensures reached { AreReached self.now.records from.now (marked_of 0 marks.new) }
        ensures ordered { IsOrdered 0 self.now.records }
        ensures within { AreWithin result marks.new }
        ensures stands { result.end ≤ length self.now.records }
    {
        let _ = &self.records;
        let roots = span_of(self.len(), from);
        mark_all(from, marks);
        let mut first = roots.first;
        let mut number = roots.end;
        while number > first {
            number -= 1;
            if marks[number as usize] {
                first = self.mark_older(MinorRef { number }, marks, first);
            }
        }
        RecordSpan {
            first,
            end: roots.end,
        }
    }

    /// Marks each record that this one names, where no mark is below a first one, and tells the
    /// first one of then.
    fn mark_older(&self, r: MinorRef, marks: &mut [bool], first: u32) -> u32
        requires stands { Stands self.now.records r }
        requires room { length self.now.records ≤ length marks.old }
        requires from { AreFrom first marks.old }
        ensures marks { marks.new
            ≡ with_fields 5 (slice_index_or self.now.records r.number []) marks.old }
        ensures from { AreFrom result marks.new }
    {
        let mut lowest = first;
        for i in 0..5 {
            lowest = mark_below(self.field(r, i), marks, lowest);
        }
        lowest
    }
}

/// Marks the record that a field names, where no mark is below a first one, and tells the first one
/// of then.
fn mark_below(field: MinorField, marks: &mut [bool], first: u32) -> u32
    requires fits { FitsRecord (length marks.old) field }
    requires from { AreFrom first marks.old }
    ensures marks { marks.new ≡ with_field field marks.old }
    ensures from { AreFrom result marks.new }
{
    match field {
        MinorField::Minor(older) => {
            marks[older.number as usize] = true;
            first.min(older.number)
        }
        _ => first,
    }
}

/// Numbers between which these records lie.
fn span_of(count: u32, from: &[MinorRef]) -> RecordSpan
    requires stand { All (λ r. r.number < count) from.now }
    ensures first { All (λ r. result.first ≤ r.number) from.now }
    ensures last { All (λ r. r.number < result.end) from.now }
    ensures end { result.end ≤ count }
{
    let mut first = count;
    let mut end: u32 = 0;
    for r in from {
        first = first.min(r.number);
        end = end.max(r.number + 1);
    }
    RecordSpan { first, end }
}
