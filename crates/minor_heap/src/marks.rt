//! Which records are reached by chains of fields.
//!
//! A record names older ones alone, so one pass from the newest record down to the oldest finds all
//! that the marked ones reach: when a record's turn comes, no later turn can mark it. No stack is
//! needed. `mark` is public as well as `reached`, which uses it: a copy into the shared heap needs
//! the marks alone, which lie in memory that the caller has.
ghost use Rattle.std.specs.Prelude.{◌≡◌, ◌<◌, ◌≤◌, ◌^◌, ◌↔◌, All, IfOk, [], false};
ghost use Rattle.std.specs.Prelude.{length, replicate, slice_index_or};
ghost use Rattle.std.specs.List.{Contains};
ghost use Rattle.minor_heap.specs.declared.fields.MinorRef.{MinorRef};
ghost use Rattle.minor_heap.specs.Nursery.{FitsRecord, Stands};
ghost use Rattle.minor_heap.specs.Marking.{marked_of, with_field, with_fields, with_refs};
ghost use Rattle.minor_heap.specs.Reaches.{AreReached, IsMarked, Reaches};

use crate::NoMemory;
use crate::fields::{MinorField, MinorRef};
use crate::heap::MinorHeap;
use std::alloc::Global;

impl MinorHeap {
    /// Marks, besides the records that are marked, each that they reach. It takes no memory.
    pub fn mark(&self, marks: &mut [bool])
        requires length { length marks.old ≡ length self.now.records }
        ensures length { length marks.new ≡ length marks.old }
        ensures marks { (r : MinorRef) → IsMarked marks.new r
            ↔ Reaches self.now.records (IsMarked marks.old) r }
    {
        let _ = &self.records;
        let mut number = self.len();
        while number > 0 {
            number -= 1;
            if marks[number as usize] {
                self.mark_named(MinorRef { number }, marks);
            }
        }
    }

    /// Marks each record that this one names.
    fn mark_named(&self, r: MinorRef, marks: &mut [bool])
        requires stands { Stands self.now.records r }
        requires length { length marks.old ≡ length self.now.records }
        ensures marks { marks.new
            ≡ with_fields 5 (slice_index_or self.now.records r.number []) marks.old }
    {
        for i in 0..5 {
            mark_field(self.field(r, i), marks);
        }
    }

    /// Each record that chains of fields reach from these.
    pub fn reached(&self, alloc: Global, from: &[MinorRef]) -> Result<Vec<MinorRef>, NoMemory>
        requires stand { All (Stands self.now.records) from.now }
        ensures reached { IfOk result (λ found. AreReached self.now.records from.now found.items) }
    {
        let mut marks = Vec::from_elem(alloc, false, self.len() as usize)?;
        self.mark_from(from, marks.as_mut_slice());
        let found = marked(alloc, marks.as_slice())?;
        Ok(found)
    }

    /// Marks, where nothing is marked, each record that these reach.
    fn mark_from(&self, from: &[MinorRef], marks: &mut [bool])
        requires stand { All (λ r. r.number < length self.now.records) from.now }
        requires unmarked { marks.old ≡ replicate (length self.now.records) false }
        ensures length { length marks.new ≡ length marks.old }
        ensures marks { (r : MinorRef) → IsMarked marks.new r
            ↔ Reaches self.now.records (Contains from.now) r }
    {
        mark_all(from, marks);
        self.mark(marks);
    }
}

/// Marks the record that a field names.
fn mark_field(field: MinorField, marks: &mut [bool])
    requires { FitsRecord (length marks.old) field }
    ensures marks { marks.new ≡ with_field field marks.old }
{
    if let MinorField::Minor(older) = field {
        marks[older.number as usize] = true;
    }
}

/// Marks these records.
pub(crate) fn mark_all(from: &[MinorRef], marks: &mut [bool])
    requires stand { All (λ r. r.number < length marks.old) from.now }
    ensures marks { marks.new ≡ with_refs from.now marks.old }
{
    for r in from {
        marks[r.number as usize] = true;
    }
}

/// The records that are marked, the oldest first.
fn marked(alloc: Global, marks: &[bool]) -> Result<Vec<MinorRef>, NoMemory>
    requires few { length marks.now < 2 ^ 32 }
    ensures marked { IfOk result (λ found. found.items ≡ marked_of 0 marks.now) }
{
    let mut found = Vec::new(alloc);
    for number in 0..marks.len() {
        if marks[number] {
            let r = MinorRef {
                number: number as u32,
            };
            found.push(r)?;
        }
    }
    Ok(found)
}
