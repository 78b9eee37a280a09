ghost use Rattle.std.specs.Prelude.{◌≡◌, ◌<◌, ◌+◌, ◌++◌, ◌↔◌, ◌∷◌, [], List, All, length, true};
ghost use Rattle.std.specs.Prelude.{IfOk, IsErr, OnErr, OnOk, take};
ghost use Rattle.cell_words.specs.Term.{Term, part, IsFive};
ghost use Rattle.minor_heap.specs.Nursery.{Stands, field_at, FitsRecord, IsOrdered};
ghost use Rattle.minor_heap.specs.Record.{IsWithin, fields_of};
ghost use Rattle.minor_heap.specs.Terms.{field_term, record_term, term_of, terms_of};

use crate::NoMemory;
use crate::fields::{MinorField, MinorRef};
use crate::record::{FieldKind, Record, is_within};
use std::alloc::Global;
use std::marker::Model;

/// As many records stand as there is room for.
#[derive(Clone, Copy, Debug, PartialEq, Eq)]
pub struct MinorFull;

/// The records of one mutator, the oldest first.
pub struct MinorHeap {
    pub(crate) records: Vec<Record>,
    room: u32,
}

impl Drop for MinorHeap {
    fn drop(self) {
        let MinorHeap {
            records: _records,
            room: _,
        } = self;
    }
}

impl Model for MinorHeap {
    ghost use Rattle.std.specs.Prelude.{vec_capacity};
    ghost use Rattle.minor_heap.specs.Nursery.{Nursery, IsSound};

    ghost Value = { Nursery };

    ghost view = { λ m. record { room = m.room; records = m.records.items } };

    ghost invariant = { λ m. IsSound m.records.items m.room (vec_capacity m.records) };
}

impl MinorHeap {
    /// An empty heap with room for so many records. All of its memory is taken here.
    pub fn with_room(alloc: Global, records: u32) -> Result<MinorHeap, NoMemory>
        ensures room { IfOk result (λ heap. heap.room ≡ records) }
        ensures empty { IfOk result (λ heap. heap.records ≡ []) }
    {
        Ok(MinorHeap {
            records: Vec::with_capacity(alloc, records as usize)?,
            room: records,
        })
    }

    /// One more record.
    pub fn make(&mut self, fields: [MinorField; 5]) -> Result<MinorRef, MinorFull>
        requires fields { All (FitsRecord (length self.old.records)) fields }
        ensures made { IfOk result (λ made. made.number ≡ length self.old.records) }
        ensures records { OnOk result (self.new.records ≡ self.old.records ++ fields ∷ []) }
        ensures room { self.new.room ≡ self.old.room }
        ensures term { OnOk result ((shared : List Term) → terms_of shared self.new.records
            ≡ terms_of shared self.old.records
            ++ record_term shared (terms_of shared self.old.records) fields ∷ []) }
        ensures full { IsErr result ↔ (length self.old.records ≡ self.old.room) }
        ensures unchanged { OnErr result (self.new ≡ self.old) }
    {
        self.push(Record::new(&fields))
    }

    /// The same of fields by their kinds and words, as they lie in a record.
    pub fn make_of_words(
        &mut self,
        kinds: [FieldKind; 5],
        words: [u64; 5],
    ) -> Result<MinorRef, MinorFull>
        requires fields { All (FitsRecord (length self.old.records)) (fields_of kinds words) }
        ensures made { IfOk result (λ made. made.number ≡ length self.old.records) }
        ensures records { OnOk result
            (self.new.records ≡ self.old.records ++ fields_of kinds words ∷ []) }
        ensures room { self.new.room ≡ self.old.room }
        ensures term { OnOk result ((shared : List Term) → terms_of shared self.new.records
            ≡ terms_of shared self.old.records
            ++ record_term shared (terms_of shared self.old.records) (fields_of kinds words) ∷ []) }
        ensures full { IsErr result ↔ (length self.old.records ≡ self.old.room) }
        ensures unchanged { OnErr result (self.new ≡ self.old) }
    {
        let _ = &self.records;
        self.push(Record::of_words(kinds, words))
    }

    /// The record, as one more.
    fn push(&mut self, fields: Record) -> Result<MinorRef, MinorFull>
        requires fields { All (FitsRecord (length self.old.records)) fields }
        ensures made { IfOk result (λ made. made.number ≡ length self.old.records) }
        ensures records { OnOk result (self.new.records ≡ self.old.records ++ fields ∷ []) }
        ensures room { self.new.room ≡ self.old.room }
        ensures term { OnOk result ((shared : List Term) → terms_of shared self.new.records
            ≡ terms_of shared self.old.records
            ++ record_term shared (terms_of shared self.old.records) fields ∷ []) }
        ensures full { IsErr result ↔ (length self.old.records ≡ self.old.room) }
        ensures unchanged { OnErr result (self.new ≡ self.old) }
    {
        if self.spare() == 0 {
            return Err(MinorFull);
        }
        let number = self.records.len() as u32;
        self.records.push_reserved(fields);
        Ok(MinorRef { number })
    }

    /// Whether fields, by their kinds and words, may be a record's whose owner holds so many
    /// places: numbers are below 2^62, records stand, and places are held.
    pub fn may_make(&self, kinds: &[FieldKind; 5], words: &[u64; 5], places: usize) -> bool
        ensures may { (result ≡ true) ↔ All (IsWithin (length self.now.records) places)
            (fields_of kinds.now words.now) }
        ensures fits { result ≡ true
            → All (FitsRecord (length self.now.records)) (fields_of kinds.now words.now) }
    {
        let ends = [0, 1 << 62, places as u64, self.len() as u64];
        for i in 0..5 {
            if !is_within(kinds[i], words[i], &ends) {
                return false;
            }
        }
        true
    }

    /// A field of a record.
    pub fn field(&self, r: MinorRef, i: usize) -> MinorField
        requires stands { Stands self.now.records r }
        requires range { i < 5 }
        ensures field { result ≡ field_at self.now.records r.number i }
        ensures older { FitsRecord r.number result }
        ensures record { (shared : List Term) → IsFive (term_of shared self.now.records r) }
        ensures part { (shared : List Term) → part i (term_of shared self.now.records r)
            ≡ field_term shared (terms_of shared self.now.records) result }
    {
        self.records[r.number as usize].field(i)
    }

    /// How many records stand.
    pub fn len(&self) -> u32
        ensures count { result ≡ length self.now.records }
        ensures ordered { IsOrdered 0 self.now.records }
    {
        self.records.len() as u32
    }

    /// How many more records there is room for.
    pub fn spare(&self) -> u32
        ensures spare { result + length self.now.records ≡ self.now.room }
    {
        self.room - self.len()
    }

    /// Lets all records go but the first so many, and keeps the room. Those name none that goes.
    pub fn truncate(&mut self, kept: u32)
        ensures records { self.new.records ≡ take kept self.old.records }
        ensures room { self.new.room ≡ self.old.room }
        ensures terms { (shared : List Term) → terms_of shared self.new.records
            ≡ take kept (terms_of shared self.old.records) }
    {
        self.records.truncate(kept as usize);
    }

    /// Lets all records go, and keeps the room.
    pub fn clear(&mut self)
        ensures records { self.new.records ≡ [] }
        ensures room { self.new.room ≡ self.old.room }
    {
        self.records.clear();
    }
}
