ghost use Rattle.std.specs.Prelude.{◌≡◌, [], All, IfOk, List, length, min, take};
ghost use Rattle.std.specs.Borrow.{sem};
ghost use Rattle.cell_words.specs.Term.{Term};
ghost use Rattle.minor_heap.specs.Nursery.{Stands};
ghost use Rattle.minor_heap.specs.Terms.{terms_of};
ghost use Rattle.aged_nursery.specs.Aged.{Aged};
ghost use Rattle.aged_nursery.specs.Lending.{LendsHeap};
ghost use Rattle.aged_nursery.specs.Survivors.{AreSurvivors, NameNoMore};

use crate::NoMemory;
use crate::copies::copy_reached;
use minor_heap::{MinorHeap, MinorRef};
use std::alloc::Global;
use std::marker::Model;

/// Two heaps of one room, of which one is in use. Records that are made while `aged_len` is 0 may
/// age once before their owner collects them.
pub struct AgedNursery {
    heap: MinorHeap,
    /// empty but for `age`
    other: MinorHeap,
    marks: Vec<bool>,
    /// of each record that is copied the number of its copy
    numbers: Vec<u32>,
    aged: u32,
}

impl Drop for AgedNursery {
    fn drop(self) {
        let AgedNursery {
            heap: _heap,
            other: _other,
            marks: _marks,
            numbers: _numbers,
            aged: _,
        } = self;
    }
}

impl Model for AgedNursery {
    ghost use Rattle.std.specs.Prelude.{length};
    ghost use Rattle.aged_nursery.specs.Aged.{Aged, IsSpare};

    ghost Value = { Aged };

    ghost view = { λ a. record {
      heap = a.heap;
      records = length a.marks.items;
      aged = a.aged;
    } };

    ghost invariant = { λ a. IsSpare a.other a.marks.items a.numbers.items };
}

impl AgedNursery {
    /// An empty heap with room for so many records, and all that it takes to copy them.
    pub fn with_room(alloc: Global, records: u32) -> Result<AgedNursery, NoMemory>
        ensures room { IfOk result (λ nursery. nursery.heap.room ≡ records) }
        ensures empty { IfOk result (λ nursery. nursery.heap.records ≡ []) }
        ensures records { IfOk result (λ nursery. nursery.records ≡ records) }
        ensures aged { IfOk result (λ nursery. nursery.aged ≡ 0) }
    {
        Ok(AgedNursery {
            heap: MinorHeap::with_room(alloc, records)?,
            other: MinorHeap::with_room(alloc, records)?,
            marks: Vec::from_elem(alloc, false, records as usize)?,
            numbers: Vec::from_elem(alloc, 0, records as usize)?,
            aged: 0,
        })
    }

    /// The heap in use.
    pub fn heap(&self) -> &MinorHeap
        ensures heap { result.now ≡ self.now.heap }
    {
        &self.heap
    }

    /// The heap in use, to be written to.
    pub fn heap_mut(&mut self) -> &mut MinorHeap
        ensures* lends { sem 𝓛 (LendsHeap self.entry result) }
        ensures heap { result.now ≡ self.old.heap }
    {
        &mut self.heap
    }

    /// Lets all records go but those that some roots reach. These are copied, each once and the
    /// oldest first, and the roots are set to the copies. It takes no memory.
    pub fn age(&mut self, roots: &mut [MinorRef])
        requires stand { All (Stands self.old.heap.records) roots.old }
        requires whole { self.old.heap.room ≡ self.old.records }
        ensures survivors { AreSurvivors self.old.heap.records roots.old self.new.heap.records
            roots.new }
        ensures named { NameNoMore self.old.heap.records self.new.heap.records }
        ensures room { self.new.heap.room ≡ self.old.heap.room }
        ensures records { self.new.records ≡ self.old.records }
        ensures aged { self.new.aged ≡ length self.new.heap.records }
    {
        let _spare = self.heap.spare();
        copy_reached(
            &self.heap,
            &mut self.other,
            self.marks.as_mut_slice(),
            self.numbers.as_mut_slice(),
            roots,
        );
        self.heap.clear();
        std::mem::swap(&mut self.heap, &mut self.other);
        self.aged = self.heap.len();
    }

    /// Lets all records go but the first so many.
    pub fn cut_back(&mut self, kept: u32)
        ensures first { self.new.heap.records ≡ take kept self.old.heap.records }
        ensures terms { (shared : List Term) → terms_of shared self.new.heap.records
            ≡ take kept (terms_of shared self.old.heap.records) }
        ensures room { self.new.heap.room ≡ self.old.heap.room }
        ensures records { self.new.records ≡ self.old.records }
        ensures aged { self.new.aged ≡ min self.old.aged kept }
    {
        self.heap.truncate(kept);
        self.aged = self.aged.min(kept);
    }

    /// How many records the last `age` kept, less those that were cut off since; 0 if they were
    /// promoted since. They are the first ones.
    pub fn aged_len(&self) -> u32
        ensures aged { result ≡ self.now.aged }
    {
        self.aged
    }

    /// Says that the records have been copied into the shared heap.
    pub fn promoted(&mut self)
        requires empty { self.old.heap.records ≡ [] }
        ensures promoted { self.new ≡ record self.old { aged = 0 } }
    {
        self.aged = 0;
    }
}
