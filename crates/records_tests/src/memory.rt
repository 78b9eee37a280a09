//! A private heap alone, as a pool of records: nothing in it is shared, and no place is ever taken.
ghost use Rattle.std.specs.Prelude.{◌≡◌, ◌+◌, ◌≤◌, [], IfOk};
ghost use Rattle.cell_words.specs.Term.{five};
ghost use Rattle.doc_records.specs.Pool.{IsOn, Kept, Later, Stands, part_term, own_place};
ghost use Rattle.records_tests.specs.Memory.{field_of, shown};

use doc_records::{NoMemory, Part, RecordPool};
use minor_heap::{MinorField, MinorHeap, MinorRef};
use std::alloc::Global;

/// A private heap.
#[derive(Drop)]
pub struct MemoryPool {
    pub heap: MinorHeap,
}

impl MemoryPool {
    /// A pool with room for so many records.
    pub fn with_room(alloc: Global, records: u32) -> Result<MemoryPool, NoMemory>
        ensures room { IfOk result (λ pool. (shown pool).records ≡ records) }
        ensures places { IfOk result (λ pool. (shown pool).held + 8192 ≤ (shown pool).room) }
    {
        Ok(MemoryPool {
            heap: MinorHeap::with_room(alloc, records)?,
        })
    }
}

fn field(part: Part<MinorRef>) -> MinorField
    ensures { result ≡ field_of part }
{
    match part {
        Part::Null => MinorField::Null,
        Part::Num(number) => MinorField::Num(number),
        Part::Record(r) => MinorField::Minor(r),
    }
}

impl RecordPool for MemoryPool {
    ghost use Rattle.std.specs.Prelude.{ℕ, false};

    type At = MinorRef;

    // so many records stand
    ghost Fact = { ℕ };

    ghost shown = { shown };

    ghost shared = { λ at. false };

    fn read(&mut self, at: MinorRef, index: usize) -> Part<MinorRef> {
        match self.heap.field(at, index) {
            MinorField::Null => Part::Null,
            MinorField::Num(number) => Part::Num(number),
            MinorField::Minor(older) => {
                // A record that is named is one: so says a look at it.
                let _ = self.heap.field(older, 0);
                Part::Record(older)
            }
            MinorField::Shared(_) => Part::Null,
        }
    }

    fn make(
        &mut self,
        first: Part<MinorRef>,
        second: Part<MinorRef>,
        third: Part<MinorRef>,
        fourth: Part<MinorRef>,
        fifth: Part<MinorRef>,
    ) -> MinorRef
        requires first { Stands (shown self.old) first }
        requires second { Stands (shown self.old) second }
        requires third { Stands (shown self.old) third }
        requires fourth { Stands (shown self.old) fourth }
        requires fifth { Stands (shown self.old) fifth }
        requires records { 1 ≤ (shown self.old).records }
        ensures term { (shown self.new).term result ≡ five
            (part_term (shown self.old).term first) (part_term (shown self.old).term second)
            (part_term (shown self.old).term third) (part_term (shown self.old).term fourth)
            (part_term (shown self.old).term fifth) }
        ensures stands { (shown self.new).stands (shown self.new).held result }
        ensures later { Later (shown self.old) (shown self.new) }
        ensures held { (shown self.new).held ≡ (shown self.old).held }
        ensures records { (shown self.old).records ≡ (shown self.new).records + 1 }
    {
        let fields = [
            field(first),
            field(second),
            field(third),
            field(fourth),
            field(fifth),
        ];
        match self.heap.make(fields) {
            Ok(made) => made,
            Err(_) => unreachable!(),
        }
    }

    fn held(&self) -> usize {
        // How many records there is room for is a number of 32 bits.
        let _ = self.heap.spare();
        1
    }

    fn cut(&mut self, places: usize) {}

    fn keep(&mut self, places: usize, at: MinorRef) -> MinorRef {
        at
    }
}
