ghost use Rattle.std.specs.Prelude.{◌≡◌, ◌≢◌, ◌+◌, ◌<◌, ◌↔◌, [], IfNone, IfOk, IfSome, List, None};
ghost use Rattle.std.specs.Prelude.{length};
ghost use Rattle.std.specs.Prelude.{true};
ghost use Rattle.cell_words.specs.Term.{Term, part, IsFive};
ghost use Rattle.heap_rule.specs.declared.known.Known.{Known};
ghost use Rattle.minor_heap.specs.Nursery.{FitsRecord, Stands, field_at};
ghost use Rattle.minor_heap.specs.Spans.{NoneMarked};
ghost use Rattle.minor_heap.specs.Terms.{field_term, term_of, terms_of};
ghost use Rattle.promotion.specs.Sharing.{SharesRecord};
ghost use Rattle.local_references.specs.References.{IsCurrent};
ghost use Rattle.local_records.specs.Local.{IsLocal};

use aged_nursery::AgedNursery;
use local_references::{LocalRef, RootStack, Turns};
use minor_heap::{MinorField, MinorRef};
use record_copying::CopyTable;
pub use std::alloc::AllocError as NoMemory;
use std::alloc::Global;
use std::marker::Model;

/// The private records of one mutator, with its roots and with the copies that records have.
pub struct LocalRecords {
    pub(crate) nursery: AgedNursery,
    pub(crate) table: CopyTable,
    pub(crate) stack: RootStack,
    pub(crate) turns: Turns,
    /// fields, copies and roots are of places below this one alone
    pub(crate) named: usize,
}

impl Drop for LocalRecords {
    fn drop(self) {
        let LocalRecords {
            nursery: _nursery,
            table: _table,
            stack: _stack,
            turns: _turns,
            named: _,
        } = self;
    }
}

impl Model for LocalRecords {
    ghost use Rattle.local_records.specs.Local.{IsWhole, Local};

    ghost Value = { Local };

    ghost view = { λ l. record {
      room = l.nursery.heap.room;
      records = l.nursery.heap.records;
      aged = l.nursery.aged;
      copied = l.table.copied;
      places = l.table.places;
      most = l.stack.room;
      roots = l.stack.roots;
      turn = l.turns;
      named = l.named;
    } };

    ghost invariant = { λ l. IsWhole l.nursery l.table l.stack };
}

impl LocalRecords {
    /// No records and no roots, with room for so many of each. All memory is taken here.
    pub fn with_room(alloc: Global, records: u32, roots: usize) -> Result<LocalRecords, NoMemory>
        ensures room { IfOk result (λ l. l.room ≡ records) }
        ensures most { IfOk result (λ l. l.most ≡ roots) }
        ensures empty { IfOk result (λ l. l.records ≡ []) }
        ensures rootless { IfOk result (λ l. l.roots ≡ []) }
        ensures none { IfOk result (λ l. NoneMarked l.copied) }
        ensures first { IfOk result (λ l. l.turn ≡ 0) }
        ensures named { IfOk result (λ l. l.named ≡ 0) }
        ensures local { IfOk result (λ l. (known : List Known) → IsLocal l known) }
    {
        Ok(LocalRecords {
            nursery: AgedNursery::with_room(alloc, records)?,
            table: CopyTable::with_room(alloc, records)?,
            stack: RootStack::with_room(alloc, roots)?,
            turns: Turns::new(),
            named: 0,
        })
    }

    /// A reference to a record, of this turn.
    pub fn give(&self, r: MinorRef) -> LocalRef
        ensures turn { result.turn ≡ self.now.turn }
        ensures number { result.number ≡ r.number }
    {
        self.turns.give(r)
    }

    /// The record that a reference names, if the reference is of this turn and the record stands.
    pub fn find(&self, r: LocalRef) -> Option<MinorRef>
        ensures found { IfSome result (λ found. found.number ≡ r.number) }
        ensures current { IfSome result (λ found. r.turn ≡ self.now.turn) }
        ensures stands { IfSome result (Stands self.now.records) }
        ensures stale { r.turn ≢ self.now.turn → result ≡ None }
        ensures none { IfNone result (IsCurrent self.now.turn self.now.records r → ⊥) }
    {
        self.turns.find(r, self.nursery.heap())
    }

    /// A field of a record.
    pub fn field(&self, r: MinorRef, i: usize) -> MinorField
        requires stands { Stands self.now.records r }
        requires range { i < 5 }
        ensures field { result ≡ field_at self.now.records r.number i }
        ensures older { FitsRecord r.number result }
        ensures record { (shared : List Term) → IsFive (term_of shared self.now.records r) }
        ensures part { (shared : List Term) → part i (term_of shared self.now.records r)
            ≡ field_term shared (terms_of shared self.now.records) result }
        ensures shares { (known : List Known) → IsLocal self.now known
            → SharesRecord known result }
    {
        self.nursery.heap().field(r, i)
    }

    /// How many records stand.
    pub fn len(&self) -> u32
        ensures count { result ≡ length self.now.records }
    {
        self.nursery.heap().len()
    }

    /// How many more records there is room for.
    pub fn spare(&self) -> u32
        ensures spare { result + length self.now.records ≡ self.now.room }
    {
        self.nursery.heap().spare()
    }

    /// Whether the last ageing kept records that have not been settled since.
    pub fn has_aged(&self) -> bool
        ensures aged { (result ≡ true) ↔ 0 < self.now.aged }
    {
        self.nursery.aged_len() > 0
    }

    /// Only places below this one are of fields, copies and roots.
    pub fn named(&self) -> usize
        ensures named { result ≡ self.now.named }
    {
        self.named
    }
}
