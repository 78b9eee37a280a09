//! What moves records: each call counts the turn on.
ghost use Rattle.std.specs.Prelude.{◌≡◌, ◌+◌, ◌↔◌, [], IsErr, List, OnErr, OnOk, length};
ghost use Rattle.heap_rule.specs.declared.known.Known.{Known};
ghost use Rattle.minor_heap.specs.Spans.{NoneMarked};
ghost use Rattle.aged_nursery.specs.Survivors.{AreSurvivors};
ghost use Rattle.local_references.specs.Roots.{AllStand, RootsKeep, private_of};
ghost use Rattle.local_records.specs.Local.{IsLocal, IsNextTurn};

use crate::local::LocalRecords;
use local_references::{Spent, Turns};

/// Counts the turn on, but for the last one.
fn count_on(turns: &mut Turns)
    ensures turn { IsNextTurn turns.old turns.new }
{
    match turns.advance() {
        Ok(()) => (),
        Err(_) => (),
    }
}

impl LocalRecords {
    /// Lets all records go but those that the roots reach. The roots move with theirs, and copies
    /// are forgotten.
    pub fn age(&mut self) -> Result<(), Spent>
        ensures keep { OnOk result (RootsKeep self.old.records self.old.roots self.new.records
            self.new.roots) }
        ensures survivors { OnOk result (AreSurvivors self.old.records (private_of self.old.roots)
            self.new.records (private_of self.new.roots)) }
        ensures aged { OnOk result (self.new.aged ≡ length self.new.records) }
        ensures none { OnOk result (NoneMarked self.new.copied) }
        ensures turn { OnOk result (self.new.turn ≡ self.old.turn + 1) }
        ensures room { self.new.room ≡ self.old.room }
        ensures most { self.new.most ≡ self.old.most }
        ensures named { self.new.named ≡ self.old.named }
        ensures local { (known : List Known) → IsLocal self.old known → IsLocal self.new known }
        ensures spent { IsErr result ↔ (self.old.turn ≡ 4294967295) }
        ensures unchanged { OnErr result (self.new ≡ self.old) }
    {
        let before = self.nursery.heap().len();
        let _spare = self.nursery.heap().spare();
        match self.stack.age(&mut self.nursery, &mut self.turns) {
            Ok(()) => {
                self.table.forget(before);
                Ok(())
            }
            Err(spent) => Err(spent),
        }
    }

    /// Lets all records and copies go.
    pub(crate) fn empty(&mut self)
        requires rootless { AllStand [] self.old.roots }
        ensures none { NoneMarked self.new.copied }
        ensures only { self.new ≡ record self.old {
          records = [];
          aged = 0;
          copied = self.new.copied;
          places = self.new.places;
          turn = self.new.turn;
        } }
        ensures turn { IsNextTurn self.old.turn self.new.turn }
    {
        let all = self.nursery.heap().len();
        let _spare = self.nursery.heap().spare();
        self.table.forget(all);
        self.nursery.cut_back(0);
        self.nursery.promoted();
        count_on(&mut self.turns);
    }

    /// Lets all records, copies and roots go.
    pub fn clear(&mut self)
        ensures empty { self.new.records ≡ [] }
        ensures rootless { self.new.roots ≡ [] }
        ensures none { NoneMarked self.new.copied }
        ensures aged { self.new.aged ≡ 0 }
        ensures turn { IsNextTurn self.old.turn self.new.turn }
        ensures named { self.new.named ≡ 0 }
        ensures room { self.new.room ≡ self.old.room }
        ensures most { self.new.most ≡ self.old.most }
        ensures local { (known : List Known) → IsLocal self.new known }
    {
        self.stack.truncate(0);
        self.empty();
        self.named = 0;
    }
}
