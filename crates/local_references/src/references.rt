ghost use Rattle.std.specs.Prelude.{◌≡◌, ◌≢◌, ◌+◌, ◌↔◌, IfNone, IfSome, IsErr, None, OnErr, OnOk};
ghost use Rattle.std.specs.Prelude.{true};
ghost use Rattle.minor_heap.specs.Nursery.{Stands};
ghost use Rattle.local_references.specs.References.{IsCurrent};

use minor_heap::{MinorHeap, MinorRef};
use std::marker::Model;

/// A record, as a program names it: its number in one turn.
#[derive(Clone, Copy, Debug, PartialEq, Eq)]
pub struct LocalRef {
    pub turn: u32,
    pub number: u32,
}

/// There are no more turns.
#[derive(Clone, Copy, Debug, PartialEq, Eq)]
pub struct Spent;

/// How often the records have moved. Contracts see it as that number.
pub struct Turns {
    turn: u32,
}

impl Drop for Turns {
    fn drop(self) {
        let Turns { turn: _ } = self;
    }
}

impl Model for Turns {
    ghost use Rattle.std.specs.Prelude.{ℕ};

    ghost Value = { ℕ };

    ghost view = { λ t. t.turn };
}

impl Turns {
    /// The records have never moved.
    pub fn new() -> Turns
        ensures first { result ≡ 0 }
    {
        Turns { turn: 0 }
    }

    /// A reference to a record, of this turn.
    pub fn give(&self, r: MinorRef) -> LocalRef
        ensures turn { result.turn ≡ self.now }
        ensures number { result.number ≡ r.number }
    {
        LocalRef {
            turn: self.turn,
            number: r.number,
        }
    }

    /// The record that a reference names, if the reference is of this turn and the record stands.
    pub fn find(&self, r: LocalRef, minor: &MinorHeap) -> Option<MinorRef>
        ensures found { IfSome result (λ found. found.number ≡ r.number) }
        ensures current { IfSome result (λ found. r.turn ≡ self.now) }
        ensures stands { IfSome result (Stands minor.now.records) }
        ensures stale { r.turn ≢ self.now → result ≡ None }
        ensures none { IfNone result (IsCurrent self.now minor.now.records r → ⊥) }
    {
        if r.turn == self.turn && r.number < minor.len() {
            Some(MinorRef { number: r.number })
        } else {
            None
        }
    }

    /// Whether there is no turn after this one.
    pub fn is_last(&self) -> bool
        ensures last { (result ≡ true) ↔ (self.now ≡ 4294967295) }
    {
        self.turn == u32::MAX
    }

    /// The records have moved: no reference that was given so far is found any more. After so many
    /// moves as there are turns the count stays, and records may not move again.
    pub fn advance(&mut self) -> Result<(), Spent>
        ensures next { OnOk result (self.new ≡ self.old + 1) }
        ensures spent { IsErr result ↔ (self.old ≡ 4294967295) }
        ensures unchanged { OnErr result (self.new ≡ self.old) }
    {
        if self.turn == u32::MAX {
            return Err(Spent);
        }
        self.turn += 1;
        Ok(())
    }
}
