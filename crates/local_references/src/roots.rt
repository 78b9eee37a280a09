//! The stack of roots.
ghost use Rattle.std.specs.Prelude.{◌≡◌, ◌<◌, ◌+◌, ◌++◌, ◌∷◌, ◌↔◌, [], IfNone, IfOk, IfSome, IsErr};
ghost use Rattle.std.specs.Prelude.{OnErr, OnOk, length, slice_set, take};
ghost use Rattle.aged_nursery.specs.Survivors.{AreSurvivors, NameNoMore};
ghost use Rattle.local_references.specs.Roots.{AllStand, RootsKeep, private_of, slot_at};

use crate::moving::{age_roots, take_private};
use crate::references::{Spent, Turns};
use aged_nursery::AgedNursery;
use minor_heap::MinorRef;
pub use std::alloc::AllocError as NoMemory;
use std::alloc::Global;
use std::marker::Model;

/// What a program keeps as a root.
#[derive(Clone, Copy, Debug, PartialEq, Eq)]
pub enum Root {
    Null,
    /// a number below 2^62
    Num(u64),
    Private(MinorRef),
    /// a place of the held list
    Shared(usize),
}

/// As many roots are kept as there is room for.
#[derive(Clone, Copy, Debug, PartialEq, Eq)]
pub struct StackFull;

/// Roots, the oldest first.
pub struct RootStack {
    slots: Vec<Root>,
    /// the private ones, as they were taken out last
    refs: Vec<MinorRef>,
    room: usize,
}

impl Drop for RootStack {
    fn drop(self) {
        let RootStack {
            slots: _slots,
            refs: _refs,
            room: _,
        } = self;
    }
}

impl Model for RootStack {
    ghost use Rattle.std.specs.Prelude.{vec_capacity};
    ghost use Rattle.local_references.specs.Roots.{IsStack, Stack};

    ghost Value = { Stack };

    ghost view = { λ s. record {
      room = s.room;
      roots = s.slots.items;
      taken = s.refs.items;
    } };

    ghost invariant = { λ s. IsStack s.slots.items s.room (vec_capacity s.slots)
        (vec_capacity s.refs) };
}

impl RootStack {
    /// An empty stack with room for so many roots. All of its memory is taken here.
    pub fn with_room(alloc: Global, roots: usize) -> Result<RootStack, NoMemory>
        ensures room { IfOk result (λ stack. stack.room ≡ roots) }
        ensures empty { IfOk result (λ stack. stack.roots ≡ []) }
    {
        Ok(RootStack {
            slots: Vec::with_capacity(alloc, roots)?,
            refs: Vec::with_capacity(alloc, roots)?,
            room: roots,
        })
    }

    /// How many roots are kept.
    pub fn len(&self) -> usize
        ensures count { result ≡ length self.now.roots }
    {
        self.slots.len()
    }

    /// One more root, on top.
    pub fn push(&mut self, root: Root) -> Result<(), StackFull>
        ensures pushed { OnOk result (self.new ≡ record self.old {
          roots = self.old.roots ++ root ∷ [];
        }) }
        ensures full { IsErr result ↔ (length self.old.roots ≡ self.old.room) }
        ensures unchanged { OnErr result (self.new ≡ self.old) }
    {
        if self.slots.len() == self.room {
            return Err(StackFull);
        }
        self.slots.push_reserved(root);
        Ok(())
    }

    /// Lets the newest root go and gives it back, if there is one.
    pub fn pop(&mut self) -> Option<Root>
        ensures popped { IfSome result (λ root. self.old ≡ record self.new {
          roots = self.new.roots ++ root ∷ [];
        }) }
        ensures none { IfNone result (self.old.roots ≡ []) }
        ensures unchanged { IfNone result (self.new ≡ self.old) }
    {
        self.slots.pop()
    }

    /// A root, counted from the oldest.
    pub fn root(&self, i: usize) -> Root
        requires there { i < length self.now.roots }
        ensures root { result ≡ slot_at self.now.roots i }
    {
        self.slots[i]
    }

    /// Another root in place of one.
    pub fn set(&mut self, i: usize, root: Root)
        requires there { i < length self.old.roots }
        ensures set { self.new ≡ record self.old { roots = slice_set self.old.roots i root } }
    {
        self.slots[i] = root;
    }

    /// Lets all roots go but the first so many.
    pub fn truncate(&mut self, kept: usize)
        ensures first { self.new ≡ record self.old { roots = take kept self.old.roots } }
    {
        self.slots.truncate(kept);
    }

    /// Takes the records of the private roots out, in order. The roots stay.
    pub fn take_private(&mut self)
        ensures taken { self.new ≡ record self.old { taken = private_of self.old.roots } }
    {
        self.refs.clear();
        take_private(self.slots.as_slice(), &mut self.refs);
    }

    /// The records that were taken out last.
    pub fn taken(&self) -> &[MinorRef]
        ensures taken { result.now ≡ self.now.taken }
    {
        self.refs.as_slice()
    }

    /// Counts the turn on, and lets all private records go but those that the roots reach. The
    /// roots move with theirs.
    pub fn age(&mut self, nursery: &mut AgedNursery, turns: &mut Turns) -> Result<(), Spent>
        requires stand { AllStand nursery.old.heap.records self.old.roots }
        requires whole { nursery.old.heap.room ≡ nursery.old.records }
        ensures keep { OnOk result (RootsKeep nursery.old.heap.records self.old.roots
            nursery.new.heap.records self.new.roots) }
        ensures survivors { OnOk result (AreSurvivors nursery.old.heap.records
            (private_of self.old.roots) nursery.new.heap.records (private_of self.new.roots)) }
        ensures named { NameNoMore nursery.old.heap.records nursery.new.heap.records }
        ensures aged { OnOk result (nursery.new.aged ≡ length nursery.new.heap.records) }
        ensures turn { OnOk result (turns.new ≡ turns.old + 1) }
        ensures most { self.new.room ≡ self.old.room }
        ensures room { nursery.new.heap.room ≡ nursery.old.heap.room }
        ensures records { nursery.new.records ≡ nursery.old.records }
        ensures spent { IsErr result ↔ (turns.old ≡ 4294967295) }
        ensures roots_stay { OnErr result (self.new ≡ self.old) }
        ensures records_stay { OnErr result (nursery.new ≡ nursery.old) }
        ensures turn_stays { OnErr result (turns.new ≡ turns.old) }
    {
        turns.advance()?;
        self.take_private();
        age_roots(nursery, self.slots.as_mut_slice(), self.refs.as_mut_slice());
        Ok(())
    }
}
