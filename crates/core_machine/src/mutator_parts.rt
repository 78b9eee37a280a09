//! The own parts of all mutators. A call changes the part of one mutator.
ghost use Rattle.cell_words.specs.declared.colours.Colour.TheVariants.{Blue};
ghost use Rattle.core_machine.specs.Own.{begun, ended, having_claimed, having_fetched};
ghost use Rattle.core_machine.specs.Own.{having_read, keeping, looked, marking, no_own, spent};
ghost use Rattle.core_machine.specs.Parts.{with_own};
ghost use Rattle.core_machine.specs.State.{own_in, room_in};
ghost use Rattle.std.specs.Prelude.{IfOk, length, replicate, ◌+◌, ◌<◌, ◌≡◌, ◌≤◌, ◌^◌};

use crate::NoMemory;
use crate::mutator_part::MutatorPart;
use crate::pending::Pending;
use crate::places::Held;
use cell_words::{Colour, Control, Field};
use std::alloc::Global;
use std::marker::Model;

#[derive(Drop)]
pub(crate) struct MutatorParts {
    parts: Vec<MutatorPart>,
}

impl Model for MutatorParts {
    ghost use Rattle.core_machine.specs.Parts.{Parts, parts_of};

    ghost Value = { Parts };

    ghost view = { λ m. parts_of m.parts.items };
}

impl MutatorParts {
    pub(crate) fn new(alloc: Global, mutators: u32, room: usize) -> Result<MutatorParts, NoMemory>
        requires { 1 ≤ room }
        ensures parts { IfOk result (λ parts. parts ≡ record {
          rooms = replicate mutators room;
          owns = replicate mutators no_own;
        }) }
    {
        let mut parts = Vec::with_capacity(alloc, mutators as usize)?;
        for _i in 0..mutators {
            parts.push(MutatorPart::new(alloc, room)?)?;
        }
        Ok(MutatorParts { parts })
    }

    pub(crate) fn room(&self, i: usize) -> usize
        ensures room { result ≡ room_in self.now.rooms i }
    {
        if i < self.parts.len() {
            self.parts[i].room()
        } else {
            0
        }
    }

    pub(crate) fn held(&self, i: usize) -> &[Held]
        ensures held { result.now ≡ (own_in self.now.owns i).held }
    {
        if i < self.parts.len() {
            self.parts[i].held()
        } else {
            &[]
        }
    }

    pub(crate) fn mode(&self, i: usize) -> Option<Control>
        ensures mode { result ≡ (own_in self.now.owns i).mode }
    {
        if i < self.parts.len() {
            self.parts[i].mode()
        } else {
            None
        }
    }

    pub(crate) fn pending(&self, i: usize) -> Option<Pending>
        ensures pending { result ≡ (own_in self.now.owns i).pending }
    {
        if i < self.parts.len() {
            self.parts[i].pending()
        } else {
            None
        }
    }

    pub(crate) fn claims(&self, i: usize) -> u64
        ensures claims { result ≡ (own_in self.now.owns i).claims }
    {
        if i < self.parts.len() {
            self.parts[i].claims()
        } else {
            0
        }
    }

    pub(crate) fn begin(&mut self, i: usize)
        requires { i < length self.old.owns }
        ensures parts { self.new ≡ with_own self.old i (begun (own_in self.old.owns i)) }
    {
        let part = &mut self.parts[i];
        part.begin();
    }

    pub(crate) fn look(&mut self, i: usize, control: Control)
        requires { i < length self.old.owns }
        ensures parts { self.new ≡ with_own self.old i (looked (own_in self.old.owns i) control) }
    {
        let part = &mut self.parts[i];
        part.look(control);
    }

    pub(crate) fn read(&mut self, i: usize, found: Field)
        requires mutator { i < length self.old.owns }
        requires room { length (own_in self.old.owns i).held < room_in self.old.rooms i }
        ensures parts { self.new
            ≡ with_own self.old i (having_read (own_in self.old.owns i) found) }
    {
        let part = &mut self.parts[i];
        part.read(found);
    }

    pub(crate) fn fetch(&mut self, i: usize, place: usize, f: usize, found: Field)
        requires mutator { i < length self.old.owns }
        requires room { length (own_in self.old.owns i).held < room_in self.old.rooms i }
        ensures parts { self.new
            ≡ with_own self.old i (having_fetched (own_in self.old.owns i) place f found) }
    {
        let part = &mut self.parts[i];
        part.fetch(place, f, found);
    }

    pub(crate) fn mark(&mut self, i: usize, cell: u32)
        requires { i < length self.old.owns }
        ensures parts { self.new ≡ with_own self.old i (marking (own_in self.old.owns i) cell) }
    {
        let part = &mut self.parts[i];
        part.mark(cell);
    }

    pub(crate) fn spend(&mut self, i: usize)
        requires { i < length self.old.owns }
        ensures parts { self.new ≡ with_own self.old i (spent (own_in self.old.owns i)) }
    {
        let part = &mut self.parts[i];
        part.spend();
    }

    pub(crate) fn claim(&mut self, i: usize, cell: u32, found: Colour)
        requires mutator { i < length self.old.owns }
        requires room { length (own_in self.old.owns i).held < room_in self.old.rooms i }
        requires claims { found ≡ Blue → (own_in self.old.owns i).claims + 1 < 2 ^ 64 }
        ensures parts { self.new
            ≡ with_own self.old i (having_claimed (own_in self.old.owns i) cell found) }
    {
        let part = &mut self.parts[i];
        part.claim(cell, found);
    }

    pub(crate) fn keep(&mut self, i: usize, count: usize, from: usize, copies: usize)
        requires mutator { i < length self.old.owns }
        requires count { count ≤ length (own_in self.old.owns i).held }
        requires from { from + copies ≤ length (own_in self.old.owns i).held }
        requires room { count + copies ≤ room_in self.old.rooms i }
        ensures parts { self.new
            ≡ with_own self.old i (keeping (own_in self.old.owns i) count from copies) }
    {
        let part = &mut self.parts[i];
        part.keep(count, from, copies);
    }

    pub(crate) fn end(&mut self, i: usize)
        requires { i < length self.old.owns }
        ensures parts { self.new ≡ with_own self.old i (ended (own_in self.old.owns i)) }
    {
        let part = &mut self.parts[i];
        part.end();
    }
}
