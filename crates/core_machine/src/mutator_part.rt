//! The own part of one mutator: its held list with marks, its mode, its pending write, its claims.
//!
//! The held list gets all its memory at the opening, so that no event takes memory.
ghost use Rattle.core_machine.specs.Own.{begun, ended, having_claimed, having_fetched};
ghost use Rattle.core_machine.specs.Own.{having_read, holding, keeping, looked, marking, no_own};
ghost use Rattle.core_machine.specs.Own.{spent};
ghost use Rattle.cell_words.specs.declared.colours.Colour.TheVariants.{Blue};
ghost use Rattle.std.specs.Prelude.{length, IfOk, ◌≡◌, ◌+◌, ◌<◌, ◌≤◌, ◌^◌};

use crate::NoMemory;
use crate::pending::Pending;
use crate::places::{Held, keep_places, mark_all_of, unmark_all};
use cell_words::{Colour, Control, Field};
use std::alloc::Global;
use std::marker::Model;

#[derive(Drop)]
pub(crate) struct MutatorPart {
    room: usize,
    held: Vec<Held>,
    mode: Option<Control>,
    pending: Option<Pending>,
    claims: u64,
}

impl Model for MutatorPart {
    ghost use Rattle.core_machine.specs.Parts.{Part};
    ghost use Rattle.std.specs.Prelude.{vec_capacity, ◌≤◌};

    ghost Value = { Part };

    ghost view = { λ p. record {
      room = p.room;
      own = record { held = p.held.items; mode = p.mode; pending = p.pending; claims = p.claims };
    } };

    ghost invariant = { λ p. (1 ≤ p.room) × (p.room ≤ vec_capacity p.held) };
}

impl MutatorPart {
    pub(crate) fn new(alloc: Global, room: usize) -> Result<MutatorPart, NoMemory>
        requires { 1 ≤ room }
        ensures part { IfOk result (λ part. part ≡ record { room = room; own = no_own }) }
    {
        let held = Vec::with_capacity(alloc, room)?;
        Ok(MutatorPart {
            room,
            held,
            mode: None,
            pending: None,
            claims: 0,
        })
    }

    pub(crate) fn room(&self) -> usize
        ensures room { result ≡ self.now.room }
    {
        self.room
    }

    pub(crate) fn held(&self) -> &[Held]
        ensures held { result.now ≡ self.now.own.held }
    {
        self.held.as_slice()
    }

    pub(crate) fn mode(&self) -> Option<Control>
        ensures mode { result ≡ self.now.own.mode }
    {
        self.mode
    }

    pub(crate) fn pending(&self) -> Option<Pending>
        ensures pending { result ≡ self.now.own.pending }
    {
        self.pending
    }

    pub(crate) fn claims(&self) -> u64
        ensures claims { result ≡ self.now.own.claims }
    {
        self.claims
    }

    pub(crate) fn begin(&mut self)
        ensures part { self.new ≡ record self.old { own = begun self.old.own } }
    {
        self.held.clear();
        self.held.push_reserved(Held {
            cell: 0,
            marked: false,
        });
        self.mode = None;
    }

    pub(crate) fn look(&mut self, control: Control)
        ensures part { self.new ≡ record self.old { own = looked self.old.own control } }
    {
        unmark_all(&mut self.held);
        self.mode = Some(control);
    }

    /// Holds the cell that a read found, if it found one.
    pub(crate) fn read(&mut self, found: Field)
        requires { length self.old.own.held < self.old.room }
        ensures part { self.new ≡ record self.old { own = having_read self.old.own found } }
    {
        match found {
            Field::Cell(cell) => {
                self.held.push_reserved(Held {
                    cell,
                    marked: false,
                });
            }
            Field::Null | Field::Num(_) => {}
        }
    }

    /// Holds the cell that a read found, if it found one, and is to store the field.
    pub(crate) fn fetch(&mut self, place: usize, f: usize, found: Field)
        requires { length self.old.own.held < self.old.room }
        ensures part { self.new ≡ record self.old {
          own = having_fetched self.old.own place f found;
        } }
    {
        self.read(found);
        self.pending = Some(Pending { place, f, found });
    }

    pub(crate) fn mark(&mut self, cell: u32)
        ensures part { self.new ≡ record self.old { own = marking self.old.own cell } }
    {
        mark_all_of(&mut self.held, cell);
    }

    /// Takes the mode, the pending write and all marks away.
    pub(crate) fn spend(&mut self)
        ensures part { self.new ≡ record self.old { own = spent self.old.own } }
    {
        unmark_all(&mut self.held);
        self.mode = None;
        self.pending = None;
    }

    /// Holds the cell of a claim, if the claim found it blue.
    pub(crate) fn claim(&mut self, cell: u32, found: Colour)
        requires room { length self.old.own.held < self.old.room }
        requires claims { found ≡ Blue → self.old.own.claims + 1 < 2 ^ 64 }
        ensures part { self.new ≡ record self.old { own = having_claimed self.old.own cell found } }
    {
        match found {
            Colour::Blue => {
                self.held.push_reserved(Held {
                    cell,
                    marked: false,
                });
                self.mode = None;
                self.claims += 1;
            }
            Colour::White | Colour::Gray | Colour::Black => {}
        }
    }

    /// Keeps the first `count` places, then the `copies` that stood from `from` on.
    pub(crate) fn keep(&mut self, count: usize, from: usize, copies: usize)
        requires count { count ≤ length self.old.own.held }
        requires from { from + copies ≤ length self.old.own.held }
        requires room { count + copies ≤ self.old.room }
        ensures part { self.new ≡ record self.old { own = keeping self.old.own count from copies } }
    {
        keep_places(&mut self.held, count, from, copies);
    }

    pub(crate) fn end(&mut self)
        ensures part { self.new ≡ record self.old { own = ended self.old.own } }
    {
        self.held.clear();
        self.mode = None;
        self.pending = None;
    }
}
