//! The type that keeps the invariant.
ghost use Rattle.cell_words.specs.declared.fields.Field.{Field};
ghost use Rattle.core_machine.specs.Takes.{Takes};
ghost use Rattle.core_machine.specs.Next.{next};
ghost use Rattle.core_machine.specs.State.{colour_of, field_of, free_count_of, freed_of};
ghost use Rattle.core_machine.specs.State.{greatest_cells, held_of, opening, own_of};
ghost use Rattle.core_machine.specs.State.{presence_of, target_of};
ghost use Rattle.dlg_core.specs.Collects.{Collects};
ghost use Rattle.dlg_core.specs.FirstRows.{are_first_rows};
ghost use Rattle.dlg_core.specs.Runs.{LeadsTo, StopsAt};
ghost use Rattle.dlg_core.specs.Safe.{IsSafe, StaysSafe};
ghost use Rattle.std.specs.Prelude.{IfErr, IfOk, IsTrue, OnOk, length, replicate, ◌<◌, ◌≡◌, ◌≤◌};

use crate::NoMemory;
use cell_words::{Colour, Control, Field, Presence, Row};
use core_machine::{Event, Machine, NotNow, Pending};
use std::alloc::Global;
use std::marker::Model;

/// An event of a list cannot happen. Those before it were taken.
#[derive(Clone, Copy, Debug, PartialEq, Eq)]
pub struct NotNowAt {
    /// the place of the event in the list, from 0 on
    pub index: usize,
}

/// The words of a heap, and the own parts of its mutators and its collector.
#[derive(Drop)]
pub struct Core {
    pub(crate) machine: Machine,
}

impl Model for Core {
    ghost use Rattle.core_machine.specs.State.{State};
    ghost use Rattle.dlg_core.specs.Kept.{IsKept};

    ghost Value = { State };

    ghost view = { λ c. c.machine };

    ghost invariant = { λ c. IsKept c.machine };
}

impl Core {
    /// A heap of so many cells, of which the first have the given rows, for so many mutators that
    /// may each hold `room` cells.
    pub fn open(
        alloc: Global,
        cells: u32,
        mutators: u32,
        room: u32,
        first: &[Row],
    ) -> Result<Core, NoMemory>
        requires some_cells { 0 < cells }
        requires few_cells { cells ≤ greatest_cells }
        requires some_mutators { 0 < mutators }
        requires few_mutators { mutators ≤ 64 }
        requires room { 0 < room }
        requires few_rows { length first.now ≤ cells }
        requires rows { IsTrue (are_first_rows first.now) }
        ensures opening { IfOk result (λ core. core ≡ opening cells (replicate mutators room) first.now) }
        ensures safe { IfOk result IsSafe }
    {
        let machine = Machine::open(alloc, cells, mutators, room, first)?;
        Ok(Core { machine })
    }

    /// Takes the event, if it can happen. It takes no memory.
    pub fn apply(&mut self, event: Event) -> Result<(), NotNow>
        ensures event { Takes result self.old (next self.old event) self.new }
        ensures safe { IsSafe self.new }
    {
        self.machine.apply(event)
    }

    /// Takes the events one after the other, up to the first that cannot happen. It takes no
    /// memory.
    pub fn run(&mut self, events: &[Event]) -> Result<(), NotNowAt>
        ensures done { OnOk result (LeadsTo self.old events.now self.new) }
        ensures stopped { IfErr result (λ stop. StopsAt self.old events.now stop.index self.new) }
        ensures safe { StaysSafe self.old events.now }
        ensures collects { Collects self.old events.now }
    {
        let _ = &self.machine;
        for (index, event) in events.iter().enumerate() {
            if let Err(NotNow) = self.apply(*event) {
                return Err(NotNowAt { index });
            }
        }
        Ok(())
    }

    /// How many cells there are.
    pub fn cells(&self) -> u32
        ensures cells { result ≡ self.now.cells }
    {
        self.machine.cells()
    }

    /// How many mutators there are.
    pub fn mutators(&self) -> u32
        ensures mutators { result ≡ self.now.mutators }
    {
        self.machine.mutators()
    }

    pub fn colour(&self, cell: u32) -> Colour
        requires { cell < self.now.cells }
        ensures colour { result ≡ colour_of self.now cell }
    {
        self.machine.colour(cell)
    }

    /// Field `i` of the cell: 0 to 4 are the payload, 5 is the kind.
    pub fn field(&self, cell: u32, i: usize) -> Field
        requires cell { cell < self.now.cells }
        requires field { i < 6 }
        ensures field { result ≡ field_of self.now cell i }
    {
        self.machine.field(cell, i)
    }

    /// How often the cell was freed.
    pub fn freed(&self, cell: u32) -> u64
        requires { cell < self.now.cells }
        ensures freed { result ≡ freed_of self.now cell }
    {
        self.machine.freed(cell)
    }

    pub fn presence(&self, m: u32) -> Presence
        requires { m < self.now.mutators }
        ensures presence { result ≡ presence_of self.now m }
    {
        self.machine.presence(m)
    }

    /// How many places the held list of mutator `m` has.
    pub fn held_len(&self, m: u32) -> usize
        requires { m < self.now.mutators }
        ensures len { result ≡ length (held_of self.now m) }
    {
        self.machine.held_len(m)
    }

    /// The cell at a place of the held list of mutator `m`.
    pub fn held(&self, m: u32, place: usize) -> u32
        requires mutator { m < self.now.mutators }
        requires place { place < length (held_of self.now m) }
        ensures cell { result ≡ target_of self.now m place }
    {
        self.machine.held(m, place)
    }

    /// The write that mutator `m` has begun and not ended.
    pub fn pending(&self, m: u32) -> Option<Pending>
        requires { m < self.now.mutators }
        ensures pending { result ≡ (own_of self.now m).pending }
    {
        self.machine.pending(m)
    }

    pub fn control(&self) -> Control
        ensures control { result ≡ self.now.control }
    {
        self.machine.control()
    }

    /// How many cells are blue. It looks at each.
    pub fn free_count(&self) -> u32
        ensures count { result ≡ free_count_of self.now }
    {
        self.machine.free_count()
    }
}
