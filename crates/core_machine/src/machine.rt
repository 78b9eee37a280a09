//! The state in memory, and its readers. The events stand in `mutator_events`, `collector_events`.
ghost use Rattle.core_machine.specs.InRange.{InRange};
ghost use Rattle.core_machine.specs.State.{all_answered, begun_of, colour_of, field_of};
ghost use Rattle.core_machine.specs.State.{free_count_of, freed_of, has_answered, held_of, own_of};
ghost use Rattle.core_machine.specs.State.{presence_of, room_of, set_field, target_of};
ghost use Rattle.core_machine.specs.Words.{is_blue};
ghost use Rattle.std.specs.Prelude.{count_by, length, ◌<◌, ◌≡◌};

use crate::collector_part::CollectorPart;
use crate::mutator_parts::MutatorParts;
use crate::pending::{Pending, pending_or_none};
use crate::places::{Held, cell_at};
use crate::progress::{Scanning, Sweeping};
use crate::words::is_blue;
use cell_words::{Colour, Control, Field, Presence, Row, Status};
use std::error::Error;
use std::fmt;
use std::marker::Model;

/// The event cannot happen in this state.
#[derive(Clone, Copy, Debug, PartialEq, Eq)]
pub struct NotNow;

impl fmt::Display for NotNow {
    fn fmt<W: fmt::Write>(&self, f: &mut fmt::Formatter<W>) -> fmt::Result {
        write!(f, "the event cannot happen now")
    }
}

impl Error for NotNow {}

/// The words of a heap, and the own parts of its mutators and its collector.
#[derive(Drop)]
pub struct Machine {
    pub(crate) cells: u32,
    pub(crate) colours: Vec<Colour>,
    pub(crate) rows: Vec<Row>,
    pub(crate) mutators: u32,
    pub(crate) presences: Vec<Presence>,
    pub(crate) parts: MutatorParts,
    pub(crate) control: Control,
    pub(crate) collector: CollectorPart,
}

impl Model for Machine {
    ghost use Rattle.core_machine.specs.State.{State};

    ghost Value = { State };

    ghost view = { λ m. record {
      cells = m.cells;
      colours = m.colours.items;
      rows = m.rows.items;
      mutators = m.mutators;
      rooms = m.parts.rooms;
      presences = m.presences.items;
      owns = m.parts.owns;
      control = m.control;
      collector = m.collector;
    } };
}

/// What stands past the end of the presences: a mutator that never begins.
const NO_PRESENCE: Presence = Presence {
    status: Status::Async,
    inside: false,
    over: true,
};

impl Machine {
    /// How many cells there are.
    pub fn cells(&self) -> u32
        ensures cells { result ≡ self.now.cells }
    {
        self.cells
    }

    /// How many mutators there are.
    pub fn mutators(&self) -> u32
        ensures mutators { result ≡ self.now.mutators }
    {
        self.mutators
    }

    pub fn colour(&self, cell: u32) -> Colour
        requires range { InRange self.now }
        requires cell { cell < self.now.cells }
        ensures colour { result ≡ colour_of self.now cell }
    {
        self.colours[cell as usize]
    }

    pub fn field(&self, cell: u32, f: usize) -> Field
        requires range { InRange self.now }
        requires cell { cell < self.now.cells }
        requires field { f < 6 }
        ensures field { result ≡ field_of self.now cell f }
    {
        self.rows[cell as usize][f]
    }

    pub(crate) fn set_field(&mut self, cell: u32, f: usize, value: Field)
        requires range { InRange self.old }
        requires cell { cell < self.old.cells }
        requires field { f < 6 }
        ensures field { self.new ≡ record self.old { rows = set_field self.old.rows cell f value } }
    {
        let row = &mut self.rows[cell as usize];
        row[f] = value;
    }

    /// How often a cell was freed.
    pub fn freed(&self, cell: u32) -> u64
        requires range { InRange self.now }
        requires cell { cell < self.now.cells }
        ensures freed { result ≡ freed_of self.now cell }
    {
        self.collector.times_freed(cell as usize)
    }

    /// The presence of mutator `m`. A mutator that there is not is over.
    pub fn presence(&self, m: u32) -> Presence
        ensures presence { result ≡ presence_of self.now m }
    {
        let m = m as usize;
        if m < self.presences.len() {
            self.presences[m]
        } else {
            NO_PRESENCE
        }
    }

    /// What mutator `m` holds, place by place.
    pub fn places(&self, m: u32) -> &[Held]
        ensures places { result.now ≡ held_of self.now m }
    {
        self.parts.held(m as usize)
    }

    /// How many places the held list of mutator `m` has.
    pub fn held_len(&self, m: u32) -> usize
        ensures len { result ≡ length (held_of self.now m) }
    {
        self.places(m).len()
    }

    /// The cell at a place of mutator `m`, and the anchor past the end.
    pub fn held(&self, m: u32, place: usize) -> u32
        ensures cell { result ≡ target_of self.now m place }
    {
        cell_at(self.places(m), place)
    }

    /// How many places mutator `m` may have.
    pub fn room(&self, m: u32) -> usize
        ensures room { result ≡ room_of self.now m }
    {
        self.parts.room(m as usize)
    }

    /// The control as the last look of mutator `m` found it, until it is spent.
    pub fn mode(&self, m: u32) -> Option<Control>
        ensures mode { result ≡ (own_of self.now m).mode }
    {
        self.parts.mode(m as usize)
    }

    /// The write that mutator `m` has begun and not ended.
    pub fn pending(&self, m: u32) -> Option<Pending>
        ensures pending { result ≡ (own_of self.now m).pending }
    {
        self.parts.pending(m as usize)
    }

    pub(crate) fn begun(&self, m: u32) -> Pending
        ensures begun { result ≡ begun_of self.now m }
    {
        pending_or_none(self.pending(m))
    }

    /// How many cells mutator `m` has claimed.
    pub fn claims(&self, m: u32) -> u64
        ensures claims { result ≡ (own_of self.now m).claims }
    {
        self.parts.claims(m as usize)
    }

    pub fn control(&self) -> Control
        ensures control { result ≡ self.now.control }
    {
        self.control
    }

    /// Whether each mutator has answered this handshake.
    pub fn all_answered(&self) -> bool
        ensures answered { result ≡ all_answered self.now }
    {
        self.collector.all_answered()
    }

    /// Whether mutator `m` has answered this handshake. One that there is not has.
    pub fn has_answered(&self, m: u32) -> bool
        ensures answered { result ≡ has_answered self.now m }
    {
        self.collector.has_answered(m as usize)
    }

    pub fn is_anchor_marked(&self) -> bool
        ensures marked { result ≡ self.now.collector.anchor_marked }
    {
        self.collector.anchor_marked()
    }

    /// The cell that clearing, or this pass of tracing, has come to.
    pub fn cursor(&self) -> u32
        ensures cursor { result ≡ self.now.collector.cursor }
    {
        self.collector.cursor()
    }

    /// Whether this pass of tracing has met no gray cell.
    pub fn is_clean(&self) -> bool
        ensures clean { result ≡ self.now.collector.clean }
    {
        self.collector.is_clean()
    }

    pub fn scan(&self) -> Option<Scanning>
        ensures scan { result ≡ self.now.collector.scan }
    {
        self.collector.scan()
    }

    pub fn sweep(&self) -> Sweeping
        ensures sweep { result ≡ self.now.collector.sweep }
    {
        self.collector.sweep()
    }

    /// How many cells were freed in all.
    pub fn number_freed(&self) -> u64
        ensures number { result ≡ self.now.collector.number_freed }
    {
        self.collector.number_freed()
    }

    /// How many cells are blue.
    pub fn free_count(&self) -> u32
        requires { InRange self.now }
        ensures count { result ≡ free_count_of self.now }
    {
        count_blue(&self.colours) as u32
    }
}

fn count_blue(colours: &[Colour]) -> usize
    ensures count { result ≡ count_by is_blue colours.now }
{
    colours.iter().filter(|colour| is_blue(**colour)).count()
}
