//! The seat of a mutator, and its readers.
ghost use Rattle.std.specs.Prelude.{◌≡◌, ◌<◌, ◌≤◌, ◌+◌, IfOk, length, None, true, false};
ghost use Rattle.heap_rule.specs.declared.view.Role.TheVariants as role;
ghost use Rattle.core_machine.specs.Own.{no_own};
ghost use Rattle.core_machine.specs.Trail.{own_along};
ghost use Rattle.heap_rule.specs.Asks.{target};
ghost use Rattle.mutator_events.specs.Seats.{IsGiven};

use crate::NoMemory;
use cell_words::Status;
use heap_rule::Keeping;
use heap_table::HeapSeat;
use std::alloc::Global;
use std::marker::Model;

/// Memory for the cells that a mutator holds, reserved before its seat is split off: so running out
/// of memory costs no seat. Contracts see it as its number of places.
#[derive(Drop)]
pub struct HeldRoom {
    places: usize,
    cells: Vec<u32>,
}

impl Model for HeldRoom {
    ghost use Rattle.std.specs.Prelude.{ℕ, [], vec_capacity, ◌≡◌, ◌≤◌};

    ghost Value = { ℕ };

    ghost view = { λ r. r.places };

    ghost invariant = { λ r. (r.cells.items ≡ []) × (1 ≤ r.places)
        × (r.places ≤ vec_capacity r.cells) };
}

impl HeldRoom {
    /// Reserves so many places.
    pub fn new(alloc: Global, places: u32) -> Result<HeldRoom, NoMemory>
        requires some { 1 ≤ places }
        ensures room { IfOk result (λ room. room ≡ places) }
    {
        let places = places as usize;
        let cells = Vec::with_capacity(alloc, places)?;
        Ok(HeldRoom { places, cells })
    }
}

/// The right to make a mutator's events on a heap, with what it holds.
pub struct MutSeat<P: Keeping> {
    pub(crate) seat: HeapSeat<P>,
    pub(crate) number: u32,
    pub(crate) room: usize,
    /// the cells that are held, place by place
    pub(crate) held: Vec<u32>,
    /// the word of the control, as the last look found it
    pub(crate) looked: u64,
    /// where the last fetch read: the box's place, and the field
    pub(crate) begun_place: usize,
    pub(crate) begun_field: usize,
    pub(crate) inside: bool,
    /// while it is in
    pub(crate) status: Status,
    pub(crate) claims: u64,
}

impl<P: Keeping> Drop for MutSeat<P> {
    fn drop(self) {
        let MutSeat {
            seat: _seat,
            number: _,
            room: _,
            held: _held,
            looked: _,
            begun_place: _,
            begun_field: _,
            inside: _,
            status: _,
            claims: _,
        } = self;
    }
}

impl<P: Keeping> Model for MutSeat<P> {
    ghost use Rattle.std.specs.Prelude.{vec_capacity, ◌≤◌};
    ghost use Rattle.std.specs.Coded.{codes};
    ghost use Rattle.cell_words.specs.contracts.terms.Term as term;
    ghost use Rattle.heap_table.specs.Seats.{SeatView};
    ghost use Rattle.mutator_events.specs.Seats.{HasBegun, IsMutator};

    ghost Value = { SeatView P };

    ghost coded = { Prim.hlevel (codes, term.the_row.coded) };

    ghost view = { λ s. s.seat };

    ghost invariant = { λ s.
        IsMutator s.seat.me s.number s.room s.held.items s.looked s.inside s.status s.claims
        × (s.room ≤ vec_capacity s.held)
        × HasBegun s.seat.me.own s.begun_place s.begun_field s.inside };
}

impl<P: Keeping> MutSeat<P> {
    /// The seat of a mutator that was just split off with this many places of room.
    pub fn of(seat: HeapSeat<P>, number: u32, room: HeldRoom) -> MutSeat<P>
        requires given { IsGiven P.opening number room seat.me }
        requires number { number < seat.me.shape.mutators }
        ensures seat { result ≡ seat }
    {
        let HeldRoom { places, cells } = room;
        MutSeat {
            seat,
            number,
            room: places,
            held: cells,
            looked: 0,
            begun_place: 0,
            begun_field: 0,
            inside: false,
            status: Status::Async,
            claims: 0,
        }
    }

    /// The seat of the heap, as it is joined to the collector's.
    pub fn into_seat(self) -> HeapSeat<P>
        ensures seat { result ≡ self }
        ensures role { result.me.role ≡ role.Mutator }
    {
        let MutSeat {
            seat,
            number: _,
            room: _,
            held: _held,
            looked: _,
            begun_place: _,
            begun_field: _,
            inside: _,
            status: _,
            claims: _,
        } = self;
        seat
    }

    /// How many cells it holds, counted by place.
    pub fn held_len(&self) -> usize
        ensures len { result ≡ length self.now.me.own.held }
        ensures known { length self.now.me.known ≡ result }
        ensures some { self.now.me.presence.inside ≡ true → 1 ≤ result }
        ensures anchor { self.now.me.presence.inside ≡ true → target self.now.me 0 ≡ 0 }
        ensures left { self.now.me.own ≡ own_along no_own self.now.me.trail }
    {
        self.held.len()
    }

    /// How many places are free.
    pub fn room(&self) -> usize
        ensures room { length self.now.me.own.held + result ≡ self.now.me.room }
    {
        self.room - self.held.len()
    }

    /// The handshake that it answered last.
    pub fn status(&self) -> Status
        requires inside { self.now.me.presence.inside ≡ true }
        ensures status { result ≡ self.now.me.presence.status }
    {
        self.status
    }

    /// Whether it is in. Who is out has begun no write.
    pub fn is_in(&self) -> bool
        ensures inside { result ≡ self.now.me.presence.inside }
        ensures idle { self.now.me.presence.inside ≡ false → self.now.me.own.pending ≡ None }
    {
        self.inside
    }

    /// How many cells it has claimed.
    pub fn claims(&self) -> u64
        ensures claims { result ≡ self.now.me.own.claims }
    {
        self.claims
    }
}
