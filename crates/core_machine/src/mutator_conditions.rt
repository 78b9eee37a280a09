//! When the events of a mutator can happen. Each test is one of specs/Operations or specs/Mutation.
ghost use Rattle.core_machine.specs.InRange.{InRange};
ghost use Rattle.core_machine.specs.Mutation.{claim_can, fill_can, mark_can, names_own, seal_can};
ghost use Rattle.core_machine.specs.Mutation.{store_can, write_can};
ghost use Rattle.core_machine.specs.Operations.{answer_can, fetch_can, has_mode, has_pending};
ghost use Rattle.core_machine.specs.Operations.{has_room, is_in, is_place, keep_can, look_can};
ghost use Rattle.core_machine.specs.Operations.{may_begin, next_own_status, own_barrier};
ghost use Rattle.core_machine.specs.Operations.{own_lets_store, read_can, third_answer_can};
ghost use Rattle.core_machine.specs.State.{is_box, is_raw, is_raw_value};
ghost use Rattle.std.specs.Prelude.{nat_le, ◌+◌, ◌<◌, ◌≡◌};

use crate::machine::Machine;
use crate::places::{all_marked, marks_stand, names_rightly};
use crate::words::{
    barrier_in, is_box_kind, is_cell, is_raw_kind, lets_store, marks_some, requests, same_status,
};
use cell_words::modes::next_status;
use cell_words::{Barrier, Field, Status};

impl Machine {
    pub(crate) fn is_in(&self, i: u32) -> bool
        ensures inside { result ≡ is_in self.now i }
    {
        self.presence(i).inside
    }

    pub(crate) fn may_begin(&self, i: u32) -> bool
        ensures may { result ≡ may_begin self.now i }
    {
        let presence = self.presence(i);
        !presence.inside && !presence.over
    }

    fn is_place(&self, i: u32, place: usize) -> bool
        ensures place { result ≡ is_place self.now i place }
    {
        place < self.held_len(i)
    }

    fn has_room(&self, i: u32) -> bool
        ensures room { result ≡ has_room self.now i }
    {
        self.held_len(i) < self.room(i)
    }

    fn has_mode(&self, i: u32) -> bool
        ensures mode { result ≡ has_mode self.now i }
    {
        self.mode(i).is_some()
    }

    fn has_pending(&self, i: u32) -> bool
        ensures pending { result ≡ has_pending self.now i }
    {
        self.pending(i).is_some()
    }

    fn own_lets_store(&self, i: u32) -> bool
        ensures lets { result ≡ own_lets_store self.now i }
    {
        lets_store(self.presence(i).status, self.mode(i))
    }

    fn own_barrier(&self, i: u32) -> Barrier
        ensures barrier { result ≡ own_barrier self.now i }
    {
        barrier_in(self.presence(i).status, self.mode(i))
    }

    fn names_own(&self, i: u32, value: Field) -> bool
        ensures names { result ≡ names_own self.now i value }
    {
        names_rightly(self.places(i), value)
    }

    fn next_own_status(&self, i: u32) -> Status
        ensures status { result ≡ next_own_status self.now i }
    {
        next_status(self.presence(i).status)
    }

    fn is_raw(&self, cell: u32) -> bool
        requires range { InRange self.now }
        requires cell { cell < self.now.cells }
        ensures raw { result ≡ is_raw self.now cell }
    {
        is_raw_kind(self.field(cell, 5))
    }

    fn is_box(&self, cell: u32) -> bool
        requires range { InRange self.now }
        requires cell { cell < self.now.cells }
        ensures boxed { result ≡ is_box self.now cell }
    {
        is_box_kind(self.field(cell, 5))
    }

    /// The value is a raw cell. A value that names no cell of the heap is none.
    fn is_raw_value(&self, value: Field) -> bool
        requires { InRange self.now }
        ensures raw { result ≡ is_raw_value self.now value }
    {
        match value {
            Field::Null | Field::Num(_) => false,
            Field::Cell(cell) => cell >= self.cells() || self.is_raw(cell),
        }
    }

    pub(crate) fn look_can(&self, i: u32) -> bool
        ensures can { result ≡ look_can self.now i }
    {
        self.is_in(i) && !self.has_pending(i)
    }

    pub(crate) fn read_can(&self, i: u32, place: usize, f: usize) -> bool
        ensures can { result ≡ read_can self.now i place f }
    {
        self.is_in(i) && self.is_place(i, place) && f <= 4 && self.has_room(i)
    }

    pub(crate) fn fetch_can(&self, i: u32, place: usize, f: usize) -> bool
        requires { InRange self.now }
        ensures can { result ≡ fetch_can self.now i place f }
    {
        self.is_in(i)
            && !self.has_pending(i)
            && self.own_lets_store(i)
            && self.is_place(i, place)
            && f <= 4
            && self.is_box(self.held(i, place))
            && self.has_room(i)
    }

    pub(crate) fn mark_can(&self, i: u32, place: usize) -> bool
        ensures can { result ≡ mark_can self.now i place }
    {
        self.is_in(i) && self.is_place(i, place) && marks_some(self.own_barrier(i))
    }

    pub(crate) fn write_can(&self, i: u32, place: usize, f: usize, old: Field, new: Field) -> bool
        requires { InRange self.now }
        ensures can { result ≡ write_can self.now i place f old new }
    {
        self.is_in(i)
            && self.has_mode(i)
            && !self.has_pending(i)
            && self.is_place(i, place)
            && f <= 4
            && self.is_box(self.held(i, place))
            && self.names_own(i, old)
            && self.names_own(i, new)
            && !self.is_raw_value(new)
            && marks_stand(self.own_barrier(i), self.places(i), old, new)
    }

    pub(crate) fn store_can(&self, i: u32, new: Field) -> bool
        requires { InRange self.now }
        ensures can { result ≡ store_can self.now i new }
    {
        self.is_in(i)
            && self.has_pending(i)
            && self.names_own(i, new)
            && !self.is_raw_value(new)
            && marks_stand(
                self.own_barrier(i),
                self.places(i),
                self.begun(i).found,
                new,
            )
    }

    pub(crate) fn claim_can(&self, i: u32, cell: u32) -> bool
        ensures can { result ≡ claim_can self.now i cell }
    {
        self.is_in(i)
            && self.has_mode(i)
            && !self.has_pending(i)
            && cell < self.cells()
            && self.has_room(i)
    }

    pub(crate) fn fill_can(&self, i: u32, place: usize, f: usize, value: Field) -> bool
        requires { InRange self.now }
        ensures can { result ≡ fill_can self.now i place f value }
    {
        self.is_in(i)
            && self.is_place(i, place)
            && self.is_raw(self.held(i, place))
            && f <= 4
            && self.names_own(i, value)
            && !self.is_raw_value(value)
            && !is_cell(self.field(self.held(i, place), f))
    }

    pub(crate) fn seal_can(&self, i: u32, place: usize) -> bool
        requires { InRange self.now }
        ensures can { result ≡ seal_can self.now i place }
    {
        self.is_in(i) && self.is_place(i, place) && self.is_raw(self.held(i, place))
    }

    pub(crate) fn answer_can(&self, i: u32) -> bool
        ensures can { result ≡ answer_can self.now i }
    {
        self.is_in(i)
            && !self.has_pending(i)
            && requests(self.mode(i), self.next_own_status(i))
            && self.third_answer_can(i)
    }

    /// An answer that leads back to async wants each place marked.
    fn third_answer_can(&self, i: u32) -> bool
        ensures can { result ≡ third_answer_can self.now i }
    {
        !same_status(self.next_own_status(i), Status::Async) || all_marked(self.places(i))
    }

    pub(crate) fn keep_can(&self, i: u32, count: usize, from: usize, copies: usize) -> bool
        ensures can { result ≡ keep_can self.now i count from copies }
    {
        let len = self.held_len(i);
        let room = self.room(i);
        self.is_in(i)
            && !self.has_pending(i)
            && 1 <= count
            && count <= len
            && is_sum_within(from, copies, len)
            && is_sum_within(count, copies, room)
    }
}

/// Whether the sum, which may be greater than any number of this type, is at most the limit.
fn is_sum_within(first: usize, second: usize, limit: usize) -> bool
    ensures within { result ≡ nat_le (first + second) limit }
{
    match first.checked_add(second) {
        Some(sum) => sum <= limit,
        None => false,
    }
}
