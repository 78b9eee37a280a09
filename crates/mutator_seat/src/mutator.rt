//! A mutator: its seat, with the heap that the seat is of.
ghost use Rattle.std.specs.Prelude.{◌≡◌, ◌≤◌, ◌+◌, true, length};
ghost use Rattle.core_machine.specs.Own.{no_own};
ghost use Rattle.core_machine.specs.Trail.{own_along};
ghost use Rattle.heap_rule.specs.Asks.{MayComeIn, target};
ghost use Rattle.heap_table.specs.Seats.{IsSeatOf};

use heap_rule::Keeping;
use heap_table::CellHeap;
use mutator_events::MutSeat;
use std::marker::Model;

/// A thread's right to the operations of one mutator, with the heap that it steps on.
#[derive(Drop)]
pub struct Mutator<'a, P: Keeping> {
    pub(crate) heap: &'a CellHeap<P>,
    pub(crate) seat: MutSeat<P>,
}

impl<'a, P: Keeping> Model for Mutator<'a, P> {
    ghost use Rattle.std.specs.Coded.{codes};
    ghost use Rattle.cell_words.specs.contracts.terms.Term as term;
    ghost use Rattle.mutator_seat.specs.Bound.{Bound, IsBound};

    ghost Value = { Bound P };

    ghost coded = { Prim.hlevel (codes, term.the_row.coded) };

    ghost view = { λ m. record { heap = m.heap.now; seat = m.seat } };

    ghost invariant = { λ m. IsBound m.heap.now m.seat };
}

impl<'a, P: Keeping> Mutator<'a, P> {
    /// The operations of the mutator that has this seat.
    pub fn new(heap: &'a CellHeap<P>, seat: MutSeat<P>) -> Mutator<'a, P>
        requires seat { IsSeatOf heap.now seat }
        requires out { MayComeIn seat.me }
        ensures mutator { result ≡ record { heap = heap.now; seat = seat } }
    {
        // Who is out has begun no write.
        let _inside = seat.is_in();
        Mutator { heap, seat }
    }

    /// How many cells it holds, counted by place.
    pub fn held_len(&self) -> usize
        ensures len { result ≡ length self.now.seat.me.own.held }
        ensures known { length self.now.seat.me.known ≡ result }
        ensures some { self.now.seat.me.presence.inside ≡ true → 1 ≤ result }
        ensures anchor { self.now.seat.me.presence.inside ≡ true → target self.now.seat.me 0 ≡ 0 }
        ensures left { self.now.seat.me.own ≡ own_along no_own self.now.seat.me.trail }
    {
        self.seat.held_len()
    }

    /// How many places are free.
    pub fn room(&self) -> usize
        ensures room { length self.now.seat.me.own.held + result ≡ self.now.seat.me.room }
    {
        self.seat.room()
    }

    /// How many cells it has claimed.
    pub fn claims(&self) -> u64
        ensures claims { result ≡ self.now.seat.me.own.claims }
    {
        self.seat.claims()
    }
}
