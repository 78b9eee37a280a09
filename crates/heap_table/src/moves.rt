//! The moves of seats that are no events: a mutator's seat is split off the collector's, and joined
//! to it again.
ghost use Rattle.std.specs.Prelude.{◌≡◌, ◌<◌, true, ℕ};
ghost use mathlib.Core.Option.{some};
ghost use lib.ListN.{get_elem?};
ghost use Rattle.heap_rule.specs.Moves.{given_view, joined_view, spent_view, split_view};
ghost use Rattle.heap_rule.specs.declared.view.Place.TheVariants as places;
ghost use Rattle.heap_rule.specs.declared.view.Role.TheVariants as role;
ghost use Rattle.heap_table.specs.Seats.{IsSeatOf};

use crate::heap::{CellHeap, HeapSeat};
use atomic_table::{Join, Split};
use heap_rule::{Keeping, View};
use std::marker::{Brand, PhantomData};

/// Which mutator is split off, and with how many places of room.
pub trait Departure {
    ghost number: { ℕ };

    ghost room: { ℕ };
}

impl Departure for Brand {
    ghost number = { 0 };

    ghost room = { 1 };
}

/// The cut of the collector's view.
pub struct Departing<D> {
    departure: PhantomData<D>,
}

impl<P: Keeping, D: Departure> Split<View<P>> for Departing<D> {
    ghost left = { split_view D.number };

    ghost right = { given_view P.opening D.number D.room };
}

/// The collector's view and a mutator's made one.
pub struct Returning;

impl<P: Keeping> Join<View<P>> for Returning {
    ghost both = { joined_view };

    ghost spent = { spent_view P.opening };
}

impl<P: Keeping> CellHeap<P> {
    /// Splits the seat of a mutator off the collector's, with so many places of room.
    pub fn split_off(&self, seat: &mut HeapSeat<P>, number: u32, room: u32) -> HeapSeat<P>
        requires seat { IsSeatOf self.now seat.old }
        requires role { seat.old.me.role ≡ role.Collector }
        requires number { number < self.now.shape.mutators }
        requires unsplit { get_elem? seat.old.me.places number ≡ some places.Unsplit }
        ensures left { seat.new ≡ record seat.old { me = split_view number seat.old.me } }
        ensures given { result ≡ record seat.old { me = given_view P.opening number room seat.old.me } }
    {
        self.split_by::<Brand>(seat, number, room)
    }

    fn split_by<D: Departure>(&self, seat: &mut HeapSeat<P>, number: u32, room: u32) -> HeapSeat<P>
        requires seat { IsSeatOf self.now seat.old }
        requires role { seat.old.me.role ≡ role.Collector }
        requires number { D.number < self.now.shape.mutators }
        requires unsplit { get_elem? seat.old.me.places D.number ≡ some places.Unsplit }
        ensures left { seat.new ≡ record seat.old { me = split_view D.number seat.old.me } }
        ensures given { result ≡ record seat.old { me = given_view P.opening D.number D.room seat.old.me } }
    {
        let _ = (number, room);
        HeapSeat {
            seat: self.table.shared.split_seat::<Departing<D>>(&mut seat.seat),
        }
    }

    /// Joins the seat of a mutator that is over to the collector's, which has its part from then
    /// on.
    pub fn join_back(&self, seat: &mut HeapSeat<P>, mutator: HeapSeat<P>)
        requires seats { IsSeatOf self.now seat.old × IsSeatOf self.now mutator }
        requires roles { (seat.old.me.role ≡ role.Collector) × (mutator.me.role ≡ role.Mutator) }
        requires over { mutator.me.presence.over ≡ true }
        ensures both { seat.new ≡ record seat.old { me = joined_view seat.old.me mutator.me } }
    {
        let HeapSeat { seat: other } = mutator;
        self.table
            .shared
            .join_seat::<Returning>(&mut seat.seat, other);
    }
}
