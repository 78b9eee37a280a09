//! Storing a field of a box, whatever it holds: a look, the fetch, the marks of the barrier, and
//! the store.
//!
//! The fetch shows the value that goes, so that this is marked where the barrier asks for it. In
//! sync2, where the look found the stage Sync2, no store may be begun (docs/ALGORITHM.md): a read
//! and an exchange of what it found stand in its place.
ghost use Rattle.std.specs.Prelude.{◌≡◌, ◌⊎◌, IfErr, OnOk, None, Some, true, false, is_some};
ghost use Rattle.cell_words.specs.declared.fields.Field.{Field};
ghost use Rattle.core_machine.specs.declared.events.Found.TheVariants as finds;
ghost use Rattle.core_machine.specs.Words.{barrier_in, lets_store, same_field};
ghost use Rattle.heap_rule.specs.Steps.{Picks, same_pass};
ghost use Rattle.heap_table.specs.Seats.{IsSeatOf};
ghost use Rattle.mutator_seat.specs.Bound.{IsBound, bound};
ghost use Rattle.mutator_seat.specs.Stores.{Exchanged, MayOverwrite, Overwritten, PicksExchange};
ghost use Rattle.mutator_seat.specs.Stores.{PicksOverwrite, PicksStore, Replaced, Rewritten};
ghost use Rattle.mutator_seat.specs.Stores.{exchange_of, fetch_of, read_of, store_of};
ghost use Rattle.mutator_seat.specs.Stretches.{SamePlaces};

use crate::coming::cut;
use crate::looking::look_once;
use crate::mutator::Mutator;
use crate::writing::mark_wanted;
use cell_words::modes::barrier;
use cell_words::{Barrier, Control, Stage, Status};
use heap_rule::Keeping;
use heap_table::CellHeap;
use mutator_events::{Choice, Moved, MutSeat, Value};

/// Whether a store may be begun.
fn lets_store(own: Status, control: Control) -> bool
    ensures lets { result ≡ lets_store own (Some control) }
{
    match (own, control.stage) {
        (Status::Sync2, Stage::Sync2) => false,
        (Status::Sync2, Stage::Idle | Stage::Sync1 | Stage::Clear | Stage::Trace | Stage::Sweep) =>
            { true }
        (Status::Async | Status::Sync1, _) => true,
    }
}

impl<'a, P: Keeping> Mutator<'a, P> {
    /// Stores `new` in a field of the box at a place. What another thread wrote there between the
    /// fetch and the store is lost: who must not lose it takes `update`. `Moved` comes where no
    /// store may be begun and another wrote the field since it was read; nothing is written then.
    /// The caller picks its pass at the store, or at the read and the exchange.
    pub fn store<R: Choice<P>, C: Choice<P>>(
        &mut self,
        place: usize,
        field: usize,
        new: Value,
    ) -> Result<(), Moved>
        requires may { MayOverwrite P.fixed self.old.seat.me place field new }
        requires rule { PicksOverwrite P.holds P.fixed R.next C.next self.old place field new }
        ensures made { OnOk result (Overwritten P.holds P.fixed C.next self.old place field new
            self.new
            ⊎ ((seen : Field) × Exchanged P.holds P.fixed R.next C.next self.old place field new
            seen seen self.new)) }
        ensures moved { IfErr result (λ moved. (seen : Field)
            × (same_field moved.found seen ≡ false)
            × Exchanged P.holds P.fixed R.next C.next self.old place field new seen moved.found
            self.new) }
        ensures places { SamePlaces self.old self.new }
    {
        store::<P, R, C>(self.heap, &mut self.seat, place, field, new)
    }
}

/// Stores `new` in a field of the box at a place. What another thread wrote there between the
/// fetch and the store is lost: who must not lose it takes `update`. `Moved` comes where no
/// store may be begun and another wrote the field since it was read; nothing is written then.
/// The caller picks its pass at the store, or at the read and the exchange.
pub fn store<P: Keeping, R: Choice<P>, C: Choice<P>>(
    heap: &CellHeap<P>,
    seat: &mut MutSeat<P>,
    place: usize,
    field: usize,
    new: Value,
) -> Result<(), Moved>
    requires seat { IsBound heap.now seat.old }
    requires may { MayOverwrite P.fixed seat.old.me place field new }
    requires rule { PicksOverwrite P.holds P.fixed R.next C.next (bound heap.now seat.old) place
        field new }
    ensures seat { IsBound heap.now seat.new }
    ensures made { OnOk result (Overwritten P.holds P.fixed C.next (bound heap.now seat.old) place
        field new (bound heap.now seat.new)
        ⊎ ((seen : Field) × Exchanged P.holds P.fixed R.next C.next (bound heap.now seat.old) place
        field new seen seen (bound heap.now seat.new))) }
    ensures moved { IfErr result (λ moved. (seen : Field)
        × (same_field moved.found seen ≡ false)
        × Exchanged P.holds P.fixed R.next C.next (bound heap.now seat.old) place field new seen
        moved.found (bound heap.now seat.new)) }
    ensures places { SamePlaces (bound heap.now seat.old) (bound heap.now seat.new) }
{
    let control = look_once(heap, seat);
    let own = seat.status();
    let wanted = barrier(own, control);
    if lets_store(own, control) {
        overwrite::<P, C>(heap, seat, wanted, place, field, new);
        Ok(())
    } else {
        exchange::<P, R, C>(heap, seat, wanted, place, field, new)
    }
}

/// After a look that lets it: the store, and the places from before are kept.
fn overwrite<P: Keeping, C: Choice<P>>(
    heap: &CellHeap<P>,
    seat: &mut MutSeat<P>,
    wanted: Barrier,
    place: usize,
    field: usize,
    new: Value,
)
    requires seat { IsBound heap.now seat.old }
    requires may { MayOverwrite P.fixed seat.old.me place field new }
    requires lets { lets_store seat.old.me.presence.status seat.old.me.own.mode ≡ true }
    requires wanted { barrier_in seat.old.me.presence.status seat.old.me.own.mode ≡ wanted }
    requires rule { PicksStore P.holds P.fixed C.next (bound heap.now seat.old) place field new }
    ensures seat { IsBound heap.now seat.new }
    ensures rewritten { (seen : Field) × Rewritten P.holds P.fixed wanted
        (fetch_of (bound heap.now seat.old) place field) same_pass seen (store_of new) C.next
        finds.Stored new (bound heap.now seat.old) (bound heap.now seat.new) }
{
    let many = seat.held_len();
    store_fetched::<P, C>(heap, seat, wanted, place, field, new);
    cut(heap, seat, many);
}

/// After a look that does not: a read and an exchange, and the places from before are kept.
fn exchange<P: Keeping, R: Choice<P>, C: Choice<P>>(
    heap: &CellHeap<P>,
    seat: &mut MutSeat<P>,
    wanted: Barrier,
    place: usize,
    field: usize,
    new: Value,
) -> Result<(), Moved>
    requires seat { IsBound heap.now seat.old }
    requires may { MayOverwrite P.fixed seat.old.me place field new }
    requires mode { is_some seat.old.me.own.mode ≡ true }
    requires wanted { barrier_in seat.old.me.presence.status seat.old.me.own.mode ≡ wanted }
    requires read { Picks P.holds P.fixed R.next seat.old.me
        (read_of (bound heap.now seat.old) place field) }
    requires rule { PicksExchange P.holds P.fixed R.next C.next (bound heap.now seat.old) place
        field new }
    ensures seat { IsBound heap.now seat.new }
    ensures made { OnOk result ((seen : Field) × Rewritten P.holds P.fixed wanted
        (read_of (bound heap.now seat.old) place field) R.next seen
        (exchange_of place field seen new) C.next (finds.Field seen) new
        (bound heap.now seat.old) (bound heap.now seat.new)) }
    ensures moved { IfErr result (λ moved. (seen : Field)
        × (same_field moved.found seen ≡ false)
        × Rewritten P.holds P.fixed wanted (read_of (bound heap.now seat.old) place field) R.next
        seen (exchange_of place field seen new) C.next (finds.Field moved.found) new
        (bound heap.now seat.old) (bound heap.now seat.new)) }
{
    let many = seat.held_len();
    let result = exchange_read::<P, R, C>(heap, seat, wanted, place, field, new);
    cut(heap, seat, many);
    result
}

/// Fetches the field, marks what the barrier wants, and stores.
fn store_fetched<P: Keeping, C: Choice<P>>(
    heap: &CellHeap<P>,
    seat: &mut MutSeat<P>,
    wanted: Barrier,
    place: usize,
    field: usize,
    new: Value,
)
    requires seat { IsSeatOf heap.now seat.old }
    requires settled { seat.old.me.own.pending ≡ None }
    requires may { MayOverwrite P.fixed seat.old.me place field new }
    requires lets { lets_store seat.old.me.presence.status seat.old.me.own.mode ≡ true }
    requires wanted { barrier_in seat.old.me.presence.status seat.old.me.own.mode ≡ wanted }
    requires rule { PicksStore P.holds P.fixed C.next (bound heap.now seat.old) place field new }
    ensures replaced { (seen : Field) × Replaced P.holds P.fixed wanted
        (fetch_of (bound heap.now seat.old) place field) same_pass seen (store_of new) C.next
        finds.Stored new (bound heap.now seat.old) (bound heap.now seat.new) }
{
    let seen = seat.fetch(heap, place, field);
    mark_wanted(heap, seat, wanted, seen, new);
    seat.store::<C>(heap, new);
}

/// Reads the field, marks what the barrier wants, and exchanges what it read.
fn exchange_read<P: Keeping, R: Choice<P>, C: Choice<P>>(
    heap: &CellHeap<P>,
    seat: &mut MutSeat<P>,
    wanted: Barrier,
    place: usize,
    field: usize,
    new: Value,
) -> Result<(), Moved>
    requires seat { IsSeatOf heap.now seat.old }
    requires settled { seat.old.me.own.pending ≡ None }
    requires may { MayOverwrite P.fixed seat.old.me place field new }
    requires mode { is_some seat.old.me.own.mode ≡ true }
    requires wanted { barrier_in seat.old.me.presence.status seat.old.me.own.mode ≡ wanted }
    requires read { Picks P.holds P.fixed R.next seat.old.me
        (read_of (bound heap.now seat.old) place field) }
    requires rule { PicksExchange P.holds P.fixed R.next C.next (bound heap.now seat.old) place
        field new }
    ensures made { OnOk result ((seen : Field) × Replaced P.holds P.fixed wanted
        (read_of (bound heap.now seat.old) place field) R.next seen
        (exchange_of place field seen new) C.next (finds.Field seen) new
        (bound heap.now seat.old) (bound heap.now seat.new)) }
    ensures moved { IfErr result (λ moved. (seen : Field) × (same_field moved.found seen ≡ false)
        × Replaced P.holds P.fixed wanted (read_of (bound heap.now seat.old) place field) R.next
        seen (exchange_of place field seen new) C.next (finds.Field moved.found) new
        (bound heap.now seat.old) (bound heap.now seat.new)) }
{
    let found = seat.read::<R>(heap, place, field);
    mark_wanted(heap, seat, wanted, found, new);
    seat.write::<C>(heap, place, field, found, new)
}
