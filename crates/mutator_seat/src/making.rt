//! Reading a field, and filling and sealing a raw cell.
ghost use Rattle.std.specs.Prelude.{◌≡◌, length};
ghost use Rattle.cell_words.specs.declared.fields.Field.{Field};
ghost use Rattle.cell_words.specs.declared.fields.Kind.TheVariants as kind;
ghost use Rattle.core_machine.specs.declared.events.Event.TheVariants as event;
ghost use Rattle.core_machine.specs.declared.events.Found.TheVariants as finds;
ghost use Rattle.heap_rule.specs.Asks.{MayFill, MayRead, MaySeal};
ghost use Rattle.heap_rule.specs.Lore.{nothing_learned};
ghost use Rattle.heap_rule.specs.Steps.{Picks};
ghost use Rattle.mutator_events.specs.Events.{AtEvent};
ghost use Rattle.mutator_events.specs.Values.{field_at, value_found};
ghost use Rattle.mutator_seat.specs.Bound.{IsBound, bound, takes, takes_with};

use crate::mutator::Mutator;
use cell_words::Kind;
use heap_rule::Keeping;
use heap_table::CellHeap;
use mutator_events::{Choice, MutSeat, Value};

impl<'a, P: Keeping> Mutator<'a, P> {
    /// Reads a field of the cell at a place; a cell that it finds is held at the next place. The
    /// caller picks its pass by what the read tells.
    pub fn read<C: Choice<P>>(&mut self, place: usize, field: usize) -> Value
        requires may { MayRead self.old.seat.me place field }
        requires rule { Picks P.holds P.fixed C.next self.old.seat.me
            (event.Read self.old.seat.me.number place field) }
        ensures heap { self.new.heap ≡ self.old.heap }
        ensures table { self.new.seat.table ≡ self.old.seat.table }
        ensures told { (found : Field) × (result
            ≡ value_found (length self.old.seat.me.own.held) found)
            × AtEvent P.holds P.fixed self.old.seat.me
            (event.Read self.old.seat.me.number place field) C.next
            (finds.Field found) self.new.seat.me }
    {
        read::<P, C>(self.heap, &mut self.seat, place, field)
    }

    /// Writes a field of the raw cell at a place, which nobody else sees.
    pub fn fill<C: Choice<P>>(&mut self, place: usize, field: usize, value: Value)
        requires may { MayFill self.old.seat.me place field
            (field_at self.old.seat.me.own.held value) }
        requires rule { Picks P.holds P.fixed C.next self.old.seat.me
            (event.Fill self.old.seat.me.number place field
            (field_at self.old.seat.me.own.held value)) }
        ensures told { self.new ≡ takes_with self.old
            (event.Fill self.old.seat.me.number place field
            (field_at self.old.seat.me.own.held value)) finds.Stored
            (C.next nothing_learned finds.Stored self.old.seat.me.pass) }
    {
        fill::<P, C>(self.heap, &mut self.seat, place, field, value);
    }

    /// The raw cell at a place becomes a record: from now on its fields never change.
    pub fn seal_record(&mut self, place: usize)
        requires may { MaySeal self.old.seat.me place kind.Record }
        ensures told { self.new ≡ takes self.old
            (event.Seal self.old.seat.me.number place kind.Record) finds.Stored }
    {
        seal_record(self.heap, &mut self.seat, place);
    }

    /// The raw cell at a place becomes a box, whose fields `update` writes.
    pub fn seal_box(&mut self, place: usize)
        requires may { MaySeal self.old.seat.me place kind.Boxed }
        ensures told { self.new ≡ takes self.old
            (event.Seal self.old.seat.me.number place kind.Boxed) finds.Stored }
    {
        seal_box(self.heap, &mut self.seat, place);
    }
}

/// Reads a field of the cell at a place; a cell that it finds is held at the next place. The
/// caller picks its pass by what the read tells.
pub fn read<P: Keeping, C: Choice<P>>(
    heap: &CellHeap<P>,
    seat: &mut MutSeat<P>,
    place: usize,
    field: usize,
) -> Value
    requires seat { IsBound heap.now seat.old }
    requires may { MayRead seat.old.me place field }
    requires rule { Picks P.holds P.fixed C.next seat.old.me
        (event.Read seat.old.me.number place field) }
    ensures seat { IsBound heap.now seat.new }
    ensures table { seat.new.table ≡ seat.old.table }
    ensures told { (found : Field) × (result ≡ value_found (length seat.old.me.own.held) found)
        × AtEvent P.holds P.fixed seat.old.me (event.Read seat.old.me.number place field) C.next
        (finds.Field found) seat.new.me }
{
    seat.read::<C>(heap, place, field)
}

/// Writes a field of the raw cell at a place, which nobody else sees.
pub fn fill<P: Keeping, C: Choice<P>>(
    heap: &CellHeap<P>,
    seat: &mut MutSeat<P>,
    place: usize,
    field: usize,
    value: Value,
)
    requires seat { IsBound heap.now seat.old }
    requires may { MayFill seat.old.me place field (field_at seat.old.me.own.held value) }
    requires rule { Picks P.holds P.fixed C.next seat.old.me
        (event.Fill seat.old.me.number place field (field_at seat.old.me.own.held value)) }
    ensures seat { IsBound heap.now seat.new }
    ensures told { bound heap.now seat.new ≡ takes_with (bound heap.now seat.old)
        (event.Fill seat.old.me.number place field (field_at seat.old.me.own.held value))
        finds.Stored (C.next nothing_learned finds.Stored seat.old.me.pass) }
{
    seat.fill::<C>(heap, place, field, value);
}

/// The raw cell at a place becomes a record: from now on its fields never change.
pub fn seal_record<P: Keeping>(heap: &CellHeap<P>, seat: &mut MutSeat<P>, place: usize)
    requires seat { IsBound heap.now seat.old }
    requires may { MaySeal seat.old.me place kind.Record }
    ensures seat { IsBound heap.now seat.new }
    ensures told { bound heap.now seat.new ≡ takes (bound heap.now seat.old)
        (event.Seal seat.old.me.number place kind.Record) finds.Stored }
{
    seat.seal(heap, place, Kind::Record);
}

/// The raw cell at a place becomes a box, whose fields `update` writes.
pub fn seal_box<P: Keeping>(heap: &CellHeap<P>, seat: &mut MutSeat<P>, place: usize)
    requires seat { IsBound heap.now seat.old }
    requires may { MaySeal seat.old.me place kind.Boxed }
    ensures seat { IsBound heap.now seat.new }
    ensures told { bound heap.now seat.new ≡ takes (bound heap.now seat.old)
        (event.Seal seat.old.me.number place kind.Boxed) finds.Stored }
{
    seat.seal(heap, place, Kind::Boxed);
}
