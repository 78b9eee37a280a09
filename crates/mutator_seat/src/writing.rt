//! Writing a field of a box: a look, the marks of the barrier, and the write.
//!
//! The look may be stale at the write, at most to where the next handshake waits for this mutator.
//! The marks that it asks for are enough all the same (docs/ALGORITHM.md).
ghost use Rattle.std.specs.Prelude.{◌≡◌, IfErr, OnOk, true, false, is_some};
ghost use Rattle.cell_words.specs.declared.write_barrier.Barrier.TheVariants as barrier;
ghost use Rattle.cell_words.specs.declared.fields.Field.{Field};
ghost use Rattle.core_machine.specs.Places.{is_marked_value, marks_stand};
ghost use Rattle.core_machine.specs.Words.{barrier_in, marks_some, same_field};
ghost use Rattle.heap_table.specs.Seats.{IsSeatOf};
ghost use Rattle.mutator_events.specs.Values.{field_at};
ghost use Rattle.mutator_seat.specs.Bound.{IsBound, bound};
ghost use Rattle.mutator_seat.specs.Stretches.{Calm, MarksOf, SamePlaces};
ghost use Rattle.mutator_seat.specs.Writes.{IsNamed, LookAndMarks, MayUpdate, PicksUpdate, Updated};
ghost use Rattle.mutator_seat.specs.Writes.{places_in, wanted_by};

use crate::looking::look_once;
use crate::mutator::Mutator;
use cell_words::Barrier;
use cell_words::modes::barrier;
use heap_rule::Keeping;
use heap_table::CellHeap;
use mutator_events::{Choice, Moved, MutSeat, Value};

impl<'a, P: Keeping> Mutator<'a, P> {
    /// Exchanges a field of the box at a place for `new`, where it holds `old`; `Moved` says what
    /// it held at the step. The caller picks its pass by what the write finds.
    pub fn update<C: Choice<P>>(
        &mut self,
        place: usize,
        field: usize,
        old: Value,
        new: Value,
    ) -> Result<(), Moved>
        requires may { MayUpdate P.fixed self.old.seat.me place field old new }
        requires rule { PicksUpdate P.holds P.fixed C.next self.old place field old new }
        ensures made { OnOk result (Updated P.holds P.fixed C.next self.old place field old new
            (field_at self.old.seat.me.own.held old) self.new) }
        ensures moved { IfErr result (λ moved.
            (same_field moved.found (field_at self.old.seat.me.own.held old) ≡ false)
            × Updated P.holds P.fixed C.next self.old place field old new moved.found self.new) }
        ensures places { SamePlaces self.old self.new }
    {
        update::<P, C>(self.heap, &mut self.seat, place, field, old, new)
    }
}

/// Exchanges a field of the box at a place for `new`, where it holds `old`; `Moved` says what it
/// held at the step. The caller picks its pass by what the write finds.
pub fn update<P: Keeping, C: Choice<P>>(
    heap: &CellHeap<P>,
    seat: &mut MutSeat<P>,
    place: usize,
    field: usize,
    old: Value,
    new: Value,
) -> Result<(), Moved>
    requires seat { IsBound heap.now seat.old }
    requires may { MayUpdate P.fixed seat.old.me place field old new }
    requires rule { PicksUpdate P.holds P.fixed C.next (bound heap.now seat.old) place field old
        new }
    ensures seat { IsBound heap.now seat.new }
    ensures made { OnOk result (Updated P.holds P.fixed C.next (bound heap.now seat.old) place field
        old new (field_at seat.old.me.own.held old) (bound heap.now seat.new)) }
    ensures moved { IfErr result (λ moved.
        (same_field moved.found (field_at seat.old.me.own.held old) ≡ false)
        × Updated P.holds P.fixed C.next (bound heap.now seat.old) place field old new moved.found
        (bound heap.now seat.new)) }
    ensures places { SamePlaces (bound heap.now seat.old) (bound heap.now seat.new) }
{
    look_and_mark(heap, seat, old, new);
    seat.write::<C>(heap, place, field, old, new)
}

/// Looks, and marks what the barrier wants before `new` is written over `old`.
fn look_and_mark<P: Keeping>(heap: &CellHeap<P>, seat: &mut MutSeat<P>, old: Value, new: Value)
    requires seat { IsBound heap.now seat.old }
    requires inside { seat.old.me.presence.inside ≡ true }
    requires old_named { IsNamed seat.old.me.own.held old }
    requires new_named { IsNamed seat.old.me.own.held new }
    ensures seat { IsBound heap.now seat.new }
    ensures calm { Calm (LookAndMarks seat.old.me.number seat.old.me.presence.status old new)
        (bound heap.now seat.old) (bound heap.now seat.new) }
    ensures mode { is_some seat.new.me.own.mode ≡ true }
    ensures presence { seat.new.me.presence ≡ seat.old.me.presence }
    ensures marks { marks_stand (barrier_in seat.new.me.presence.status seat.new.me.own.mode)
        seat.new.me.own.held (field_at seat.new.me.own.held old)
        (field_at seat.new.me.own.held new) ≡ true }
{
    let control = look_once(heap, seat);
    let wanted = barrier(seat.status(), control);
    mark_wanted(heap, seat, wanted, old, new);
}

/// Marks what the barrier wants.
pub(crate) fn mark_wanted<P: Keeping>(
    heap: &CellHeap<P>,
    seat: &mut MutSeat<P>,
    wanted: Barrier,
    old: Value,
    new: Value,
)
    requires seat { IsSeatOf heap.now seat.old }
    requires inside { seat.old.me.presence.inside ≡ true }
    requires wanted { barrier_in seat.old.me.presence.status seat.old.me.own.mode ≡ wanted }
    requires old_named { IsNamed seat.old.me.own.held old }
    requires new_named { IsNamed seat.old.me.own.held new }
    ensures calm { Calm (MarksOf seat.old.me.number (wanted_by wanted old new))
        (bound heap.now seat.old) (bound heap.now seat.new) }
    ensures mode { seat.new.me.own.mode ≡ seat.old.me.own.mode }
    ensures presence { seat.new.me.presence ≡ seat.old.me.presence }
    ensures marks { marks_stand wanted seat.new.me.own.held (field_at seat.new.me.own.held old)
        (field_at seat.new.me.own.held new) ≡ true }
{
    match wanted {
        Barrier::Nothing => (),
        Barrier::Old => mark_value(heap, seat, old),
        Barrier::Both => mark_both(heap, seat, old, new),
    }
}

/// Marks the cells that the two values name.
fn mark_both<P: Keeping>(heap: &CellHeap<P>, seat: &mut MutSeat<P>, old: Value, new: Value)
    requires seat { IsSeatOf heap.now seat.old }
    requires inside { seat.old.me.presence.inside ≡ true }
    requires barrier { marks_some (barrier_in seat.old.me.presence.status seat.old.me.own.mode)
        ≡ true }
    requires old_named { IsNamed seat.old.me.own.held old }
    requires new_named { IsNamed seat.old.me.own.held new }
    ensures calm { Calm (MarksOf seat.old.me.number (wanted_by barrier.Both old new))
        (bound heap.now seat.old) (bound heap.now seat.new) }
    ensures mode { seat.new.me.own.mode ≡ seat.old.me.own.mode }
    ensures presence { seat.new.me.presence ≡ seat.old.me.presence }
    ensures marks { marks_stand barrier.Both seat.new.me.own.held
        (field_at seat.new.me.own.held old) (field_at seat.new.me.own.held new) ≡ true }
{
    mark_value(heap, seat, old);
    mark_value(heap, seat, new);
}

/// Marks the cell that a value names, if it names one.
fn mark_value<P: Keeping>(heap: &CellHeap<P>, seat: &mut MutSeat<P>, value: Value)
    requires seat { IsSeatOf heap.now seat.old }
    requires inside { seat.old.me.presence.inside ≡ true }
    requires barrier { marks_some (barrier_in seat.old.me.presence.status seat.old.me.own.mode)
        ≡ true }
    requires named { IsNamed seat.old.me.own.held value }
    ensures calm { Calm (MarksOf seat.old.me.number (places_in value))
        (bound heap.now seat.old) (bound heap.now seat.new) }
    ensures mode { seat.new.me.own.mode ≡ seat.old.me.own.mode }
    ensures presence { seat.new.me.presence ≡ seat.old.me.presence }
    ensures marked { is_marked_value seat.new.me.own.held (field_at seat.new.me.own.held value)
        ≡ true }
    ensures still { (other : Field) → is_marked_value seat.old.me.own.held other ≡ true
        → is_marked_value seat.new.me.own.held other ≡ true }
{
    match value {
        Value::Null => (),
        Value::Num(_) => (),
        Value::Held(place) => seat.mark(heap, place),
    }
}
