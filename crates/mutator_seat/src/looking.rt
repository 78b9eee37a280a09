//! Looking, and answering handshakes: one look, and where it asks for the next status, the answer.
ghost use Rattle.std.specs.Prelude.{◌≡◌, ◌≤◌, ◌||◌, true, not, is_some};
ghost use Rattle.cell_words.specs.Modes.{next_status_of};
ghost use Rattle.cell_words.specs.declared.presences.Status.TheVariants as status;
ghost use Rattle.core_machine.specs.declared.events.Event.TheVariants as event;
ghost use Rattle.core_machine.specs.declared.events.Found.TheVariants as finds;
ghost use Rattle.core_machine.specs.Places.{all_marked};
ghost use Rattle.core_machine.specs.Words.{requests, same_status};
ghost use Rattle.mutator_seat.specs.Bound.{IsBound, bound, takes};
ghost use Rattle.mutator_seat.specs.Claims.{HasMode};
ghost use Rattle.mutator_seat.specs.Stretches.{Answering, AreBefore, Calm, LookAndAnswer};
ghost use Rattle.mutator_seat.specs.Stretches.{are_marks, asks_next, status_behind};

use crate::mutator::Mutator;
use cell_words::modes::{next_status, requested};
use cell_words::{Control, Status};
use heap_rule::Keeping;
use heap_table::CellHeap;
use mutator_events::MutSeat;

/// Whether the control asks for the status that comes next.
fn asks_next(control: Control, own: Status) -> bool
    ensures asks { result ≡ asks_next control own }
{
    match (requested(control.stage), next_status(own)) {
        (Status::Async, Status::Async) => true,
        (Status::Sync1, Status::Sync1) => true,
        (Status::Sync2, Status::Sync2) => true,
        (Status::Async, Status::Sync1 | Status::Sync2) => false,
        (Status::Sync1, Status::Async | Status::Sync2) => false,
        (Status::Sync2, Status::Async | Status::Sync1) => false,
    }
}

impl<'a, P: Keeping> Mutator<'a, P> {
    /// Looks once and answers the handshake that it finds asked for, if one is; before the third of
    /// a cycle all held cells are marked. To be called at safe points, between two operations.
    pub fn answer(&mut self) -> bool
        requires inside { self.old.seat.me.presence.inside ≡ true }
        ensures calm { Calm (LookAndAnswer self.old.seat.me.number self.old.seat.me.presence.status
            result) self.old self.new }
        ensures status { self.new.seat.me.presence.status
            ≡ status_behind result self.old.seat.me.presence.status }
    {
        answer(self.heap, &mut self.seat)
    }

    /// Loads the control: the mode of what it does next.
    pub(crate) fn look_once(&mut self) -> Control
        requires inside { self.old.seat.me.presence.inside ≡ true }
        ensures told { self.new ≡ takes self.old (event.Look self.old.seat.me.number)
            (finds.Control result) }
        ensures few { result.cycles ≤ 4000000000 }
    {
        look_once(self.heap, &mut self.seat)
    }
}

/// Loads the control: the mode of what it does next.
pub fn look_once<P: Keeping>(heap: &CellHeap<P>, seat: &mut MutSeat<P>) -> Control
    requires seat { IsBound heap.now seat.old }
    requires inside { seat.old.me.presence.inside ≡ true }
    ensures seat { IsBound heap.now seat.new }
    ensures told { bound heap.now seat.new
        ≡ takes (bound heap.now seat.old) (event.Look seat.old.me.number)
        (finds.Control result) }
    ensures mode { HasMode (bound heap.now seat.new) }
    ensures few { result.cycles ≤ 4000000000 }
{
    seat.look(heap)
}

/// Looks once and answers the handshake that it finds asked for, if one is; before the third of
/// a cycle all held cells are marked. To be called at safe points, between two operations.
pub fn answer<P: Keeping>(heap: &CellHeap<P>, seat: &mut MutSeat<P>) -> bool
    requires seat { IsBound heap.now seat.old }
    requires inside { seat.old.me.presence.inside ≡ true }
    ensures seat { IsBound heap.now seat.new }
    ensures calm { Calm (LookAndAnswer seat.old.me.number seat.old.me.presence.status result)
        (bound heap.now seat.old) (bound heap.now seat.new) }
    ensures status { seat.new.me.presence.status
        ≡ status_behind result seat.old.me.presence.status }
{
    let control = look_once(heap, seat);
    if asks_next(control, seat.status()) {
        answer_asked(heap, seat);
        true
    } else {
        false
    }
}

/// Marks what is to be marked, and answers.
fn answer_asked<P: Keeping>(heap: &CellHeap<P>, seat: &mut MutSeat<P>)
    requires seat { IsBound heap.now seat.old }
    requires inside { seat.old.me.presence.inside ≡ true }
    requires asked { requests seat.old.me.own.mode (next_status_of seat.old.me.presence.status)
        ≡ true }
    ensures seat { IsBound heap.now seat.new }
    ensures calm { Calm (Answering seat.old.me.number seat.old.me.presence.status)
        (bound heap.now seat.old) (bound heap.now seat.new) }
    ensures status { seat.new.me.presence.status
        ≡ next_status_of seat.old.me.presence.status }
{
    mark_before_third(heap, seat);
    seat.answer(heap);
}

/// Before the third answer of a cycle all held cells are marked.
fn mark_before_third<P: Keeping>(heap: &CellHeap<P>, seat: &mut MutSeat<P>)
    requires seat { IsBound heap.now seat.old }
    requires inside { seat.old.me.presence.inside ≡ true }
    requires mode { is_some seat.old.me.own.mode ≡ true }
    ensures seat { IsBound heap.now seat.new }
    ensures calm { Calm (AreBefore (next_status_of seat.old.me.presence.status))
        (bound heap.now seat.old) (bound heap.now seat.new) }
    ensures mode { seat.new.me.own.mode ≡ seat.old.me.own.mode }
    ensures presence { seat.new.me.presence ≡ seat.old.me.presence }
    ensures marked { (not (same_status (next_status_of seat.new.me.presence.status) status.Async)
        || all_marked seat.new.me.own.held) ≡ true }
{
    match seat.status() {
        Status::Async => (),
        Status::Sync1 => (),
        Status::Sync2 => mark_all(heap, seat),
    }
}

/// Marks all held cells, place by place.
fn mark_all<P: Keeping>(heap: &CellHeap<P>, seat: &mut MutSeat<P>)
    requires seat { IsBound heap.now seat.old }
    requires inside { seat.old.me.presence.inside ≡ true }
    requires mode { is_some seat.old.me.own.mode ≡ true }
    requires third { seat.old.me.presence.status ≡ status.Sync2 }
    ensures seat { IsBound heap.now seat.new }
    ensures calm { Calm are_marks (bound heap.now seat.old) (bound heap.now seat.new) }
    ensures mode { seat.new.me.own.mode ≡ seat.old.me.own.mode }
    ensures presence { seat.new.me.presence ≡ seat.old.me.presence }
    ensures marked { all_marked seat.new.me.own.held ≡ true }
{
    for place in 0..seat.held_len() {
        seat.mark(heap, place);
    }
}
