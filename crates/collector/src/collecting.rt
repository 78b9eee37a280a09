//! The collector: its seat, with the heap that the seat is of and the mark stack.
ghost use Rattle.std.specs.Prelude.{◌≡◌, ◌<◌, ◌≤◌, ◌∷◌, ℕ, is_some, length, true};
ghost use Rattle.std.specs.List.{list_all};
ghost use Rattle.cell_heap.specs.Telling.{FindsKnown};
ghost use Rattle.cell_words.specs.declared.controls.Stage.TheVariants as stage;
ghost use Rattle.collector.specs.Bound.{cells_of, control_of, mutators_of, part_of, takes};
ghost use Rattle.collector.specs.Stack.{emptied, has_room, is_empty, looked_at, next_of, pushed};
ghost use Rattle.core_machine.specs.declared.events.Event.TheVariants as event;
ghost use Rattle.core_machine.specs.declared.events.Found.TheVariants as finds;
ghost use Rattle.heap_table.specs.Seats.{IsSeatOf};

use crate::mark_stack::MarkStack;
use cell_heap::ColSeat;
use cell_words::Control;
use heap_rule::Keeping;
use heap_table::CellHeap;
use std::marker::Model;

/// The one thread's right to collect, with the heap that it collects and a stack of cells that wait
/// for a look.
#[derive(Drop)]
pub struct Collector<'a, P: Keeping> {
    pub(crate) heap: &'a CellHeap<P>,
    pub(crate) seat: ColSeat<P>,
    pub(crate) mutators: u32,
    pub(crate) stack: MarkStack,
}

impl<'a, P: Keeping> Model for Collector<'a, P> {
    ghost use Rattle.std.specs.Coded.{codes};
    ghost use Rattle.cell_words.specs.contracts.terms.Term as term;
    ghost use Rattle.collector.specs.Bound.{Bound, IsBound};

    ghost Value = { Bound P };

    ghost coded = { Prim.hlevel (codes, term.the_row.coded) };

    ghost view = { λ c. record { heap = c.heap.now; seat = c.seat; stack = c.stack } };

    ghost invariant = { λ c. IsBound c.heap.now c.seat c.mutators c.stack };
}

impl<'a, P: Keeping> Collector<'a, P> {
    /// The collector of a heap, by its seat. Of the stack it takes the room alone: what lies on it
    /// is dropped, so nothing is asked of it.
    pub fn new(
        heap: &'a CellHeap<P>,
        seat: ColSeat<P>,
        mutators: u32,
        stack: MarkStack,
    ) -> Collector<'a, P>
        requires seat { IsSeatOf heap.now seat }
        requires mutators { mutators ≡ heap.now.shape.mutators }
        ensures collector { result
            ≡ record { heap = heap.now; seat = seat; stack = emptied stack } }
    {
        let mut stack = stack;
        stack.clear();
        Collector {
            heap,
            seat,
            mutators,
            stack,
        }
    }

    /// The seat again.
    pub fn into_seat(self) -> ColSeat<P>
        ensures seat { result ≡ self.entry.seat }
    {
        let Collector { seat, .. } = self;
        seat
    }

    /// Takes all cells from the stack.
    pub(crate) fn empty_stack(&mut self)
        ensures none { self.new ≡ record self.old { stack = emptied self.old.stack } }
    {
        self.stack.clear();
    }

    /// Whether no cell waits on the stack.
    pub(crate) fn is_stack_empty(&self) -> bool
        ensures empty { result ≡ is_empty self.now.stack.cells }
    {
        self.stack.is_empty()
    }

    /// Puts a cell on the stack, if there is room.
    pub(crate) fn push(&mut self, cell: u32) -> bool
        requires cell { cell < cells_of self.old }
        ensures room { result ≡ has_room self.old.stack }
        ensures pushed { self.new ≡ record self.old { stack = pushed cell self.old.stack } }
    {
        self.stack.push(cell)
    }

    /// The cell to be looked at next, where the pass has come to the given one.
    pub(crate) fn next_besides(&mut self, at: u32) -> u32
        requires at { at < cells_of self.old }
        ensures cell { result < cells_of self.old }
        ensures left { self.new ≡ record self.old { stack = looked_at result self.old.stack } }
        ensures next { result ≡ next_of at self.old.stack.cells }
    {
        self.stack.next_besides(at)
    }

    /// How many cells the heap has.
    pub(crate) fn cells(&self) -> u32
        ensures cells { result ≡ cells_of self.now }
        ensures some { 0 < result }
    {
        self.seat.cells()
    }

    /// How many mutators it has. For each it is kept whether it has answered, and whether it was
    /// found over; once all were, the state is known.
    pub(crate) fn mutators(&self) -> u32
        ensures mutators { result ≡ mutators_of self.now }
        ensures answers { length (part_of self.now).answered ≡ result }
        ensures over { length self.now.seat.me.over ≡ result }
        ensures knows { 0 < result → list_all (λ found. found) self.now.seat.me.over ≡ true
            → is_some self.now.seat.me.alone ≡ true }
    {
        self.seat.mutators()
    }

    /// The control, as it was stored last.
    pub fn control(&self) -> Control
        ensures control { result ≡ control_of self.now }
    {
        self.seat.control()
    }

    /// Goes on duty, or off: one store of the control.
    pub fn duty(&mut self, on: bool)
        requires idle { (control_of self.old).stage ≡ stage.Idle }
        ensures told { self.new ≡ takes self.old (event.Duty on) finds.Stored }
        ensures known { FindsKnown self.old.seat.me (event.Duty on) finds.Stored }
    {
        self.seat.duty(self.heap, on);
    }
}
