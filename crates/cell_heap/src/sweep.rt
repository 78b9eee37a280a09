//! The calls of the sweep, an event each.
ghost use Rattle.std.specs.Prelude.{◌≡◌, false, true};
ghost use Rattle.cell_heap.specs.Telling.{FindsKnown, collector_tells};
ghost use Rattle.core_machine.specs.Next.{can};
ghost use Rattle.core_machine.specs.Words.{is_gray};
ghost use Rattle.core_machine.specs.declared.events.Event.TheVariants as event;
ghost use Rattle.core_machine.specs.declared.events.Found.TheVariants as finds;
ghost use Rattle.heap_rule.specs.Asks.{collector_state};
ghost use Rattle.heap_table.specs.Seats.{IsSeatOf};

use crate::progress::{sweep_of, wiped, wiped_count};
use crate::seat::ColSeat;
use crate::sweep_runs::{advance_to, look_at, whiten_at};
use crate::words::{colour_word, field_word};
use cell_words::{Colour, Control, Field, pack_colour, pack_field};
use core_machine::{Event, Sweeping};
use heap_rule::Keeping;
use heap_table::CellHeap;
use std::marker::Brand;

impl<P: Keeping> ColSeat<P> {
    /// Loads the colour of the cell at the position.
    pub fn sweep_look(&mut self, heap: &CellHeap<P>) -> Colour
        requires seat { IsSeatOf heap.now self.old }
        requires can { can (collector_state self.old.me) event.SweepLook ≡ true }
        ensures told { self.new ≡ collector_tells self.old event.SweepLook (finds.Colour result) }
        ensures known { FindsKnown self.old.me event.SweepLook (finds.Colour result) }
        ensures not_gray { is_gray result ≡ false }
    {
        let colour = look_at(heap, &mut self.seat, self.mutators, self.control.position);
        let sweep = sweep_of(colour);
        self.progress.sweep = sweep;
        colour
    }

    /// Stores null in the next field of the cell at the position.
    pub fn wipe(&mut self, heap: &CellHeap<P>)
        requires seat { IsSeatOf heap.now self.old }
        requires can { can (collector_state self.old.me) event.Wipe ≡ true }
        ensures told { self.new ≡ collector_tells self.old event.Wipe finds.Stored }
        ensures known { FindsKnown self.old.me event.Wipe finds.Stored }
    {
        let field = wiped_count(self.progress.sweep);
        let word = field_word(self.mutators, self.control.position, field);
        let null = pack_field(Field::Null);
        heap.collector_store::<Brand>(&mut self.seat, Event::Wipe, word, null);
        let further = wiped(self.progress.sweep);
        self.progress.sweep = further;
    }

    /// Stores blue as the colour of the cell at the position.
    pub fn free(&mut self, heap: &CellHeap<P>)
        requires seat { IsSeatOf heap.now self.old }
        requires can { can (collector_state self.old.me) event.Free ≡ true }
        ensures told { self.new ≡ collector_tells self.old event.Free finds.Stored }
        ensures known { FindsKnown self.old.me event.Free finds.Stored }
    {
        let word = colour_word(self.mutators, self.control.position);
        let blue = pack_colour(Colour::Blue);
        heap.collector_store::<Brand>(&mut self.seat, Event::Free, word, blue);
        self.progress.sweep = Sweeping::Done;
        self.progress.freed += 1;
    }

    /// Stores white as the colour of the cell at the position.
    pub fn whiten(&mut self, heap: &CellHeap<P>)
        requires seat { IsSeatOf heap.now self.old }
        requires can { can (collector_state self.old.me) event.Whiten ≡ true }
        ensures told { self.new ≡ collector_tells self.old event.Whiten finds.Stored }
        ensures known { FindsKnown self.old.me event.Whiten finds.Stored }
    {
        whiten_at(heap, &mut self.seat, self.mutators, self.control.position);
        self.progress.sweep = Sweeping::Done;
    }

    /// Stores the control with the next position.
    pub fn advance(&mut self, heap: &CellHeap<P>)
        requires seat { IsSeatOf heap.now self.old }
        requires can { can (collector_state self.old.me) event.Advance ≡ true }
        ensures told { self.new ≡ collector_tells self.old event.Advance finds.Stored }
        ensures known { FindsKnown self.old.me event.Advance finds.Stored }
    {
        let control = Control {
            position: self.control.position + 1,
            ..self.control
        };
        advance_to(heap, &mut self.seat, control);
        self.control = control;
        self.progress.sweep = Sweeping::Fresh;
    }
}
