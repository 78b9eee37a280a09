//! Writing a field of a box, and the marks that come before it.
ghost use Rattle.std.specs.Prelude.{◌≡◌, IfErr, OnOk, false};
ghost use Rattle.cell_words.specs.declared.colours.Colour.{Colour};
ghost use Rattle.core_machine.specs.Words.{same_field};
ghost use Rattle.core_machine.specs.declared.events.Event.TheVariants as event;
ghost use Rattle.core_machine.specs.declared.events.Found.TheVariants as finds;
ghost use Rattle.heap_rule.specs.Asks.{MayMark, MayWrite};
ghost use Rattle.heap_rule.specs.Steps.{Picks};
ghost use Rattle.heap_table.specs.Seats.{IsSeatOf};
ghost use Rattle.mutator_events.specs.Events.{AtEvent, tells, write_of};
ghost use Rattle.mutator_events.specs.Values.{field_at};

use crate::choice::Choice;
use crate::seat::MutSeat;
use crate::values::{Moved, Value};
use cell_words::{Colour, pack_colour, pack_field};
use core_machine::Event;
use heap_rule::Keeping;
use heap_table::CellHeap;
use heap_table::words::field_of;
use std::marker::Brand;

impl<P: Keeping> MutSeat<P> {
    /// Makes a white cell at a place gray, and marks all places that hold it. One compare
    /// and exchange on the cell's colour.
    pub fn mark(&mut self, heap: &CellHeap<P>, place: usize)
        requires seat { IsSeatOf heap.now self.old }
        requires may { MayMark self.old.me place }
        ensures told { (found : Colour)
            × (self.new ≡ tells self.old (event.Mark self.old.me.number place)
            (finds.Colour found)) }
    {
        let word = self.colour_at(heap, place);
        let white = pack_colour(Colour::White);
        let gray = pack_colour(Colour::Gray);
        let _ = heap.mutator_exchange::<Brand>(
            &mut self.seat,
            Event::Mark(self.number, place),
            word,
            white,
            gray,
        );
    }

    /// Exchanges a field of the box at a place for `new`, where it holds `old`. The look and all
    /// marks are used up in either case. One compare and exchange on the field.
    pub fn write<C: Choice<P>>(
        &mut self,
        heap: &CellHeap<P>,
        place: usize,
        field: usize,
        old: Value,
        new: Value,
    ) -> Result<(), Moved>
        requires seat { IsSeatOf heap.now self.old }
        requires may { MayWrite P.fixed self.old.me place field
            (field_at self.old.me.own.held old) (field_at self.old.me.own.held new) }
        requires rule { Picks P.holds P.fixed C.next self.old.me
            (write_of self.old.me place field old new) }
        ensures table { self.new.table ≡ self.old.table }
        ensures made { OnOk result (AtEvent P.holds P.fixed self.old.me
            (write_of self.old.me place field old new) C.next
            (finds.Field (field_at self.old.me.own.held old)) self.new.me) }
        ensures moved { IfErr result (λ moved.
            (same_field moved.found (field_at self.old.me.own.held old) ≡ false)
            × AtEvent P.holds P.fixed self.old.me (write_of self.old.me place field old new) C.next
            (finds.Field moved.found) self.new.me) }
    {
        let word = self.field_at(heap, place, field);
        let old = self.stands_for(old);
        let new = self.stands_for(new);
        let expected = pack_field(old);
        let written = pack_field(new);
        let number = heap.mutator_exchange::<Brand>(
            &mut self.seat,
            Event::Write(self.number, place, field, old, new),
            word,
            expected,
            written,
        );
        let found = field_of(number);
        if number == expected {
            Ok(())
        } else {
            Err(Moved { found })
        }
    }
}
