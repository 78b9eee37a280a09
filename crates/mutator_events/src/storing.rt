//! A write of a field by a store: the fetch that begins it, and the store that ends it.
//!
//! Between the two stand the marks of the barrier, and nothing that looks, writes or answers. The
//! store sets the field whatever it holds by then: what another wrote there meanwhile is lost.
ghost use Rattle.std.specs.Prelude.{◌≡◌, length};
ghost use Rattle.cell_words.specs.declared.fields.Field.{Field};
ghost use Rattle.core_machine.specs.declared.events.Event.TheVariants as event;
ghost use Rattle.core_machine.specs.declared.events.Found.TheVariants as finds;
ghost use Rattle.heap_rule.specs.Asks.{MayFetch, MayStore};
ghost use Rattle.heap_rule.specs.Steps.{Picks, same_pass};
ghost use Rattle.heap_table.specs.Seats.{IsSeatOf};
ghost use Rattle.mutator_events.specs.Events.{AtEvent, store_of};
ghost use Rattle.mutator_events.specs.Values.{field_at, value_found};

use crate::cells::hold_found;
use crate::choice::Choice;
use crate::seat::MutSeat;
use crate::values::Value;
use cell_words::pack_field;
use core_machine::Event;
use heap_rule::Keeping;
use heap_table::CellHeap;
use heap_table::words::field_of;
use std::marker::Brand;

impl<P: Keeping> MutSeat<P> {
    /// Loads a field of the box at a place, to store it next, and holds the cell that it finds at
    /// the next place.
    pub fn fetch(&mut self, heap: &CellHeap<P>, place: usize, field: usize) -> Value
        requires seat { IsSeatOf heap.now self.old }
        requires may { MayFetch self.old.me place field }
        ensures table { self.new.table ≡ self.old.table }
        ensures told { (found : Field) × (result ≡ value_found (length self.old.me.own.held) found)
            × AtEvent P.holds P.fixed self.old.me (event.Fetch self.old.me.number place field)
            same_pass (finds.Field found) self.new.me }
    {
        let word = self.field_at(heap, place, field);
        let number = heap.mutator_load::<Brand>(
            &mut self.seat,
            Event::Fetch(self.number, place, field),
            word,
        );
        let found = field_of(number);
        self.begun_place = place;
        self.begun_field = field;
        hold_found(&mut self.held, found)
    }

    /// Stores `new` in the field that was fetched, whatever it holds now. The look, the fetch and
    /// all marks are used up. One store to the field.
    pub fn store<C: Choice<P>>(&mut self, heap: &CellHeap<P>, new: Value)
        requires seat { IsSeatOf heap.now self.old }
        requires may { MayStore P.fixed self.old.me (field_at self.old.me.own.held new) }
        requires rule { Picks P.holds P.fixed C.next self.old.me (store_of self.old.me new) }
        ensures table { self.new.table ≡ self.old.table }
        ensures made { AtEvent P.holds P.fixed self.old.me (store_of self.old.me new) C.next
            finds.Stored self.new.me }
    {
        let word = self.field_at(heap, self.begun_place, self.begun_field);
        let new = self.stands_for(new);
        let written = pack_field(new);
        heap.mutator_store::<Brand>(
            &mut self.seat,
            Event::Store(self.number, new),
            word,
            written,
        );
    }
}
