//! Making a cell: taking a blue one, filling its fields, and saying what it is.
ghost use Rattle.std.specs.Prelude.{◌≡◌, true};
ghost use Rattle.cell_words.specs.declared.colours.Colour.{Colour};
ghost use Rattle.core_machine.specs.Words.{is_blue};
ghost use Rattle.core_machine.specs.declared.events.Event.TheVariants as event;
ghost use Rattle.core_machine.specs.declared.events.Found.TheVariants as finds;
ghost use Rattle.heap_rule.specs.Apart.{IsNewTo};
ghost use Rattle.heap_rule.specs.Asks.{MayClaim, MayFill, MaySeal};
ghost use Rattle.heap_rule.specs.Lore.{cells_in, nothing_learned};
ghost use Rattle.heap_rule.specs.Steps.{Picks};
ghost use Rattle.heap_table.specs.Seats.{IsSeatOf};
ghost use Rattle.mutator_events.specs.Events.{fill_of, tells, tells_with};
ghost use Rattle.mutator_events.specs.Values.{field_at};

use crate::choice::Choice;
use crate::seat::MutSeat;
use crate::values::Value;
use crate::words::{colour_word, kind_field};
use cell_words::modes::claim_colour;
use cell_words::{Colour, Kind, pack_colour, pack_field};
use core_machine::Event;
use heap_rule::Keeping;
use heap_table::CellHeap;
use heap_table::words::{colour_of, control_of};
use std::marker::Brand;

impl<P: Keeping> MutSeat<P> {
    /// Takes a cell, if it is blue: then it holds the cell, raw and with null fields, and the look
    /// is used up. One compare and exchange on the cell's colour.
    pub fn claim(&mut self, heap: &CellHeap<P>, cell: u32) -> bool
        requires seat { IsSeatOf heap.now self.old }
        requires may { MayClaim self.old.me cell }
        ensures told { (found : Colour) × (result ≡ is_blue found)
            × (self.new ≡ tells self.old (event.Claim self.old.me.number cell)
            (finds.Colour found)) }
        ensures new { result ≡ true
            → IsNewTo (cells_in self.old.me.own.held) self.old.me.known cell }
    {
        let word = colour_word(heap, cell);
        let born = claim_colour(self.status, control_of(self.looked), cell);
        let blue = pack_colour(Colour::Blue);
        let new = pack_colour(born);
        let number = heap.mutator_exchange::<Brand>(
            &mut self.seat,
            Event::Claim(self.number, cell),
            word,
            blue,
            new,
        );
        let found = colour_of(number);
        match found {
            Colour::Blue => {
                self.held.push_reserved(cell);
                self.claims += 1;
                true
            }
            Colour::White | Colour::Gray | Colour::Black => false,
        }
    }

    /// Stores a field of the raw cell at a place.
    pub fn fill<C: Choice<P>>(
        &mut self,
        heap: &CellHeap<P>,
        place: usize,
        field: usize,
        value: Value,
    )
        requires seat { IsSeatOf heap.now self.old }
        requires may { MayFill self.old.me place field (field_at self.old.me.own.held value) }
        requires rule { Picks P.holds P.fixed C.next self.old.me
            (fill_of self.old.me place field value) }
        ensures told { self.new
            ≡ tells_with self.old (fill_of self.old.me place field value) finds.Stored
            (C.next nothing_learned finds.Stored self.old.me.pass) }
    {
        let word = self.field_at(heap, place, field);
        let value = self.stands_for(value);
        let new = pack_field(value);
        heap.mutator_store::<Brand>(
            &mut self.seat,
            Event::Fill(self.number, place, field, value),
            word,
            new,
        );
    }

    /// Makes the raw cell at a place a record or a box. One store to its field 5.
    pub fn seal(&mut self, heap: &CellHeap<P>, place: usize, kind: Kind)
        requires seat { IsSeatOf heap.now self.old }
        requires may { MaySeal self.old.me place kind }
        ensures told { self.new
            ≡ tells self.old (event.Seal self.old.me.number place kind) finds.Stored }
    {
        let word = self.field_at(heap, place, 5);
        let field = kind_field(kind);
        let new = pack_field(field);
        heap.mutator_store::<Brand>(
            &mut self.seat,
            Event::Seal(self.number, place, kind),
            word,
            new,
        );
    }
}
