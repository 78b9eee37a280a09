//! Reading a field of a held cell, choosing what stays held, and whether two places hold one cell.
ghost use Rattle.std.specs.Prelude.{◌≡◌, ◌<◌, ◌==◌, None, length, true};
ghost use Rattle.cell_words.specs.Term.{Term};
ghost use Rattle.cell_words.specs.declared.fields.Field.{Field};
ghost use Rattle.core_machine.specs.declared.events.Event.TheVariants as event;
ghost use Rattle.core_machine.specs.declared.events.Found.TheVariants as finds;
ghost use Rattle.heap_rule.specs.Asks.{MayKeep, MayRead, known_of, target};
ghost use Rattle.heap_rule.specs.declared.known.Known.TheVariants as knows;
ghost use Rattle.heap_rule.specs.Steps.{Picks};
ghost use Rattle.heap_table.specs.Seats.{IsSeatOf};
ghost use Rattle.mutator_events.specs.Events.{AtEvent, tells};
ghost use Rattle.mutator_events.specs.Values.{value_found};

use crate::cells::{hold_found, keep_cells};
use crate::choice::Choice;
use crate::seat::MutSeat;
use crate::values::Value;
use crate::words::status_word;
use core_machine::Event;
use heap_rule::Keeping;
use heap_table::CellHeap;
use heap_table::words::field_of;
use std::marker::Brand;

impl<P: Keeping> MutSeat<P> {
    /// Loads a field of the cell at a place, and holds the cell that it finds at the next one.
    pub fn read<C: Choice<P>>(&mut self, heap: &CellHeap<P>, place: usize, field: usize) -> Value
        requires seat { IsSeatOf heap.now self.old }
        requires may { MayRead self.old.me place field }
        requires rule { Picks P.holds P.fixed C.next self.old.me
            (event.Read self.old.me.number place field) }
        ensures table { self.new.table ≡ self.old.table }
        ensures told { (found : Field) × (result ≡ value_found (length self.old.me.own.held) found)
            × AtEvent P.holds P.fixed self.old.me (event.Read self.old.me.number place field) C.next
            (finds.Field found) self.new.me }
    {
        let word = self.field_at(heap, place, field);
        let number = heap.mutator_load::<Brand>(
            &mut self.seat,
            Event::Read(self.number, place, field),
            word,
        );
        let found = field_of(number);
        hold_found(&mut self.held, found)
    }

    /// Keeps the first `n` places, then the `count` cells that stood from `place` on. One load of
    /// its status word, which it throws away.
    pub fn keep(&mut self, heap: &CellHeap<P>, n: usize, place: usize, count: usize)
        requires seat { IsSeatOf heap.now self.old }
        requires may { MayKeep self.old.me n place count }
        requires settled { self.old.me.own.pending ≡ None }
        ensures told { self.new ≡ tells self.old (event.Keep self.old.me.number n place count)
            (finds.Presence self.old.me.presence) }
    {
        let word = status_word(heap, self.number);
        let _ = heap.mutator_load::<Brand>(
            &mut self.seat,
            Event::Keep(self.number, n, place, count),
            word,
        );
        keep_cells(&mut self.held, n, place, count);
    }

    /// Whether two places hold one cell. What is known of them as records is then one term, which
    /// one load of its status word shows, and throws away.
    pub fn is_same(&mut self, heap: &CellHeap<P>, first: usize, second: usize) -> bool
        requires seat { IsSeatOf heap.now self.old }
        requires inside { self.old.me.presence.inside ≡ true }
        requires settled { self.old.me.own.pending ≡ None }
        requires first { first < length self.old.me.own.held }
        requires second { second < length self.old.me.own.held }
        ensures same { result ≡ (target self.old.me first == target self.old.me second) }
        ensures terms { result ≡ true → (t u : Term) → known_of self.old.me first ≡ knows.Record t
            → known_of self.old.me second ≡ knows.Record u → t ≡ u }
        ensures told { self.new ≡ tells self.old
            (event.Keep self.old.me.number (length self.old.me.own.held) 0 0)
            (finds.Presence self.old.me.presence) }
    {
        let same = self.cell(first) == self.cell(second);
        let places = self.held_len();
        let word = status_word(heap, self.number);
        // All places are kept, and so the list stays as it is.
        let _ = heap.mutator_load::<Brand>(
            &mut self.seat,
            Event::Keep(self.number, places, 0, 0),
            word,
        );
        same
    }
}
