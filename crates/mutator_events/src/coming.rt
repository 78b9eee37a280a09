//! Coming in, going out, and being over: the bits of a mutator's status word.
//!
//! A mutator that is out may be answered for by the collector, so the status that it comes in with
//! is the one that it finds.
ghost use Rattle.std.specs.Prelude.{◌≡◌, true};
ghost use Rattle.cell_words.specs.declared.presences.Status.{Status};
ghost use Rattle.core_machine.specs.declared.events.Event.TheVariants as event;
ghost use Rattle.core_machine.specs.declared.events.Found.TheVariants as finds;
ghost use Rattle.heap_rule.specs.Asks.{MayComeIn};
ghost use Rattle.heap_table.specs.Seats.{IsSeatOf};
ghost use Rattle.mutator_events.specs.Events.{tells};

use crate::seat::MutSeat;
use crate::words::status_word;
use core_machine::Event;
use heap_rule::Keeping;
use heap_table::CellHeap;
use heap_table::words::presence_of;
use std::marker::Brand;

/// The bits of a status word: who is in, and who is over.
const INSIDE: u64 = 4;

const OVER: u64 = 8;

/// All bits of a status word but the first of these.
const ALL_BUT_INSIDE: u64 = 11;

impl<P: Keeping> MutSeat<P> {
    /// Comes in, and holds the anchor alone. One `fetch_or` on its status word.
    pub fn begin(&mut self, heap: &CellHeap<P>)
        requires seat { IsSeatOf heap.now self.old }
        requires may { MayComeIn self.old.me }
        ensures told { (status : Status)
            × (self.new ≡ tells self.old (event.Begin self.old.me.number)
            (finds.Presence (record self.old.me.presence { status = status }))) }
    {
        let word = status_word(heap, self.number);
        let found = heap.mutator_set_bits::<Brand>(
            &mut self.seat,
            Event::Begin(self.number),
            word,
            INSIDE,
        );
        let presence = presence_of(found);
        self.held.clear();
        self.held.push_reserved(0);
        self.inside = true;
        self.status = presence.status;
    }

    /// Goes out, and holds nothing; a write that was begun is dropped. One `fetch_and` on its
    /// status word.
    pub fn end(&mut self, heap: &CellHeap<P>)
        requires seat { IsSeatOf heap.now self.old }
        requires inside { self.old.me.presence.inside ≡ true }
        ensures told { self.new ≡ tells self.old (event.End self.old.me.number)
            (finds.Presence self.old.me.presence) }
    {
        let word = status_word(heap, self.number);
        let _ = heap.mutator_keep_bits::<Brand>(
            &mut self.seat,
            Event::End(self.number),
            word,
            ALL_BUT_INSIDE,
        );
        self.held.clear();
        self.inside = false;
    }

    /// Never comes in again. One `fetch_or` on its status word.
    pub fn over(&mut self, heap: &CellHeap<P>)
        requires seat { IsSeatOf heap.now self.old }
        requires may { MayComeIn self.old.me }
        ensures told { (status : Status)
            × (self.new ≡ tells self.old (event.Over self.old.me.number)
            (finds.Presence (record self.old.me.presence { status = status }))) }
    {
        let word = status_word(heap, self.number);
        let _ = heap.mutator_set_bits::<Brand>(
            &mut self.seat,
            Event::Over(self.number),
            word,
            OVER,
        );
    }
}
