//! One look at the control, and the answer to the handshake that it saw.
ghost use Rattle.std.specs.Prelude.{◌≡◌};
ghost use Rattle.cell_words.specs.Control.{IsValidControl};
ghost use Rattle.core_machine.specs.declared.events.Event.TheVariants as event;
ghost use Rattle.core_machine.specs.declared.events.Found.TheVariants as finds;
ghost use Rattle.heap_rule.specs.Asks.{MayAnswer, MayLook};
ghost use Rattle.heap_table.specs.Seats.{IsSeatOf};
ghost use Rattle.mutator_events.specs.Events.{tells};

use crate::seat::MutSeat;
use crate::words::{CONTROL, status_word};
use cell_words::modes::next_status;
use cell_words::{Control, Presence, pack_presence};
use core_machine::Event;
use heap_rule::Keeping;
use heap_table::CellHeap;
use heap_table::words::control_of;
use std::marker::Brand;

impl<P: Keeping> MutSeat<P> {
    /// Loads the control: the mode of what it does next, and stale from then on. No place is marked
    /// after it.
    pub fn look(&mut self, heap: &CellHeap<P>) -> Control
        requires seat { IsSeatOf heap.now self.old }
        requires may { MayLook self.old.me }
        ensures told { self.new
            ≡ tells self.old (event.Look self.old.me.number) (finds.Control result) }
        ensures valid { IsValidControl result }
    {
        let found = heap.mutator_load::<Brand>(&mut self.seat, Event::Look(self.number), CONTROL);
        self.looked = found;
        control_of(found)
    }

    /// Answers the handshake that its last look saw, by the next status. Before the third answer of
    /// a cycle all places are marked. One store to its status word.
    pub fn answer(&mut self, heap: &CellHeap<P>)
        requires seat { IsSeatOf heap.now self.old }
        requires may { MayAnswer self.old.me }
        ensures told { self.new ≡ tells self.old (event.Answer self.old.me.number) finds.Stored }
    {
        let word = status_word(heap, self.number);
        let status = next_status(self.status);
        let new = pack_presence(Presence {
            status,
            inside: true,
            over: false,
        });
        heap.mutator_store::<Brand>(&mut self.seat, Event::Answer(self.number), word, new);
        self.status = status;
    }
}
