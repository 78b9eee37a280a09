//! The calls that store the control, and those that wait for the mutators' answers.
ghost use Rattle.std.specs.Prelude.{◌≡◌, ◌<◌, true};
ghost use Rattle.cell_heap.specs.Telling.{AnswersOut, AtCollectorEvent, FindsKnown};
ghost use Rattle.cell_heap.specs.Telling.{collector_tells};
ghost use Rattle.cell_words.specs.Presence.{is_valid_presence};
ghost use Rattle.core_machine.specs.Collector.{posted_control};
ghost use Rattle.core_machine.specs.Next.{can};
ghost use Rattle.core_machine.specs.WordOperations.{status_before};
ghost use Rattle.core_machine.specs.declared.events.Event.TheVariants as event;
ghost use Rattle.core_machine.specs.declared.events.Found.TheVariants as finds;
ghost use Rattle.heap_rule.specs.Asks.{collector_state};
ghost use Rattle.heap_table.specs.Seats.{IsSeatOf};

use crate::seat::ColSeat;
use crate::words::{CONTROL, status_word};
use cell_words::modes::requested;
use cell_words::{Control, Presence, Stage, Status, pack_control, pack_presence};
use core_machine::Event;
use heap_rule::Keeping;
use heap_table::CellHeap;
use heap_table::words::presence_of;
use std::marker::Brand;

/// The control of a stage.
fn posted(control: Control, stage: Stage) -> Control
    requires { control.cycles < 4294967295 }
    ensures control { result ≡ posted_control control stage }
{
    let position = match stage {
        Stage::Idle | Stage::Sweep => 0,
        Stage::Sync1 | Stage::Clear | Stage::Sync2 | Stage::Trace => control.position,
    };
    let cycles = match stage {
        Stage::Idle => control.cycles + 1,
        Stage::Sync1 | Stage::Clear | Stage::Sync2 | Stage::Trace | Stage::Sweep => control.cycles,
    };
    Control {
        stage,
        position,
        cycles,
        ..control
    }
}

/// The status from which a mutator answers with this one.
fn status_before(status: Status) -> Status
    ensures status { result ≡ status_before status }
{
    match status {
        Status::Async => Status::Sync2,
        Status::Sync1 => Status::Async,
        Status::Sync2 => Status::Sync1,
    }
}

impl<P: Keeping> ColSeat<P> {
    /// Stores the control of the next stage.
    pub fn post(&mut self, heap: &CellHeap<P>, stage: Stage)
        requires seat { IsSeatOf heap.now self.old }
        requires can { can (collector_state self.old.me) (event.Post stage) ≡ true }
        ensures told { self.new ≡ collector_tells self.old (event.Post stage) finds.Stored }
        ensures known { FindsKnown self.old.me (event.Post stage) finds.Stored }
    {
        let control = posted(self.control, stage);
        let word = pack_control(control);
        heap.collector_store::<Brand>(&mut self.seat, Event::Post(stage), CONTROL, word);
        self.control = control;
        self.progress.post(stage);
    }

    /// Stores the control with the word on whether the collector is on duty.
    pub fn duty(&mut self, heap: &CellHeap<P>, on: bool)
        requires seat { IsSeatOf heap.now self.old }
        requires can { can (collector_state self.old.me) (event.Duty on) ≡ true }
        ensures told { self.new ≡ collector_tells self.old (event.Duty on) finds.Stored }
        ensures known { FindsKnown self.old.me (event.Duty on) finds.Stored }
    {
        let control = Control {
            duty: on,
            ..self.control
        };
        let word = pack_control(control);
        heap.collector_store::<Brand>(&mut self.seat, Event::Duty(on), CONTROL, word);
        self.control = control;
    }

    /// Loads the status word of a mutator.
    pub fn poll(&mut self, heap: &CellHeap<P>, mutator: u32) -> Presence
        requires seat { IsSeatOf heap.now self.old }
        requires can { can (collector_state self.old.me) (event.Poll mutator) ≡ true }
        ensures table { self.new.table ≡ self.old.table }
        ensures told { AtCollectorEvent P.fixed self.old.me (event.Poll mutator)
            (finds.Presence result) self.new.me }
        ensures known { FindsKnown self.old.me (event.Poll mutator) (finds.Presence result) }
        ensures valid { is_valid_presence result ≡ true }
    {
        let word = status_word(mutator);
        let found = heap.collector_load::<Brand>(&mut self.seat, Event::Poll(mutator), word);
        presence_of(found)
    }

    /// Answers for a mutator that is out, over or not as given: one compare and exchange on its
    /// status word, from the status before the requested one. It gives whether that was made.
    pub fn answer_out(&mut self, heap: &CellHeap<P>, mutator: u32, over: bool) -> bool
        requires seat { IsSeatOf heap.now self.old }
        requires can { can (collector_state self.old.me) (event.AnswerOut mutator over) ≡ true }
        ensures table { self.new.table ≡ self.old.table }
        ensures told { AnswersOut P.fixed self.old.me mutator over result self.new.me }
    {
        let wanted = requested(self.control.stage);
        let before = status_before(wanted);
        let old = pack_presence(Presence {
            status: before,
            inside: false,
            over,
        });
        let new = pack_presence(Presence {
            status: wanted,
            inside: false,
            over,
        });
        let word = status_word(mutator);
        let event = Event::AnswerOut(mutator, over);
        let found = heap.collector_exchange::<Brand>(&mut self.seat, event, word, old, new);
        found == old
    }
}
