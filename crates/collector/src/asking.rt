//! Handshakes: every mutator answers for itself, or is answered for while it is out.
ghost use Rattle.std.specs.Prelude.{◌≡◌, ◌<◌, ◌+◌, ◌&&◌, ◌||◌, replicate, slice_index_or};
ghost use Rattle.std.specs.Prelude.{false, true};
ghost use Rattle.collector.specs.Bound.{control_of, mutators_of, part_of};
ghost use Rattle.collector.specs.Over.{Hears};
ghost use Rattle.core_machine.specs.Collector.{answered_by};
ghost use Rattle.core_machine.specs.Words.{is_handshake, same_status};

use crate::collecting::Collector;
use cell_words::Status;
use cell_words::modes::requested;
use heap_rule::Keeping;
use std::sync::Wait;
use std::thread;

/// Whether both are the same status.
fn same_status(one: Status, other: Status) -> bool
    ensures same { result ≡ same_status one other }
{
    match (one, other) {
        (Status::Async, Status::Async) => true,
        (Status::Sync1, Status::Sync1) => true,
        (Status::Sync2, Status::Sync2) => true,
        (Status::Async, Status::Sync1 | Status::Sync2) => false,
        (Status::Sync1, Status::Async | Status::Sync2) => false,
        (Status::Sync2, Status::Async | Status::Sync1) => false,
    }
}

/// The outcome of a try to hear from a mutator.
#[derive(Clone, Copy)]
pub(crate) struct Tried {
    /// the mutator has answered
    pub answered: bool,
    /// it was found over
    pub over: bool,
}

/// Whether both are so.
pub(crate) fn both(one: bool, other: bool) -> bool
    ensures both { result ≡ (one && other) }
{
    one && other
}

/// Whether one of both is so.
pub(crate) fn either(one: bool, other: bool) -> bool
    ensures either { result ≡ (one || other) }
{
    one || other
}

impl<'a, P: Keeping> Collector<'a, P> {
    /// Looks whether a mutator has answered, and answers for it where it is found out.
    pub(crate) fn try_answer(&mut self, mutator: u32) -> Tried
        requires asks { is_handshake (control_of self.old).stage ≡ true }
        requires mutator { mutator < mutators_of self.old }
        requires waits { slice_index_or (part_of self.old).answered mutator true ≡ false }
        ensures hears { Hears result.over mutator (mutator + 1) self.old self.new }
        ensures control { control_of self.new ≡ control_of self.old }
        ensures part { part_of self.new ≡ answered_by (part_of self.old) mutator result.answered }
    {
        let presence = self.poll_once(mutator);
        let over = presence.over;
        if same_status(presence.status, requested(self.control().stage)) {
            return Tried {
                answered: true,
                over,
            };
        }
        if presence.inside {
            return Tried {
                answered: false,
                over,
            };
        }
        let answered = self.answer_out_once(mutator, over);
        Tried { answered, over }
    }

    /// Waits until a mutator has answered, and yields the processor meanwhile. It gives whether the
    /// mutator was found over then.
    fn await_answer<R: Wait>(&mut self, rt: &R, mutator: u32) -> bool
        requires asks { is_handshake (control_of self.old).stage ≡ true }
        requires mutator { mutator < mutators_of self.old }
        requires waits { slice_index_or (part_of self.old).answered mutator true ≡ false }
        ensures hears { Hears result mutator (mutator + 1) self.old self.new }
        ensures control { control_of self.new ≡ control_of self.old }
        ensures part { part_of self.new ≡ answered_by (part_of self.old) mutator true }
    {
        for _ in rt.forever() {
            let tried = self.try_answer(mutator);
            if tried.answered {
                return tried.over;
            }
            thread::yield_now();
        }
        unreachable!()
    }

    /// Waits until all mutators have answered. It gives whether all were found over.
    pub(crate) fn await_all<R: Wait>(&mut self, rt: &R) -> bool
        requires asks { is_handshake (control_of self.old).stage ≡ true }
        requires nobody { (part_of self.old).answered ≡ replicate (mutators_of self.old) false }
        ensures hears { Hears result 0 (mutators_of self.old) self.old self.new }
        ensures control { control_of self.new ≡ control_of self.old }
        ensures part { part_of self.new
            ≡ record (part_of self.old) { answered = replicate (mutators_of self.old) true } }
    {
        let mut all_over = true;
        for mutator in 0..self.mutators() {
            let over = self.await_answer(rt, mutator);
            all_over = both(all_over, over);
        }
        all_over
    }
}
