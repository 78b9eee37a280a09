//! What a thread does with the queue: it puts numbers, and takes them.
ghost use Rattle.std.specs.Prelude.{◌≡◌, ◌<◌, IfNone, IfSome, MatchOption, length};
ghost use Rattle.std.specs.Bool.{MatchBool, OnFalse};
ghost use Rattle.crossbeam_queue.specs.Passes.{view};
ghost use Rattle.free_cells.specs.Counts.{IsFront, none_taken, put, put_refused, taken};
ghost use Rattle.free_cells.specs.Hints.{cells_of, counts_of, queue_of};
ghost use Rattle.free_cells.specs.Passes.{IsHintPass};

use crate::counts::{HintPass, NoneTaken, Put, PutRefused, Taken};
use crate::hints::Hints;
use std::sync::Wait;

impl<'a> Hints<'a> {
    /// Offers a number to whoever takes one next.
    pub fn put<R: Wait>(&mut self, rt: &R, cell: u32) -> bool
        requires range { cell < cells_of (queue_of self.old) }
        ensures queue { queue_of self.new ≡ queue_of self.old }
        ensures counts { MatchBool result (counts_of self.new ≡ put cell (counts_of self.old))
            (counts_of self.new ≡ put_refused (counts_of self.old)) }
        ensures full { OnFalse result (IfSome (counts_of self.old).content
            (λ known. length known ≡ cells_of (queue_of self.old))) }
    {
        match self.queue.ring.push_as::<Put, R>(rt, &mut self.pass, cell) {
            Ok(()) => true,
            Err(_) => {
                let _unused = self.queue.ring.another::<PutRefused>(&mut self.pass);
                false
            }
        }
    }

    /// The number at the front leaves the queue. Its cell may be free.
    pub fn take<R: Wait>(&mut self, rt: &R) -> Option<u32>
        ensures queue { queue_of self.new ≡ queue_of self.old }
        ensures range { IfSome result (λ cell. cell < cells_of (queue_of self.old)) }
        ensures front { IfSome result (λ cell. IsFront cell (counts_of self.old).content) }
        ensures counts { MatchOption result (counts_of self.new ≡ none_taken (counts_of self.old))
            (λ _. counts_of self.new ≡ taken (counts_of self.old)) }
        ensures empty { IfNone result (IfSome (counts_of self.old).content
            (λ known. length known ≡ 0)) }
    {
        match self.queue.ring.pop_as::<Taken, R>(rt, &mut self.pass) {
            Some(cell) => Some(cell),
            None => {
                let _unused = self.queue.ring.another::<NoneTaken>(&mut self.pass);
                self.queue.demand.wake();
                None
            }
        }
    }

    /// How many numbers the queue has at one moment of the call.
    pub fn len<R: Wait>(&mut self, rt: &R) -> usize
        ensures queue { queue_of self.new ≡ queue_of self.old }
        ensures counts { counts_of self.new ≡ counts_of self.old }
        ensures len { IfSome (counts_of self.old).content (λ known. length known ≡ result) }
    {
        self.queue.ring.len_as::<Taken, R>(rt, &mut self.pass)
    }

    /// Whether fewer than three tenths of the cells have a number.
    fn are_few<R: Wait>(&mut self, rt: &R) -> bool
        ensures queue { queue_of self.new ≡ queue_of self.old }
        ensures counts { counts_of self.new ≡ counts_of self.old }
    {
        let many = self.len(rt) as u64;
        many.saturating_mul(10) < u64::from(self.queue.cells) * 3
    }

    /// Wakes who waits for demand, if numbers are few.
    pub fn tell_demand<R: Wait>(&mut self, rt: &R)
        ensures queue { queue_of self.new ≡ queue_of self.old }
        ensures counts { counts_of self.new ≡ counts_of self.old }
    {
        if self.queue.demand.is_asleep() && self.are_few(rt) {
            self.queue.demand.wake();
        }
    }

    /// Sleeps until numbers are few, a `take` finds none, or the work is over.
    pub fn await_demand<R: Wait>(&mut self, rt: &R)
        ensures queue { queue_of self.new ≡ queue_of self.old }
        ensures counts { counts_of self.new ≡ counts_of self.old }
    {
        if self.queue.demand.is_over() || self.are_few(rt) {
            return;
        }
        self.queue.demand.lie_down();
        if !self.queue.demand.is_over() && !self.are_few(rt) {
            self.queue.demand.sleep(rt);
        }
        self.queue.demand.get_up();
    }

    /// The pass again, as for handing it to another thread.
    pub fn into_pass(self) -> HintPass
        ensures pass { IsHintPass (queue_of self.entry) result }
        ensures counts { view result ≡ counts_of self.entry }
    {
        self.pass
    }
}
