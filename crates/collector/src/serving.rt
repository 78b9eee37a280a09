//! Serving: cycle after cycle, until it is enough.
//!
//! A mutator that is over does no more. So once each was found over, two more whole cycles free all
//! that nothing reaches: the first one may still keep a cell that was dropped while it ran.
ghost use Rattle.std.specs.Prelude.{◌≡◌, ◌≤◌, ◌+◌, false, ℕ};
ghost use Rattle.cell_words.specs.declared.controls.Stage.TheVariants as stage;
ghost use Rattle.collector.specs.Bound.{cells_of, control_of, mutators_of};
ghost use Rattle.collector.specs.Cycles.{MadeCycles, Served};
ghost use Rattle.collector.specs.Offering.{OffersAll, freed_since};
ghost use Rattle.collector.specs.Serving.{is_done, next_rest};
ghost use Rattle.collector.specs.Stretches.{Stretch};
ghost use Rattle.core_machine.specs.State.{greatest_cycles};
ghost use Rattle.free_cells.specs.Hints.{cells_of as hinted_of, counts_of, queue_of};

use crate::collecting::Collector;
use free_cells::Hints;
use heap_rule::Keeping;
use std::sync::Wait;

/// How many more cycles it takes.
#[derive(Clone, Copy)]
pub(crate) enum Rest {
    /// some mutator was not found over yet
    Unknown,
    Two,
    One,
    Done,
}

/// Whether no more are needed.
fn is_done(rest: Rest) -> bool
    ensures done { result ≡ is_done rest }
{
    match rest {
        Rest::Unknown => false,
        Rest::Two => false,
        Rest::One => false,
        Rest::Done => true,
    }
}

/// What is left after a cycle that found every mutator over, or did not.
fn next_rest(rest: Rest, over: bool) -> Rest
    ensures rest { result ≡ next_rest rest over }
{
    match rest {
        Rest::Unknown => if over { Rest::Two } else { Rest::Unknown },
        Rest::Two => Rest::One,
        Rest::One => Rest::Done,
        Rest::Done => Rest::Done,
    }
}

/// When a cycle begins after another.
#[derive(Clone, Copy)]
pub(crate) enum Pace {
    /// at once
    Unbroken,
    /// when few cells have a hint, a thread wants one in vain, or the work is over
    OnDemand,
}

/// Waits until a cycle is wanted, where cycles wait for that and some mutator was not found over.
fn await_turn<R: Wait>(rt: &R, hints: &mut Hints<'_>, rest: Rest, pace: Pace)
    ensures queue { queue_of hints.new ≡ queue_of hints.old }
    ensures counts { counts_of hints.new ≡ counts_of hints.old }
{
    match (rest, pace) {
        (Rest::Unknown, Pace::OnDemand) => hints.await_demand(rt),
        (Rest::Unknown, Pace::Unbroken) => (),
        (Rest::Two | Rest::One | Rest::Done, _) => (),
    }
}

impl<'a, P: Keeping> Collector<'a, P> {
    /// Runs whole cycles, at most so many, and goes off duty. It stops earlier once every mutator
    /// was found over and two more cycles were made. It gives how many cells were freed.
    pub fn serve<R: Wait>(&mut self, rt: &R, hints: &mut Hints<'_>, cycles: u32) -> u64
        requires idle { (control_of self.old).stage ≡ stage.Idle }
        requires cycles { (control_of self.old).cycles + cycles ≤ greatest_cycles }
        requires hints { hinted_of (queue_of hints.old) ≡ cells_of self.old }
        ensures served { (made : ℕ)
            × ((control_of self.new).cycles ≡ (control_of self.old).cycles + made)
            × Stretch (Served (mutators_of self.old) cycles made result) self.old self.new }
        ensures idle { (control_of self.new).stage ≡ stage.Idle }
        ensures off_duty { (control_of self.new).duty ≡ false }
        ensures queue { queue_of hints.new ≡ queue_of hints.old }
        ensures offered { OffersAll (freed_since self.old self.new) (counts_of hints.old) (counts_of hints.new) }
        ensures puts { (counts_of hints.new).puts ≡ (counts_of hints.old).puts + result }
    {
        self.serve_by(rt, hints, cycles, Pace::Unbroken)
    }

    /// The same, but that between two cycles it sleeps until one is wanted. Who calls it sees to it
    /// that the queue of the hints is told when all work on the heap is over (`end_work`).
    pub fn serve_on_demand<R: Wait>(&mut self, rt: &R, hints: &mut Hints<'_>, cycles: u32) -> u64
        requires idle { (control_of self.old).stage ≡ stage.Idle }
        requires cycles { (control_of self.old).cycles + cycles ≤ greatest_cycles }
        requires hints { hinted_of (queue_of hints.old) ≡ cells_of self.old }
        ensures served { (made : ℕ)
            × ((control_of self.new).cycles ≡ (control_of self.old).cycles + made)
            × Stretch (Served (mutators_of self.old) cycles made result) self.old self.new }
        ensures idle { (control_of self.new).stage ≡ stage.Idle }
        ensures off_duty { (control_of self.new).duty ≡ false }
        ensures queue { queue_of hints.new ≡ queue_of hints.old }
        ensures offered { OffersAll (freed_since self.old self.new) (counts_of hints.old) (counts_of hints.new) }
        ensures puts { (counts_of hints.new).puts ≡ (counts_of hints.old).puts + result }
    {
        self.serve_by(rt, hints, cycles, Pace::OnDemand)
    }

    /// Either of them.
    fn serve_by<R: Wait>(&mut self, rt: &R, hints: &mut Hints<'_>, cycles: u32, pace: Pace) -> u64
        requires idle { (control_of self.old).stage ≡ stage.Idle }
        requires cycles { (control_of self.old).cycles + cycles ≤ greatest_cycles }
        requires hints { hinted_of (queue_of hints.old) ≡ cells_of self.old }
        ensures served { (made : ℕ)
            × ((control_of self.new).cycles ≡ (control_of self.old).cycles + made)
            × Stretch (Served (mutators_of self.old) cycles made result) self.old self.new }
        ensures idle { (control_of self.new).stage ≡ stage.Idle }
        ensures off_duty { (control_of self.new).duty ≡ false }
        ensures queue { queue_of hints.new ≡ queue_of hints.old }
        ensures offered { OffersAll (freed_since self.old self.new) (counts_of hints.old) (counts_of hints.new) }
        ensures puts { (counts_of hints.new).puts ≡ (counts_of hints.old).puts + result }
    {
        let freed = self.cycles_of(rt, hints, cycles, pace);
        self.duty(false);
        freed
    }

    /// The cycles of it.
    fn cycles_of<R: Wait>(&mut self, rt: &R, hints: &mut Hints<'_>, cycles: u32, pace: Pace) -> u64
        requires idle { (control_of self.old).stage ≡ stage.Idle }
        requires cycles { (control_of self.old).cycles + cycles ≤ greatest_cycles }
        requires hints { hinted_of (queue_of hints.old) ≡ cells_of self.old }
        ensures made { (made : ℕ)
            × ((control_of self.new).cycles ≡ (control_of self.old).cycles + made)
            × Stretch (MadeCycles (mutators_of self.old) cycles made result) self.old self.new }
        ensures idle { (control_of self.new).stage ≡ stage.Idle }
        ensures queue { queue_of hints.new ≡ queue_of hints.old }
        ensures offered { OffersAll (freed_since self.old self.new) (counts_of hints.old) (counts_of hints.new) }
        ensures puts { (counts_of hints.new).puts ≡ (counts_of hints.old).puts + result }
    {
        let mut freed = 0;
        let mut rest = Rest::Unknown;
        for _made in 0..cycles {
            if is_done(rest) {
                return freed;
            }
            await_turn(rt, hints, rest, pace);
            let made = self.one_cycle(rt, hints);
            freed += made.report.freed;
            rest = next_rest(rest, made.over);
        }
        freed
    }
}
