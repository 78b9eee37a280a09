//! Sweeping: all cells in order, the white ones wiped and freed, the black ones made white. What
//! stands between two white cells is one call of the seat.
ghost use Rattle.std.specs.Prelude.{◌≡◌, ◌<◌, ◌≤◌, ◌+◌, ◌^◌};
ghost use Rattle.cell_words.specs.declared.controls.Stage.TheVariants as stage;
ghost use Rattle.collector.specs.Bound.{KeepsAnswers, cells_of, control_of, part_of};
ghost use Rattle.collector.specs.Counting.{Does, frees, nothing};
ghost use Rattle.collector.specs.Offering.{Offers, OffersAll, freed_since};
ghost use Rattle.core_machine.specs.declared.progress.Sweeping.TheVariants as sweeping;
ghost use Rattle.free_cells.specs.Hints.{cells_of as hinted_of, counts_of, queue_of};

use crate::collecting::Collector;
use free_cells::Hints;
use heap_rule::Keeping;
use std::sync::Wait;

impl<'a, P: Keeping> Collector<'a, P> {
    /// Offers the number of the cell that was just freed to whoever claims next; where there is no
    /// room it is left out.
    fn offer<R: Wait>(&self, rt: &R, hints: &mut Hints<'_>)
        requires freed { (part_of self.now).sweep ≡ sweeping.Done }
        requires hints { hinted_of (queue_of hints.old) ≡ cells_of self.now }
        requires there { (control_of self.now).position < cells_of self.now }
        ensures queue { queue_of hints.new ≡ queue_of hints.old }
        ensures offered { Offers (control_of self.now).position (counts_of hints.old) (counts_of hints.new) }
    {
        let cell = self.control().position;
        if hints.put(rt, cell) {
            return;
        }
    }

    /// Stores null in all six fields of the white cell at the position.
    pub(crate) fn wipe_all(&mut self)
        requires found { (part_of self.old).sweep ≡ sweeping.Wiping 0 }
        ensures does { Does nothing self.old self.new }
        ensures control { control_of self.new ≡ control_of self.old }
        ensures part { part_of self.new ≡ record (part_of self.old) { sweep = sweeping.Wiping 6 } }
    {
        for _field in 0..6usize {
            self.wipe_once();
        }
    }

    /// Wipes and frees the white cell at the position, and offers its number.
    fn free_cell<R: Wait>(&mut self, rt: &R, hints: &mut Hints<'_>)
        requires found { (part_of self.old).sweep ≡ sweeping.Wiping 0 }
        requires hints { hinted_of (queue_of hints.old) ≡ cells_of self.old }
        requires there { (control_of self.old).position < cells_of self.old }
        ensures does { Does (frees 1) self.old self.new }
        ensures control { control_of self.new ≡ control_of self.old }
        ensures done { (part_of self.new).sweep ≡ sweeping.Done }
        ensures kept { KeepsAnswers (part_of self.old) (part_of self.new) }
        ensures queue { queue_of hints.new ≡ queue_of hints.old }
        ensures offered { OffersAll (freed_since self.old self.new) (counts_of hints.old) (counts_of hints.new) }
        ensures puts { (counts_of hints.new).puts ≡ (counts_of hints.old).puts + 1 }
    {
        self.wipe_all();
        self.free_once();
        self.offer(rt, hints);
    }

    /// Frees the white cell at the position, offers its number, and goes on to the next.
    fn free_next<R: Wait>(&mut self, rt: &R, hints: &mut Hints<'_>)
        requires stage { (control_of self.old).stage ≡ stage.Sweep }
        requires found { (part_of self.old).sweep ≡ sweeping.Wiping 0 }
        requires hints { hinted_of (queue_of hints.old) ≡ cells_of self.old }
        requires there { (control_of self.old).position < cells_of self.old }
        ensures does { Does (frees 1) self.old self.new }
        ensures control { control_of self.new
            ≡ record (control_of self.old) { position = (control_of self.old).position + 1 } }
        ensures fresh { (part_of self.new).sweep ≡ sweeping.Fresh }
        ensures kept { KeepsAnswers (part_of self.old) (part_of self.new) }
        ensures queue { queue_of hints.new ≡ queue_of hints.old }
        ensures offered { OffersAll (freed_since self.old self.new) (counts_of hints.old) (counts_of hints.new) }
        ensures puts { (counts_of hints.new).puts ≡ (counts_of hints.old).puts + 1 }
    {
        self.free_cell(rt, hints);
        self.advance_once();
    }

    /// Sweeps all cells. It gives how many were freed.
    pub(crate) fn sweep_all<R: Wait>(&mut self, rt: &R, hints: &mut Hints<'_>) -> u64
        requires stage { (control_of self.old).stage ≡ stage.Sweep }
        requires first { (control_of self.old).position ≡ 0 }
        requires fresh { (part_of self.old).sweep ≡ sweeping.Fresh }
        requires hints { hinted_of (queue_of hints.old) ≡ cells_of self.old }
        ensures does { Does (frees result) self.old self.new }
        ensures few { result < 2 ^ 32 }
        ensures control { control_of self.new
            ≡ record (control_of self.old) { position = cells_of self.old } }
        ensures fresh { (part_of self.new).sweep ≡ sweeping.Fresh }
        ensures kept { KeepsAnswers (part_of self.old) (part_of self.new) }
        ensures queue { queue_of hints.new ≡ queue_of hints.old }
        ensures offered { OffersAll (freed_since self.old self.new) (counts_of hints.old) (counts_of hints.new) }
        ensures puts { (counts_of hints.new).puts ≡ (counts_of hints.old).puts + result }
    {
        let mut freed = 0;
        for _white in 0..self.cells() {
            match self.sweep_on() {
                None => return freed,
                Some(_) => {
                    self.free_next(rt, hints);
                    freed += 1;
                }
            }
        }
        freed
    }
}
