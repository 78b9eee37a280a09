//! Clearing: all cells in order, the black ones made white.
ghost use Rattle.std.specs.Prelude.{◌≡◌};
ghost use Rattle.cell_words.specs.declared.controls.Stage.TheVariants as stage;
ghost use Rattle.collector.specs.Bound.{cells_of, control_of, part_of};
ghost use Rattle.collector.specs.Counting.{Does, nothing};

use crate::collecting::Collector;
use heap_rule::Keeping;

impl<'a, P: Keeping> Collector<'a, P> {
    /// Makes every cell that it finds black white.
    pub(crate) fn clear_all(&mut self)
        requires stage { (control_of self.old).stage ≡ stage.Clear }
        requires first { (part_of self.old).cursor ≡ 0 }
        ensures does { Does nothing self.old self.new }
        ensures control { control_of self.new ≡ control_of self.old }
        ensures part { part_of self.new ≡ record (part_of self.old) { cursor = cells_of self.old } }
    {
        self.seat.clear_on(self.heap);
    }
}
