//! Tracing by a bounded number of looks, each at one cell. The runs of `tracing` look at as many
//! cells as come before a gray one, which may be all of them.
ghost use Rattle.std.specs.Prelude.{◌≡◌, ◌<◌, ◌≤◌, ◌^◌, None, false};
ghost use Rattle.cell_words.specs.declared.controls.Stage.TheVariants as stage;
ghost use Rattle.collector.specs.Bound.{HaveAnswered, KeepsTracing, cells_of, control_of, part_of};
ghost use Rattle.collector.specs.Counting.{CountsOn, Does, TracesAtMost, is_traced};
ghost use Rattle.collector.specs.Looking.{counted, scan_of};

use crate::collecting::Collector;
use crate::report::CycleReport;
use crate::tracing::{Looked, is_last};
use cell_words::Colour;
use heap_rule::Keeping;

/// How many looks a move of tracing makes at most.
const LOOKS: u32 = 64;

impl<'a, P: Keeping> Collector<'a, P> {
    /// Looks at the next cell: the one on top of the stack, or the one that the pass has come to.
    fn look_once(&mut self) -> Looked
        requires stage { (control_of self.old).stage ≡ stage.Trace }
        requires answered { HaveAnswered self.old }
        requires some { 0 < cells_of self.old }
        requires within { (part_of self.old).cursor ≤ cells_of self.old }
        requires more { is_traced self.old ≡ false }
        requires scan { (part_of self.old).scan ≡ None }
        ensures does { Does (counted result) self.old self.new }
        ensures control { control_of self.new ≡ control_of self.old }
        ensures kept { KeepsTracing (part_of self.old) (part_of self.new) }
        ensures scan { (part_of self.new).scan ≡ scan_of result }
        ensures within { (part_of self.new).cursor ≤ cells_of self.new }
    {
        let at = self.at();
        let cell = self.next_besides(at);
        let ends = is_last(at, cell, self.cells());
        match self.see_once(cell) {
            Colour::Blue => Looked::Other(ends),
            Colour::White => Looked::Other(ends),
            Colour::Black => Looked::Other(ends),
            Colour::Gray => Looked::Gray(cell),
        }
    }

    /// Looks at the next cell, scans it where it is gray, and counts that with what was traced so
    /// far.
    fn trace_once(&mut self, so_far: CycleReport) -> CycleReport
        requires stage { (control_of self.old).stage ≡ stage.Trace }
        requires answered { HaveAnswered self.old }
        requires some { 0 < cells_of self.old }
        requires within { (part_of self.old).cursor ≤ cells_of self.old }
        requires more { is_traced self.old ≡ false }
        requires scan { (part_of self.old).scan ≡ None }
        requires few { TracesAtMost (2 ^ 62) so_far }
        ensures counts { CountsOn 6 so_far result self.old self.new }
        ensures control { control_of self.new ≡ control_of self.old }
        ensures kept { KeepsTracing (part_of self.old) (part_of self.new) }
        ensures scan { (part_of self.new).scan ≡ None }
        ensures within { (part_of self.new).cursor ≤ cells_of self.new }
    {
        match self.look_once() {
            Looked::Gray(cell) => {
                let more = self.scan_cell(cell);
                so_far.with(more)
            }
            Looked::Other(ends) => so_far.passed(ends),
        }
    }

    /// Makes some looks, and scans what is gray; fewer where a pass meets no gray cell.
    pub(crate) fn trace_some(&mut self) -> CycleReport
        requires some { 0 < cells_of self.old }
        requires stage { (control_of self.old).stage ≡ stage.Trace }
        requires answered { HaveAnswered self.old }
        requires within { (part_of self.old).cursor ≤ cells_of self.old }
        requires scan { (part_of self.old).scan ≡ None }
        ensures does { Does result self.old self.new }
        ensures few { TracesAtMost (2 ^ 62) result }
        ensures control { control_of self.new ≡ control_of self.old }
        ensures kept { KeepsTracing (part_of self.old) (part_of self.new) }
        ensures scan { (part_of self.new).scan ≡ None }
        ensures within { (part_of self.new).cursor ≤ cells_of self.new }
    {
        let mut report = CycleReport::nothing();
        for _turn in 0..LOOKS {
            if self.is_traced() {
                return report;
            }
            report = self.trace_once(report);
        }
        report
    }
}
