//! Tracing: passes over all cells, until one meets no gray cell.
//!
//! A child that was shaded is pushed on the mark stack and looked at next. So a pass goes on only
//! where the stack is empty; and it still goes over all cells, since a child that found the stack
//! full, or was shaded by a mutator, stands in no stack.
ghost use Rattle.std.specs.Prelude.{◌≡◌, ◌<◌, ◌≤◌, ◌+◌, ◌*◌, ◌^◌, ◌==◌, ◌&&◌, Some, None, true};
ghost use Rattle.std.specs.Prelude.{[], IfSome, false, nat_lt};
ghost use Rattle.cell_heap.specs.Scans.{AreBelow};
ghost use Rattle.cell_words.specs.declared.controls.Stage.TheVariants as stage;
ghost use Rattle.collector.specs.Bound.{HaveAnswered, KeepsTracing, cells_of, control_of};
ghost use Rattle.collector.specs.Bound.{part_of, scan_at};
ghost use Rattle.collector.specs.Counting.{CountsOn, Does, TracesAtMost, is_traced, nothing};
ghost use Rattle.collector.specs.Looking.{counted, scan_of};
ghost use Rattle.collector.specs.Pushes.{all_pushed, child_pushed, with_all, with_child};
ghost use Rattle.collector.specs.Stack.{is_empty};
ghost use Rattle.core_machine.specs.Collector.{restarted};

use crate::asking::both;
use crate::collecting::Collector;
use crate::report::CycleReport;
use cell_words::Colour;
use heap_rule::Keeping;
use std::sync::Wait;
use std::thread;

/// No cycle makes so many looks. The counts fit their words by this bound; after it the collector
/// would wait for ever.
const TURNS: u64 = 1 << 58;

/// What a look at a cell found.
#[derive(Clone, Copy)]
pub(crate) enum Looked {
    /// the cell is gray, and under scan from then on
    Gray(u32),
    /// it is not, and the pass ended with it or did not
    Other(bool),
}

/// Whether the pass has come to the cell, and this is the last one.
pub(crate) fn is_last(at: u32, cell: u32, cells: u32) -> bool
    requires cell { cell < cells }
    ensures last { result ≡ ((cell == at) && (cell + 1 == cells)) }
{
    cell == at && cell + 1 == cells
}

impl<'a, P: Keeping> Collector<'a, P> {
    /// Puts a child on the stack, where there is one, and counts it along with what was traced so
    /// far.
    fn push_child(&mut self, child: Option<u32>, so_far: CycleReport) -> CycleReport
        requires below { IfSome child (λ c. c < cells_of self.old) }
        requires few { TracesAtMost (2 ^ 62) so_far }
        ensures report { result ≡ with_child so_far child self.old.stack }
        ensures pushed { self.new
            ≡ record self.old { stack = child_pushed child self.old.stack } }
    {
        match child {
            None => so_far,
            Some(child) => {
                let pushed = self.push(child);
                so_far.shaded(pushed)
            }
        }
    }

    /// Puts the children of a cell on the stack, one after the other, and counts them.
    fn push_all(&mut self, children: [Option<u32>; 5]) -> CycleReport
        requires below { AreBelow (cells_of self.old) children }
        ensures report { result ≡ with_all nothing children self.old.stack }
        ensures few { TracesAtMost 5 result }
        ensures pushed { self.new ≡ record self.old { stack = all_pushed children self.old.stack } }
    {
        let mut report = CycleReport::nothing();
        for child in children {
            report = self.push_child(child, report);
        }
        report
    }

    /// Scans a cell that was found gray, makes it black, and pushes its children.
    pub(crate) fn scan_cell(&mut self, cell: u32) -> CycleReport
        requires scan { (part_of self.old).scan ≡ Some (scan_at cell 0) }
        ensures does { Does result self.old self.new }
        ensures few { TracesAtMost 6 result }
        ensures control { control_of self.new ≡ control_of self.old }
        ensures part { part_of self.new ≡ record (part_of self.old) { scan = None } }
    {
        let children = self.scan_on(cell);
        let report = self.push_all(children);
        report.scanned()
    }

    /// The cell that the pass has come to, where another one is owed: the first one again after a
    /// pass that met gray.
    pub(crate) fn at(&self) -> u32
        requires some { 0 < cells_of self.now }
        requires within { (part_of self.now).cursor ≤ cells_of self.now }
        requires more { is_traced self.now ≡ false }
        ensures at { result ≡ (restarted (part_of self.now) (cells_of self.now)).cursor }
        ensures cell { result < cells_of self.now }
    {
        let cursor = self.cursor();
        if cursor < self.cells() { cursor } else { 0 }
    }

    /// Whether the pass goes on: no cell waits on the stack, and it has not come to the end.
    fn goes_on(&self) -> bool
        ensures goes { result ≡ (is_empty self.now.stack.cells
            && nat_lt (part_of self.now).cursor (cells_of self.now)) }
    {
        let waits_none = self.is_stack_empty();
        let further = self.cursor() < self.cells();
        both(waits_none, further)
    }

    /// Looks at the cells that the pass comes to, up to a gray one, or to the end of the pass.
    fn look_on(&mut self) -> Looked
        requires stage { (control_of self.old).stage ≡ stage.Trace }
        requires answered { HaveAnswered self.old }
        requires empty { self.old.stack.cells ≡ [] }
        requires there { (part_of self.old).cursor < cells_of self.old }
        requires scan { (part_of self.old).scan ≡ None }
        ensures does { Does (counted result) self.old self.new }
        ensures control { control_of self.new ≡ control_of self.old }
        ensures kept { KeepsTracing (part_of self.old) (part_of self.new) }
        ensures scan { (part_of self.new).scan ≡ scan_of result }
        ensures within { (part_of self.new).cursor ≤ cells_of self.new }
    {
        match self.see_on() {
            Some(cell) => Looked::Gray(cell),
            None => Looked::Other(true),
        }
    }

    /// Looks at the next cell: the one on top of the stack, or the one that the pass has come to;
    /// and where nothing waits, at those after it too, up to a gray one.
    fn look_next(&mut self) -> Looked
        requires stage { (control_of self.old).stage ≡ stage.Trace }
        requires answered { HaveAnswered self.old }
        requires some { 0 < cells_of self.old }
        requires within { (part_of self.old).cursor ≤ cells_of self.old }
        requires more { is_traced self.old ≡ false }
        requires scan { (part_of self.old).scan ≡ None }
        ensures does { Does (counted result) self.old self.new }
        ensures control { control_of self.new ≡ control_of self.old }
        ensures kept { KeepsTracing (part_of self.old) (part_of self.new) }
        ensures scan { (part_of self.new).scan ≡ scan_of result }
        ensures within { (part_of self.new).cursor ≤ cells_of self.new }
    {
        if self.goes_on() {
            return self.look_on();
        }
        let at = self.at();
        let cell = self.next_besides(at);
        let ends = is_last(at, cell, self.cells());
        match self.see_once(cell) {
            Colour::Blue => Looked::Other(ends),
            Colour::White => Looked::Other(ends),
            Colour::Black => Looked::Other(ends),
            Colour::Gray => Looked::Gray(cell),
        }
    }

    /// Looks at the next cell, scans it where it is gray, and counts that along with what was
    /// traced so far.
    pub(crate) fn trace_next(&mut self, so_far: CycleReport) -> CycleReport
        requires stage { (control_of self.old).stage ≡ stage.Trace }
        requires answered { HaveAnswered self.old }
        requires some { 0 < cells_of self.old }
        requires within { (part_of self.old).cursor ≤ cells_of self.old }
        requires more { is_traced self.old ≡ false }
        requires scan { (part_of self.old).scan ≡ None }
        requires few { TracesAtMost (2 ^ 62) so_far }
        ensures counts { CountsOn 6 so_far result self.old self.new }
        ensures control { control_of self.new ≡ control_of self.old }
        ensures kept { KeepsTracing (part_of self.old) (part_of self.new) }
        ensures scan { (part_of self.new).scan ≡ None }
        ensures within { (part_of self.new).cursor ≤ cells_of self.new }
    {
        match self.look_next() {
            Looked::Gray(cell) => {
                let more = self.scan_cell(cell);
                so_far.with(more)
            }
            Looked::Other(ends) => so_far.passed(ends),
        }
    }

    /// Whether a pass has come to the end and met no gray cell.
    pub(crate) fn is_traced(&self) -> bool
        ensures traced { result ≡ is_traced self.now }
    {
        self.cursor() == self.cells() && self.is_clean()
    }

    /// Traces until a pass meets no gray cell.
    pub(crate) fn trace_all<R: Wait>(&mut self, rt: &R) -> CycleReport
        requires some { 0 < cells_of self.old }
        requires stage { (control_of self.old).stage ≡ stage.Trace }
        requires answered { HaveAnswered self.old }
        requires first { (part_of self.old).cursor ≡ 0 }
        requires scan { (part_of self.old).scan ≡ None }
        ensures does { Does result self.old self.new }
        ensures few { TracesAtMost (2 ^ 62) result }
        ensures control { control_of self.new ≡ control_of self.old }
        ensures kept { KeepsTracing (part_of self.old) (part_of self.new) }
        ensures scan { (part_of self.new).scan ≡ None }
        ensures traced { is_traced self.new ≡ true }
    {
        let mut report = CycleReport::nothing();
        for _turn in 0..TURNS {
            if self.is_traced() {
                return report;
            }
            report = self.trace_next(report);
        }
        for _ in rt.forever() {
            thread::yield_now();
        }
        unreachable!()
    }
}
