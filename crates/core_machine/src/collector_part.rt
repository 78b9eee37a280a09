//! The collector's own part: the handshake's answers, how far clearing, tracing and the sweep are,
//! and the counts of freed cells.
ghost use Rattle.core_machine.specs.Collector.{answered_by, freed, nobody_answered, passed, posted};
ghost use Rattle.core_machine.specs.Collector.{restarted, seen};
ghost use Rattle.core_machine.specs.State.{opening_collector};
ghost use Rattle.std.specs.List.{list_all};
ghost use Rattle.std.specs.Prelude.{IfOk, length, slice_index, slice_index_or, true, ◌+◌, ◌<◌, ◌≡◌};
ghost use Rattle.std.specs.Prelude.{◌^◌};

use crate::NoMemory;
use crate::progress::{Scanning, Sweeping};
use cell_words::{Colour, Stage};
use std::alloc::Global;
use std::marker::Model;

/// What the collector knows and no word of the heap shows.
#[derive(Drop)]
pub struct CollectorPart {
    answered: Vec<bool>,
    anchor_marked: bool,
    cursor: u32,
    clean: bool,
    scan: Option<Scanning>,
    sweep: Sweeping,
    times_freed: Vec<u64>,
    number_freed: u64,
}

impl Model for CollectorPart {
    ghost use Rattle.core_machine.specs.Collector.{Collector};

    ghost Value = { Collector };

    ghost view = { λ c. record {
      answered = c.answered.items;
      anchor_marked = c.anchor_marked;
      cursor = c.cursor;
      clean = c.clean;
      scan = c.scan;
      sweep = c.sweep;
      times_freed = c.times_freed.items;
      number_freed = c.number_freed;
    } };
}

impl CollectorPart {
    pub(crate) fn new(alloc: Global, cells: u32, mutators: u32) -> Result<CollectorPart, NoMemory>
        ensures collector { IfOk result (λ c. c ≡ opening_collector cells mutators) }
    {
        let answered = vec![in alloc; false; mutators as usize]?;
        let times_freed = vec![in alloc; 0; cells as usize]?;
        Ok(CollectorPart {
            answered,
            anchor_marked: false,
            cursor: 0,
            clean: false,
            scan: None,
            sweep: Sweeping::Fresh,
            times_freed,
            number_freed: 0,
        })
    }

    pub(crate) fn all_answered(&self) -> bool
        ensures answered { result ≡ list_all (λ answered. answered) self.now.answered }
    {
        are_all(&self.answered)
    }

    /// Whether mutator `i` has answered; of a mutator that there is not it is true.
    pub(crate) fn has_answered(&self, i: usize) -> bool
        ensures answered { result ≡ slice_index_or self.now.answered i true }
    {
        if i < self.answered.len() {
            self.answered[i]
        } else {
            true
        }
    }

    pub(crate) fn anchor_marked(&self) -> bool
        ensures marked { result ≡ self.now.anchor_marked }
    {
        self.anchor_marked
    }

    pub(crate) fn cursor(&self) -> u32
        ensures cursor { result ≡ self.now.cursor }
    {
        self.cursor
    }

    pub(crate) fn is_clean(&self) -> bool
        ensures clean { result ≡ self.now.clean }
    {
        self.clean
    }

    pub(crate) fn scan(&self) -> Option<Scanning>
        ensures scan { result ≡ self.now.scan }
    {
        self.scan
    }

    pub(crate) fn sweep(&self) -> Sweeping
        ensures sweep { result ≡ self.now.sweep }
    {
        self.sweep
    }

    pub(crate) fn times_freed(&self, cell: usize) -> u64
        requires { cell < length self.now.times_freed }
        ensures times { result ≡ slice_index self.now.times_freed cell }
    {
        self.times_freed[cell]
    }

    pub(crate) fn number_freed(&self) -> u64
        ensures number { result ≡ self.now.number_freed }
    {
        self.number_freed
    }

    pub(crate) fn post(&mut self, target: Stage)
        ensures collector { self.new ≡ posted self.old target }
    {
        match target {
            Stage::Idle => {}
            Stage::Sync1 => forget_answers(&mut self.answered),
            Stage::Clear => self.cursor = 0,
            Stage::Sync2 => {
                forget_answers(&mut self.answered);
                self.anchor_marked = false;
            }
            Stage::Trace => {
                forget_answers(&mut self.answered);
                self.cursor = 0;
                self.clean = true;
            }
            Stage::Sweep => self.sweep = Sweeping::Fresh,
        }
    }

    /// Counts mutator `i` as having answered, where the test is true.
    pub(crate) fn answer(&mut self, i: usize, is_answer: bool)
        requires { i < length self.old.answered }
        ensures collector { self.new ≡ answered_by self.old i is_answer }
    {
        if is_answer {
            self.answered[i] = true;
        }
    }

    pub(crate) fn mark_anchor(&mut self)
        ensures collector { self.new ≡ record self.old { anchor_marked = true } }
    {
        self.anchor_marked = true;
    }

    /// Goes on by one cell.
    pub(crate) fn advance(&mut self)
        requires { self.old.cursor + 1 < 2 ^ 32 }
        ensures collector { self.new ≡ record self.old { cursor = self.old.cursor + 1 } }
    {
        self.cursor += 1;
    }

    /// The look at a cell of a pass: a gray one is scanned, and at any other the pass goes on.
    pub(crate) fn see(&mut self, cells: u32, cell: u32, found: Colour)
        requires { cell + 1 < 2 ^ 32 }
        ensures collector { self.new ≡ seen (restarted self.old cells) cell found }
    {
        self.restart(cells);
        match found {
            Colour::Gray => {
                self.clean = false;
                self.scan = Some(Scanning {
                    cell,
                    next: 0,
                    child: None,
                });
            }
            Colour::Blue | Colour::White | Colour::Black => self.pass(cell),
        }
    }

    /// Starts a pass over that met gray and came to the end.
    fn restart(&mut self, cells: u32)
        ensures collector { self.new ≡ restarted self.old cells }
    {
        if self.cursor == cells && !self.clean {
            self.cursor = 0;
            self.clean = true;
        }
    }

    fn pass(&mut self, cell: u32)
        requires { cell + 1 < 2 ^ 32 }
        ensures collector { self.new ≡ passed self.old cell }
    {
        if cell == self.cursor {
            self.cursor += 1;
        }
    }

    pub(crate) fn set_scan(&mut self, scan: Option<Scanning>)
        ensures collector { self.new ≡ record self.old { scan = scan } }
    {
        self.scan = scan;
    }

    pub(crate) fn set_sweep(&mut self, sweep: Sweeping)
        ensures collector { self.new ≡ record self.old { sweep = sweep } }
    {
        self.sweep = sweep;
    }

    /// Counts a cell as freed.
    pub(crate) fn free(&mut self, cell: usize)
        requires cell { cell < length self.old.times_freed }
        requires times { slice_index self.old.times_freed cell + 1 < 2 ^ 64 }
        requires number { self.old.number_freed + 1 < 2 ^ 64 }
        ensures collector { self.new ≡ freed self.old cell }
    {
        self.sweep = Sweeping::Done;
        self.times_freed[cell] += 1;
        self.number_freed += 1;
    }
}

fn are_all(answered: &[bool]) -> bool
    ensures all { result ≡ list_all (λ answered. answered) answered.now }
{
    answered.iter().all(|answered| *answered)
}

fn forget_answers(answered: &mut [bool])
    ensures answered { answered.new ≡ nobody_answered answered.old }
{
    for answer in answered.iter_mut() {
        *answer = false;
    }
}
