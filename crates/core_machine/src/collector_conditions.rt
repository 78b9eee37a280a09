//! When the events of the collector can happen. Each test is one of specs/Handshakes,
//! specs/Tracing or specs/Sweep.
ghost use Rattle.core_machine.specs.Handshakes.{answer_out_can, at_end, at_stage, is_mutator};
ghost use Rattle.core_machine.specs.Handshakes.{poll_can, post_can};
ghost use Rattle.core_machine.specs.Sweep.{advance_can, is_black_found, is_done, is_fresh};
ghost use Rattle.core_machine.specs.Sweep.{may_free, may_wipe, sweep_look_can};
ghost use Rattle.core_machine.specs.Tracing.{anchor_can, clear_can, may_blacken, may_scan, see_can};
ghost use Rattle.core_machine.specs.InRange.{InRange};
ghost use Rattle.cell_words.specs.declared.controls.Stage.TheVariants as stage;
ghost use Rattle.std.specs.Prelude.{◌≡◌};

use crate::machine::Machine;
use crate::progress::{Scanning, Sweeping};
use crate::words::{is_gray, is_handshake, same_stage};
use cell_words::{GREATEST_CYCLES, Stage};

impl Machine {
    pub(crate) fn at_stage(&self, wanted: Stage) -> bool
        ensures stage { result ≡ at_stage self.now wanted }
    {
        same_stage(self.control.stage, wanted)
    }

    fn at_end(&self) -> bool
        ensures end { result ≡ at_end self.now }
    {
        self.cursor() == self.cells
    }

    fn is_mutator(&self, i: u32) -> bool
        ensures mutator { result ≡ is_mutator self.now i }
    {
        i < self.mutators
    }

    pub(crate) fn post_can(&self, target: Stage) -> bool
        ensures can { result ≡ post_can self.now target }
    {
        match target {
            Stage::Idle => self.at_stage(Stage::Sweep) && self.control.position == self.cells,
            Stage::Sync1 => self.at_stage(Stage::Idle) && self.control.cycles < GREATEST_CYCLES,
            Stage::Clear => self.at_stage(Stage::Sync1) && self.all_answered(),
            Stage::Sync2 => self.at_stage(Stage::Clear) && self.at_end(),
            Stage::Trace => self.post_trace_can(),
            Stage::Sweep => self.post_sweep_can(),
        }
    }

    fn post_trace_can(&self) -> bool
        ensures can { result ≡ post_can self.now stage.Trace }
    {
        self.at_stage(Stage::Sync2) && self.all_answered() && self.is_anchor_marked()
    }

    fn post_sweep_can(&self) -> bool
        ensures can { result ≡ post_can self.now stage.Sweep }
    {
        self.at_stage(Stage::Trace)
            && self.all_answered()
            && self.scan().is_none()
            && self.at_end()
            && self.is_clean()
    }

    pub(crate) fn poll_can(&self, i: u32) -> bool
        ensures can { result ≡ poll_can self.now i }
    {
        is_handshake(self.control.stage) && self.is_mutator(i)
    }

    pub(crate) fn answer_out_can(&self, i: u32) -> bool
        ensures can { result ≡ answer_out_can self.now i }
    {
        is_handshake(self.control.stage) && self.is_mutator(i) && !self.has_answered(i)
    }

    pub(crate) fn clear_can(&self) -> bool
        ensures can { result ≡ clear_can self.now }
    {
        self.at_stage(Stage::Clear) && self.cursor() < self.cells
    }

    pub(crate) fn anchor_can(&self) -> bool
        ensures can { result ≡ anchor_can self.now }
    {
        self.at_stage(Stage::Sync2) && self.all_answered()
    }

    pub(crate) fn see_can(&self, cell: u32) -> bool
        ensures can { result ≡ see_can self.now cell }
    {
        self.at_stage(Stage::Trace)
            && self.all_answered()
            && self.scan().is_none()
            && cell < self.cells
    }

    pub(crate) fn sweep_look_can(&self) -> bool
        requires { InRange self.now }
        ensures can { result ≡ sweep_look_can self.now }
    {
        self.at_stage(Stage::Sweep)
            && self.control.position < self.cells
            && is_fresh(self.sweep())
            && !is_gray(self.colour(self.control.position))
    }

    pub(crate) fn advance_can(&self) -> bool
        ensures can { result ≡ advance_can self.now }
    {
        self.at_stage(Stage::Sweep) && self.control.position < self.cells && is_done(self.sweep())
    }
}

pub(crate) fn may_scan(scan: Option<Scanning>) -> bool
    ensures may { result ≡ may_scan scan }
{
    match scan {
        None => false,
        Some(scan) => scan.next < 5 && scan.child.is_none(),
    }
}

pub(crate) fn may_blacken(scan: Option<Scanning>) -> bool
    ensures may { result ≡ may_blacken scan }
{
    match scan {
        None => false,
        Some(scan) => scan.next == 5,
    }
}

fn is_fresh(sweep: Sweeping) -> bool
    ensures fresh { result ≡ is_fresh sweep }
{
    match sweep {
        Sweeping::Fresh => true,
        Sweeping::Wiping(_) | Sweeping::BlackFound | Sweeping::Done => false,
    }
}

pub(crate) fn may_wipe(sweep: Sweeping) -> bool
    ensures may { result ≡ may_wipe sweep }
{
    match sweep {
        Sweeping::Wiping(wiped) => wiped < 6,
        Sweeping::Fresh | Sweeping::BlackFound | Sweeping::Done => false,
    }
}

pub(crate) fn may_free(sweep: Sweeping) -> bool
    ensures may { result ≡ may_free sweep }
{
    match sweep {
        Sweeping::Wiping(wiped) => wiped == 6,
        Sweeping::Fresh | Sweeping::BlackFound | Sweeping::Done => false,
    }
}

pub(crate) fn is_black_found(sweep: Sweeping) -> bool
    ensures black { result ≡ is_black_found sweep }
{
    match sweep {
        Sweeping::BlackFound => true,
        Sweeping::Fresh | Sweeping::Wiping(_) | Sweeping::Done => false,
    }
}

fn is_done(sweep: Sweeping) -> bool
    ensures done { result ≡ is_done sweep }
{
    match sweep {
        Sweeping::Done => true,
        Sweeping::Fresh | Sweeping::Wiping(_) | Sweeping::BlackFound => false,
    }
}
