//! The plain collector: what a collector takes next that goes over all cells in their order.
ghost use Rattle.cell_words.specs.declared.controls.Stage.{Stage};
ghost use Rattle.dlg_core.specs.Plain.{first_unanswered, next_plain_of, plain_handshake};
ghost use Rattle.dlg_core.specs.Plain.{plain_scan, plain_sweep, plain_trace, plain_work};
ghost use Rattle.std.specs.Prelude.{◌≡◌};

use crate::machine::Core;
use cell_words::Stage;
use cell_words::modes::requested;
use core_machine::{Event, Scanning, Sweeping};

impl Core {
    /// The next event of the plain collector. None where a mutator that is in has to answer first.
    pub fn next_plain(&self) -> Option<Event>
        ensures event { result ≡ next_plain_of self.now }
    {
        let stage = self.control().stage;
        match stage {
            Stage::Sync1 | Stage::Sync2 | Stage::Trace => match self.first_unanswered() {
                Some(m) => self.plain_handshake(m),
                None => Some(self.plain_work(stage)),
            },
            Stage::Idle | Stage::Clear | Stage::Sweep => Some(self.plain_work(stage)),
        }
    }

    fn first_unanswered(&self) -> Option<u32>
        ensures { result ≡ first_unanswered self.now.collector }
    {
        let machine = &self.machine;
        for m in 0..machine.mutators() {
            if !machine.has_answered(m) {
                return Some(m);
            }
        }
        None
    }

    // What the collector does about a mutator that has not answered.
    fn plain_handshake(&self, m: u32) -> Option<Event>
        ensures { result ≡ plain_handshake self.now m }
    {
        let presence = self.machine.presence(m);
        if presence.status == requested(self.control().stage) {
            Some(Event::Poll(m))
        } else if presence.inside {
            None
        } else {
            Some(Event::AnswerOut(m, presence.over))
        }
    }

    // The work of a stage, where no answer is waited for.
    fn plain_work(&self, stage: Stage) -> Event
        ensures { result ≡ plain_work self.now stage }
    {
        let machine = &self.machine;
        match stage {
            Stage::Idle => Event::Post(Stage::Sync1),
            Stage::Sync1 => Event::Post(Stage::Clear),
            Stage::Clear if machine.cursor() < machine.cells() => Event::ClearCell,
            Stage::Clear => Event::Post(Stage::Sync2),
            Stage::Sync2 if machine.is_anchor_marked() => Event::Post(Stage::Trace),
            Stage::Sync2 => Event::Anchor,
            Stage::Trace => self.plain_trace(),
            Stage::Sweep if machine.control().position == machine.cells() => Event::Post(
                Stage::Idle,
            ),
            Stage::Sweep => sweep_event(machine.sweep()),
        }
    }

    fn plain_trace(&self) -> Event
        ensures { result ≡ plain_trace self.now.collector self.now.cells self.now.collector.scan }
    {
        let machine = &self.machine;
        match machine.scan() {
            Some(scan) => scan_event(scan),
            None if machine.cursor() != machine.cells() => Event::See(machine.cursor()),
            None if machine.is_clean() => Event::Post(Stage::Sweep),
            None => Event::See(0),
        }
    }
}

fn scan_event(scan: Scanning) -> Event
    ensures { result ≡ plain_scan scan scan.child }
{
    match scan.child {
        Some(_) => Event::Shade,
        None if scan.next < 5 => Event::Scan,
        None => Event::Blacken,
    }
}

fn sweep_event(sweep: Sweeping) -> Event
    ensures { result ≡ plain_sweep sweep }
{
    match sweep {
        Sweeping::Fresh => Event::SweepLook,
        Sweeping::Wiping(count) if count < 6 => Event::Wipe,
        Sweeping::Wiping(_) => Event::Free,
        Sweeping::BlackFound => Event::Whiten,
        Sweeping::Done => Event::Advance,
    }
}
