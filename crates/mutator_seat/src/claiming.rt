//! Claiming a cell: hints first, then every cell; and waiting for the collector.
//!
//! While it waits it answers handshakes, for a cycle cannot end without its answers. It pauses
//! where the queue gave no hint, and nowhere else: on one processor a pause is a third of a cycle.
//! Nor does it walk over all cells at each of its turns, which would take as long as the heap is
//! large: it does so where its patience is over, and where a look decides.
ghost use Rattle.std.specs.Prelude.{◌≡◌, ◌<◌, ◌≤◌, ◌+◌, ◌∷◌, [], None, true, not};
ghost use Rattle.std.specs.Prelude.{IfErr, IfNone, IfOk, IfSome, length};
ghost use Rattle.free_cells.specs.Hints.{cells_of, counts_of, queue_of};
ghost use Rattle.mutator_seat.specs.Bound.{IsBound, bound};
ghost use Rattle.mutator_seat.specs.Claims.{Claimed, Ends, FullBehind, HasMode, Seeking};
ghost use Rattle.mutator_seat.specs.Claims.{TriedFirst};
ghost use Rattle.mutator_seat.specs.Pacing.{Paces, Prompt};
ghost use Rattle.mutator_seat.specs.Searches.{Searches, Tries, TriesFor, Walks, patience_after};
ghost use Rattle.mutator_seat.specs.Searches.{tries_for};
ghost use Rattle.mutator_seat.specs.Stretches.{Calm};
ghost use Rattle.mutator_seat.specs.Takes.{Gives, after_take};
ghost use Rattle.trails.specs.Claims.{AllUsed, FindsFull, begun_of, decides};

use crate::full::HeapFull;
use crate::looking::{answer, look_once};
use crate::mutator::Mutator;
use cell_words::{Control, Stage};
use free_cells::Hints;
use heap_rule::Keeping;
use heap_table::CellHeap;
use mutator_events::MutSeat;
use std::sync::Wait;
use thread_waits::{offer, wait};

/// How many takes of a claim find no hint until it tries every cell.
const PATIENCE: u32 = 1000;

/// The cycles that are ended or under way.
pub fn begun(control: Control) -> u32
    requires few { control.cycles ≤ 4000000000 }
    ensures begun { result ≡ begun_of control }
    ensures few { result ≤ 4000000001 }
{
    let ended = control.cycles;
    match control.stage {
        Stage::Idle => ended,
        Stage::Sync1 => ended + 1,
        Stage::Clear => ended + 1,
        Stage::Sync2 => ended + 1,
        Stage::Trace => ended + 1,
        Stage::Sweep => ended + 1,
    }
}

/// Whether waiting is of no more use: the collector is off duty, or two whole cycles began and
/// ended since so many were begun.
pub fn decides(began: u32, control: Control) -> bool
    requires few { began ≤ 4000000001 }
    ensures decides { result ≡ decides began control }
{
    !control.duty || began + 2 <= control.cycles
}

/// Takes one hint, if there is one.
fn take_hint<R: Wait>(rt: &R, hints: &mut Hints<'_>) -> Option<u32>
    ensures gives { Gives (cells_of (queue_of hints.old)) (counts_of hints.old) result }
    ensures counts { counts_of hints.new ≡ after_take (counts_of hints.old) result }
    ensures queue { queue_of hints.new ≡ queue_of hints.old }
    ensures takes { (counts_of hints.new).takes ≡ (counts_of hints.old).takes + 1 }
{
    hints.take(rt)
}

/// How many more takes without a hint it waits for after this one.
fn patience_after(patience: u32, hint: Option<u32>) -> u32
    ensures patience { result ≡ patience_after patience hint }
{
    match hint {
        Some(_) => patience,
        None => patience.saturating_sub(1),
    }
}

/// Waits a while, and lets other threads run.
fn pause() {
    wait();
    offer();
}

impl<'a, P: Keeping> Mutator<'a, P> {
    /// Takes a free cell: raw, with null fields, at the next place. Hints are tried first, also
    /// those that come in while it waits; and every cell once, where a thousand takes found no
    /// hint. While the collector is on duty it waits, and answers handshakes, until two whole
    /// cycles have begun and ended within the call; then every cell is tried once more.
    pub fn claim<R: Wait>(&mut self, rt: &R, hints: &mut Hints<'_>) -> Result<usize, HeapFull>
        requires inside { self.old.seat.me.presence.inside ≡ true }
        requires room { length self.old.seat.me.own.held < self.old.seat.me.room }
        ensures got { IfOk result (λ place. Claimed self.old place self.new) }
        ensures full { IfErr result (λ full.
            Calm (FindsFull self.old.seat.me.number self.old.seat.me.shape.cells
            full.off_duty full.began full.ended) self.old self.new) }
        ensures seeking { IfErr result (λ full. Calm Seeking self.old self.new) }
        ensures search { Searches 1000 [] hints.old hints.new self.old self.new }
        ensures queue { queue_of hints.new ≡ queue_of hints.old }
        ensures takes { (counts_of hints.old).takes < (counts_of hints.new).takes }
        ensures prompt { Prompt self.old self.new }
    {
        let first = take_hint(rt, hints);
        hints.tell_demand(rt);
        self.claim_hinted(rt, hints, first)
    }

    /// The same with a first hint that was taken before, if there was one. Who needs many cells
    /// takes their hints in one go, for threads that take by turns wait for each other at the
    /// queue.
    pub fn claim_hinted<R: Wait>(
        &mut self,
        rt: &R,
        hints: &mut Hints<'_>,
        hint: Option<u32>,
    ) -> Result<usize, HeapFull>
        requires inside { self.old.seat.me.presence.inside ≡ true }
        requires room { length self.old.seat.me.own.held < self.old.seat.me.room }
        ensures got { IfOk result (λ place. Claimed self.old place self.new) }
        ensures full { IfErr result (λ full.
            Calm (FindsFull self.old.seat.me.number self.old.seat.me.shape.cells
            full.off_duty full.began full.ended) self.old self.new) }
        ensures seeking { IfErr result (λ full. Calm Seeking self.old self.new) }
        ensures tries { IfSome hint (λ cell. cell < self.old.seat.me.shape.cells
            → TriedFirst cell self.old self.new) }
        ensures search { Searches 1000 (hint ∷ []) hints.old hints.new self.old self.new }
        ensures queue { queue_of hints.new ≡ queue_of hints.old }
        ensures takes { (counts_of hints.old).takes ≤ (counts_of hints.new).takes }
        ensures prompt { Prompt self.old self.new }
    {
        let first = self.look_once();
        let began = begun(first);
        match self.try_hinted(hint) {
            Some(place) => Ok(place),
            None => self.wait_for_cell(rt, hints, began, patience_after(PATIENCE, hint)),
        }
    }

    /// Answers handshakes and tries again, until it has a cell or a look decides.
    fn wait_for_cell<R: Wait>(
        &mut self,
        rt: &R,
        hints: &mut Hints<'_>,
        began: u32,
        first: u32,
    ) -> Result<usize, HeapFull>
        requires inside { self.old.seat.me.presence.inside ≡ true }
        requires room { length self.old.seat.me.own.held < self.old.seat.me.room }
        requires few { began ≤ 4000000001 }
        ensures got { IfOk result (λ place. Claimed self.old place self.new) }
        ensures full { IfErr result (λ full.
            Calm (FullBehind self.old.seat.me.number self.old.seat.me.shape.cells
            began full) self.old self.new) }
        ensures seeking { IfErr result (λ full. Calm Seeking self.old self.new) }
        ensures search { Searches first [] hints.old hints.new self.old self.new }
        ensures queue { queue_of hints.new ≡ queue_of hints.old }
        ensures takes { (counts_of hints.old).takes ≤ (counts_of hints.new).takes }
        ensures pace { Paces 65 65 self.old self.new }
    {
        let mut patience = first;
        for _ in rt.forever() {
            let control = self.handshake();
            if decides(began, control) {
                return self.try_last(began, control);
            }
            let hint = take_hint(rt, hints);
            match self.try_on(hint, patience) {
                Some(place) => return Ok(place),
                None => patience = patience_after(patience, hint),
            }
        }
        unreachable!()
    }

    /// Answers a handshake, if one is asked for, and looks again.
    pub(crate) fn handshake(&mut self) -> Control
        requires inside { self.old.seat.me.presence.inside ≡ true }
        ensures calm { Calm (Ends self.old.seat.me.number self.old.seat.me.presence.status result)
            self.old self.new }
        ensures seeking { Calm Seeking self.old self.new }
        ensures idle { Tries [] self.old self.new }
        ensures mode { HasMode self.new }
        ensures pace { Paces 65 1 self.old self.new }
    {
        handshake(self.heap, &mut self.seat)
    }

    /// Tries every cell after the look that decided.
    fn try_last(&mut self, began: u32, control: Control) -> Result<usize, HeapFull>
        requires inside { self.old.seat.me.presence.inside ≡ true }
        requires room { length self.old.seat.me.own.held < self.old.seat.me.room }
        requires mode { HasMode self.old }
        ensures got { IfOk result (λ place. Claimed self.old place self.new) }
        ensures full { IfErr result (λ full. full
            ≡ record { off_duty = not control.duty; began = began; ended = control.cycles }) }
        ensures tried { IfErr result (λ full.
            Calm (AllUsed 0 self.old.seat.me.shape.cells) self.old self.new) }
        ensures seeking { IfErr result (λ full. Calm Seeking self.old self.new) }
        ensures walk { Walks self.old self.new }
        ensures pace { Paces 1 65 self.old self.new }
    {
        match self.try_all() {
            Some(place) => Ok(place),
            None => Err(HeapFull {
                off_duty: !control.duty,
                began,
                ended: control.cycles,
            }),
        }
    }

    /// Tries the cell of a hint. Where the queue gave none it waits a while, or tries every cell
    /// where its patience is over.
    fn try_on(&mut self, hint: Option<u32>, patience: u32) -> Option<usize>
        requires inside { self.old.seat.me.presence.inside ≡ true }
        requires room { length self.old.seat.me.own.held < self.old.seat.me.room }
        requires mode { HasMode self.old }
        ensures got { IfSome result (λ place. Claimed self.old place self.new) }
        ensures none { IfNone result (Calm Seeking self.old self.new) }
        ensures missed { IfNone result (Tries (tries_for self.old.seat.me.shape.cells patience hint)
            self.old self.new) }
        ensures found { IfSome result (λ place. TriesFor patience (hint ∷ []) self.old self.new) }
        ensures pace { Paces 1 65 self.old self.new }
    {
        match hint {
            Some(cell) => self.try_within(cell),
            None => self.try_unhinted(patience),
        }
    }

    /// Waits a while; where the patience ends with this take it tries every cell instead.
    fn try_unhinted(&mut self, patience: u32) -> Option<usize>
        requires inside { self.old.seat.me.presence.inside ≡ true }
        requires room { length self.old.seat.me.own.held < self.old.seat.me.room }
        requires mode { HasMode self.old }
        ensures got { IfSome result (λ place. Claimed self.old place self.new) }
        ensures none { IfNone result (Calm Seeking self.old self.new) }
        ensures missed { IfNone result (Tries (tries_for self.old.seat.me.shape.cells patience None)
            self.old self.new) }
        ensures found { IfSome result (λ place. TriesFor patience (None ∷ []) self.old self.new) }
        ensures pace { Paces 1 65 self.old self.new }
    {
        if patience == 1 {
            self.try_all()
        } else {
            pause();
            None
        }
    }
}

/// Answers a handshake, if one is asked for, and looks again.
pub fn handshake<P: Keeping>(heap: &CellHeap<P>, seat: &mut MutSeat<P>) -> Control
    requires seat { IsBound heap.now seat.old }
    requires inside { seat.old.me.presence.inside ≡ true }
    ensures seat { IsBound heap.now seat.new }
    ensures calm { Calm (Ends seat.old.me.number seat.old.me.presence.status result)
        (bound heap.now seat.old) (bound heap.now seat.new) }
    ensures seeking { Calm Seeking (bound heap.now seat.old) (bound heap.now seat.new) }
    ensures idle { Tries [] (bound heap.now seat.old) (bound heap.now seat.new) }
    ensures mode { HasMode (bound heap.now seat.new) }
    ensures pace { Paces 65 1 (bound heap.now seat.old) (bound heap.now seat.new) }
{
    let _ = answer(heap, seat);
    look_once(heap, seat)
}
