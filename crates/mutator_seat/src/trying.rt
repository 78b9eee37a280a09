//! Trying cells: that of a hint, one, or every cell in turn.
//!
//! One look serves many tries, since a try that misses leaves it. A hint that lies outside of the
//! heap is passed over at run time, so a claim asks nothing of the queue.
ghost use Rattle.std.specs.Prelude.{◌≡◌, ◌<◌, ◌≤◌, ◌+◌, ◌∷◌, ◌++◌, [], true};
ghost use Rattle.std.specs.Prelude.{IfNone, IfSome, Some, length};
ghost use Rattle.mutator_seat.specs.Bound.{IsBound, bound, held_cells};
ghost use Rattle.mutator_seat.specs.Claims.{Claimed, HasMode, Seeking, Tried};
ghost use Rattle.mutator_seat.specs.Pacing.{Paces};
ghost use Rattle.mutator_seat.specs.Searches.{Tries, Walks, first_cells, hinted, tries_for};
ghost use Rattle.mutator_seat.specs.Stretches.{Calm};
ghost use Rattle.trails.specs.Claims.{AllUsed};

use crate::mutator::Mutator;
use heap_rule::Keeping;
use heap_table::CellHeap;
use mutator_events::MutSeat;

/// How many cells are tried between two handshakes.
const TRIES: u32 = 64;

impl<'a, P: Keeping> Mutator<'a, P> {
    /// Tries the cell of a hint, if there is one.
    pub(crate) fn try_hinted(&mut self, hint: Option<u32>) -> Option<usize>
        requires inside { self.old.seat.me.presence.inside ≡ true }
        requires room { length self.old.seat.me.own.held < self.old.seat.me.room }
        requires mode { HasMode self.old }
        ensures got { IfSome result (λ place. Claimed self.old place self.new) }
        ensures none { IfNone result (Calm Seeking self.old self.new) }
        ensures tried { IfSome hint (λ cell. cell < self.old.seat.me.shape.cells
            → Tried cell self.old self.new) }
        ensures tries { Tries (tries_for self.old.seat.me.shape.cells 1000 hint) self.old self.new }
        ensures pace { Paces 1 65 self.old self.new }
    {
        match hint {
            Some(cell) => self.try_within(cell),
            None => None,
        }
    }

    /// Tries this cell, if the heap has it.
    pub(crate) fn try_within(&mut self, cell: u32) -> Option<usize>
        requires inside { self.old.seat.me.presence.inside ≡ true }
        requires room { length self.old.seat.me.own.held < self.old.seat.me.room }
        requires mode { HasMode self.old }
        ensures got { IfSome result (λ place. Claimed self.old place self.new) }
        ensures cell { IfSome result (λ place. held_cells self.new
            ≡ held_cells self.old ++ cell ∷ []) }
        ensures none { IfNone result (Calm Seeking self.old self.new) }
        ensures tried { cell < self.old.seat.me.shape.cells → Tried cell self.old self.new }
        ensures tries { Tries (hinted self.old.seat.me.shape.cells cell) self.old self.new }
        ensures used { cell < self.old.seat.me.shape.cells
            → IfNone result (Calm (AllUsed cell (cell + 1)) self.old self.new) }
        ensures pace { Paces 1 65 self.old self.new }
    {
        if cell < self.cells() {
            self.try_cell(cell)
        } else {
            None
        }
    }

    /// Tries every cell in turn.
    pub(crate) fn try_all(&mut self) -> Option<usize>
        requires inside { self.old.seat.me.presence.inside ≡ true }
        requires room { length self.old.seat.me.own.held < self.old.seat.me.room }
        requires mode { HasMode self.old }
        ensures got { IfSome result (λ place. Claimed self.old place self.new) }
        ensures none { IfNone result (Calm (AllUsed 0 self.old.seat.me.shape.cells)
            self.old self.new) }
        ensures seeking { IfNone result (Calm Seeking self.old self.new) }
        ensures all { IfNone result (Tries (first_cells self.old.seat.me.shape.cells)
            self.old self.new) }
        ensures walk { Walks self.old self.new }
        ensures pace { Paces 1 65 self.old self.new }
    {
        let mut tries: u32 = 0;
        for cell in 0..self.cells() {
            match self.try_cell(cell) {
                Some(place) => return Some(place),
                None => tries = self.look_at_times(tries + 1),
            }
        }
        None
    }

    /// Answers handshakes at every so many tries: how many came since.
    fn look_at_times(&mut self, tries: u32) -> u32
        requires inside { self.old.seat.me.presence.inside ≡ true }
        requires mode { HasMode self.old }
        requires few { tries ≤ 64 }
        ensures calm { Calm Seeking self.old self.new }
        ensures idle { Tries [] self.old self.new }
        ensures mode { HasMode self.new }
        ensures few { result ≤ 63 }
        ensures pace { Paces (tries + 1) (result + 1) self.old self.new }
    {
        if tries == TRIES {
            let _ = self.handshake();
            0
        } else {
            tries
        }
    }

    /// Claims the cell, if it is blue, and gives its place.
    fn try_cell(&mut self, cell: u32) -> Option<usize>
        requires inside { self.old.seat.me.presence.inside ≡ true }
        requires mode { HasMode self.old }
        requires cell { cell < self.old.seat.me.shape.cells }
        requires room { length self.old.seat.me.own.held < self.old.seat.me.room }
        ensures got { IfSome result (λ place. Claimed self.old place self.new) }
        ensures cell { IfSome result (λ place. held_cells self.new
            ≡ held_cells self.old ++ cell ∷ []) }
        ensures none { IfNone result (Calm (AllUsed cell (cell + 1)) self.old self.new) }
        ensures tried { Tried cell self.old self.new }
        ensures seeking { IfNone result (Calm Seeking self.old self.new) }
        ensures mode { IfNone result (HasMode self.new) }
    {
        try_cell(self.heap, &mut self.seat, cell)
    }

    /// How many cells the heap has.
    fn cells(&self) -> u32
        ensures cells { result ≡ self.now.seat.me.shape.cells }
    {
        self.heap.cells()
    }
}

/// Claims the cell, if it is blue, and gives its place.
pub fn try_cell<P: Keeping>(heap: &CellHeap<P>, seat: &mut MutSeat<P>, cell: u32) -> Option<usize>
    requires seat { IsBound heap.now seat.old }
    requires inside { seat.old.me.presence.inside ≡ true }
    requires mode { HasMode (bound heap.now seat.old) }
    requires cell { cell < seat.old.me.shape.cells }
    requires room { length seat.old.me.own.held < seat.old.me.room }
    ensures seat { IsBound heap.now seat.new }
    ensures got { IfSome result (λ place.
        Claimed (bound heap.now seat.old) place (bound heap.now seat.new)) }
    ensures cell { IfSome result (λ place. held_cells (bound heap.now seat.new)
        ≡ held_cells (bound heap.now seat.old) ++ cell ∷ []) }
    ensures none { IfNone result (Calm (AllUsed cell (cell + 1))
        (bound heap.now seat.old) (bound heap.now seat.new)) }
    ensures tried { Tried cell (bound heap.now seat.old) (bound heap.now seat.new) }
    ensures seeking { IfNone result (Calm Seeking
        (bound heap.now seat.old) (bound heap.now seat.new)) }
    ensures mode { IfNone result (HasMode (bound heap.now seat.new)) }
{
    let place = seat.held_len();
    if seat.claim(heap, cell) {
        Some(place)
    } else {
        None
    }
}
