ghost use Rattle.std.specs.Prelude.{◌≡◌, ◌≢◌, ◌<◌, IfNone, IfSome, length, true, ℕ};
ghost use Rattle.mutator_seat.specs.Bound.{IsBound, bound};
ghost use Rattle.mutator_seat.specs.Claims.{Claimed, Seeking};
ghost use Rattle.mutator_seat.specs.Stretches.{Calm};

use heap_rule::Keeping;
use heap_table::CellHeap;
use mutator_seat::MutSeat;

/// Where the raw cells for copies come from.
pub trait RawCells<P: Keeping> {
    // a number that a claim changes which gives none, and no other
    ghost refusals: { Self → ℕ };

    /// Takes a free cell: raw, with null fields, at the next place. It may give none, also where
    /// there are free ones: whoever asks goes on later.
    fn claim(&mut self, heap: &CellHeap<P>, seat: &mut MutSeat<P>) -> Option<usize>
        requires seat { IsBound heap.now seat.old }
        requires inside { seat.old.me.presence.inside ≡ true }
        requires room { length seat.old.me.own.held < seat.old.me.room }
        ensures seat { IsBound heap.now seat.new }
        ensures got { IfSome result (λ place.
            Claimed (bound heap.now seat.old) place (bound heap.now seat.new)) }
        ensures given { IfSome result (λ place. refusals self.new ≡ refusals self.old) }
        ensures none { IfNone result
            (Calm Seeking (bound heap.now seat.old) (bound heap.now seat.new)) }
        ensures refused { IfNone result (refusals self.new ≢ refusals self.old) };
}
