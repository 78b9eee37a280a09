//! Coming in, going out, being over, choosing what stays held, and whether two places hold one
//! cell.
ghost use Rattle.std.specs.Prelude.{◌≡◌, ◌≤◌, ◌<◌, ◌+◌, ◌==◌, length, true, false, [], ◌∷◌};
ghost use Rattle.cell_words.specs.Term.{Term};
ghost use Rattle.cell_words.specs.declared.presences.Status.{Status};
ghost use Rattle.core_machine.specs.declared.events.Event.TheVariants as event;
ghost use Rattle.core_machine.specs.declared.events.Found.TheVariants as finds;
ghost use Rattle.heap_rule.specs.Asks.{MayKeep, known_of, target};
ghost use Rattle.heap_rule.specs.declared.known.Known.TheVariants as knows;
ghost use Rattle.mutator_events.specs.Events.{tells};
ghost use Rattle.mutator_seat.specs.Bound.{IsBound, bound, held_cells, takes};

use crate::mutator::Mutator;
use heap_rule::Keeping;
use heap_table::CellHeap;
use mutator_events::MutSeat;

impl<'a, P: Keeping> Mutator<'a, P> {
    /// Comes in, with the anchor at place 0 and nothing else.
    pub fn begin(&mut self)
        requires out { self.old.seat.me.presence.inside ≡ false }
        ensures told { (status : Status)
            × (self.new ≡ takes self.old (event.Begin self.old.seat.me.number)
            (finds.Presence (record self.old.seat.me.presence { status = status }))) }
        ensures inside { self.new.seat.me.presence.inside ≡ true }
        ensures held { held_cells self.new ≡ 0 ∷ [] }
    {
        begin(self.heap, &mut self.seat);
    }

    /// Goes out, and holds nothing.
    pub fn end(&mut self)
        requires inside { self.old.seat.me.presence.inside ≡ true }
        ensures told { self.new ≡ takes self.old (event.End self.old.seat.me.number)
            (finds.Presence self.old.seat.me.presence) }
        ensures out { self.new.seat.me.presence.inside ≡ false }
        ensures held { held_cells self.new ≡ [] }
    {
        end(self.heap, &mut self.seat);
    }

    /// Is over: the seat never comes in again, and may be joined.
    pub fn finish(self) -> MutSeat<P>
        requires out { self.seat.me.presence.inside ≡ false }
        ensures told { (status : Status)
            × (result ≡ tells self.entry.seat (event.Over self.entry.seat.me.number)
            (finds.Presence (record self.entry.seat.me.presence { status = status }))) }
        ensures over { result.me.presence.over ≡ true }
    {
        let Mutator { heap, mut seat } = self;
        finish(heap, &mut seat);
        seat
    }

    /// Keeps the first `n` places.
    pub fn cut(&mut self, n: usize)
        requires inside { self.old.seat.me.presence.inside ≡ true }
        requires some { 1 ≤ n }
        requires kept { n ≤ length self.old.seat.me.own.held }
        ensures told { self.new ≡ takes self.old (event.Keep self.old.seat.me.number n 0 0)
            (finds.Presence self.old.seat.me.presence) }
    {
        cut(self.heap, &mut self.seat, n);
    }

    /// Keeps the first `n` places, and after them the `count` cells that stood from `place` on.
    pub fn keep(&mut self, n: usize, place: usize, count: usize)
        requires may { MayKeep self.old.seat.me n place count }
        ensures told { self.new ≡ takes self.old (event.Keep self.old.seat.me.number n place count)
            (finds.Presence self.old.seat.me.presence) }
    {
        keep(self.heap, &mut self.seat, n, place, count);
    }

    /// Whether two places hold one cell. What is known of them as records is then one term.
    pub fn is_same(&mut self, first: usize, second: usize) -> bool
        requires inside { self.old.seat.me.presence.inside ≡ true }
        requires first { first < length self.old.seat.me.own.held }
        requires second { second < length self.old.seat.me.own.held }
        ensures same { result
            ≡ (target self.old.seat.me first == target self.old.seat.me second) }
        ensures terms { result ≡ true → (t u : Term)
            → known_of self.old.seat.me first ≡ knows.Record t
            → known_of self.old.seat.me second ≡ knows.Record u → t ≡ u }
        ensures told { self.new ≡ takes self.old (event.Keep self.old.seat.me.number
            (length self.old.seat.me.own.held) 0 0)
            (finds.Presence self.old.seat.me.presence) }
    {
        is_same(self.heap, &mut self.seat, first, second)
    }
}

/// Comes in, with the anchor at place 0 and nothing else.
pub fn begin<P: Keeping>(heap: &CellHeap<P>, seat: &mut MutSeat<P>)
    requires seat { IsBound heap.now seat.old }
    requires out { seat.old.me.presence.inside ≡ false }
    ensures seat { IsBound heap.now seat.new }
    ensures told { (status : Status)
        × (bound heap.now seat.new
        ≡ takes (bound heap.now seat.old) (event.Begin seat.old.me.number)
        (finds.Presence (record seat.old.me.presence { status = status }))) }
    ensures inside { seat.new.me.presence.inside ≡ true }
    ensures held { held_cells (bound heap.now seat.new) ≡ 0 ∷ [] }
{
    seat.begin(heap);
}

/// Goes out, and holds nothing.
pub fn end<P: Keeping>(heap: &CellHeap<P>, seat: &mut MutSeat<P>)
    requires seat { IsBound heap.now seat.old }
    requires inside { seat.old.me.presence.inside ≡ true }
    ensures seat { IsBound heap.now seat.new }
    ensures told { bound heap.now seat.new
        ≡ takes (bound heap.now seat.old) (event.End seat.old.me.number)
        (finds.Presence seat.old.me.presence) }
    ensures out { seat.new.me.presence.inside ≡ false }
    ensures held { held_cells (bound heap.now seat.new) ≡ [] }
{
    seat.end(heap);
}

/// Is over: the seat never comes in again, and may be joined.
pub fn finish<P: Keeping>(heap: &CellHeap<P>, seat: &mut MutSeat<P>)
    requires seat { IsBound heap.now seat.old }
    requires out { seat.old.me.presence.inside ≡ false }
    ensures told { (status : Status)
        × (seat.new ≡ tells seat.old (event.Over seat.old.me.number)
        (finds.Presence (record seat.old.me.presence { status = status }))) }
    ensures over { seat.new.me.presence.over ≡ true }
{
    seat.over(heap);
}

/// Keeps the first `n` places.
pub fn cut<P: Keeping>(heap: &CellHeap<P>, seat: &mut MutSeat<P>, n: usize)
    requires seat { IsBound heap.now seat.old }
    requires inside { seat.old.me.presence.inside ≡ true }
    requires some { 1 ≤ n }
    requires kept { n ≤ length seat.old.me.own.held }
    ensures seat { IsBound heap.now seat.new }
    ensures told { bound heap.now seat.new
        ≡ takes (bound heap.now seat.old) (event.Keep seat.old.me.number n 0 0)
        (finds.Presence seat.old.me.presence) }
{
    // As many are kept as are held at most, and so there is room.
    let _room = seat.room();
    seat.keep(heap, n, 0, 0);
}

/// Keeps the first `n` places, and after them the `count` cells that stood from `place` on.
pub fn keep<P: Keeping>(
    heap: &CellHeap<P>,
    seat: &mut MutSeat<P>,
    n: usize,
    place: usize,
    count: usize,
)
    requires seat { IsBound heap.now seat.old }
    requires may { MayKeep seat.old.me n place count }
    ensures seat { IsBound heap.now seat.new }
    ensures told { bound heap.now seat.new
        ≡ takes (bound heap.now seat.old) (event.Keep seat.old.me.number n place count)
        (finds.Presence seat.old.me.presence) }
{
    seat.keep(heap, n, place, count);
}

/// Whether two places hold one cell. What is known of them as records is then one term.
pub fn is_same<P: Keeping>(
    heap: &CellHeap<P>,
    seat: &mut MutSeat<P>,
    first: usize,
    second: usize,
) -> bool
    requires seat { IsBound heap.now seat.old }
    requires inside { seat.old.me.presence.inside ≡ true }
    requires first { first < length seat.old.me.own.held }
    requires second { second < length seat.old.me.own.held }
    ensures seat { IsBound heap.now seat.new }
    ensures same { result ≡ (target seat.old.me first == target seat.old.me second) }
    ensures terms { result ≡ true → (t u : Term) → known_of seat.old.me first ≡ knows.Record t
        → known_of seat.old.me second ≡ knows.Record u → t ≡ u }
    ensures told { bound heap.now seat.new
        ≡ takes (bound heap.now seat.old) (event.Keep seat.old.me.number
        (length seat.old.me.own.held) 0 0) (finds.Presence seat.old.me.presence) }
{
    seat.is_same(heap, first, second)
}
