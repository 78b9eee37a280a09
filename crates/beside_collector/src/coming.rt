//! A mutator in and out, under any rule: what its thread does before its work and after it.
ghost use Rattle.std.specs.Prelude.{◌≡◌, false, length, true};
ghost use Rattle.beside_collector.specs.Coming.{Entered, IsSame, Left};
ghost use Rattle.heap_rule.specs.Asks.{MayComeIn};
ghost use Rattle.heap_table.specs.Seats.{IsSeatOf};

use heap_rule::Keeping;
use heap_table::CellHeap;
use mutator_seat::{MutSeat, Mutator};

/// The mutator of the seat, in.
pub fn come_in<'a, P: Keeping>(heap: &'a CellHeap<P>, seat: MutSeat<P>) -> Mutator<'a, P>
    requires seat { IsSeatOf heap.now seat }
    requires out { MayComeIn seat.me }
    ensures entered { Entered heap.now seat result }
{
    let mut m = Mutator::new(heap, seat);
    m.begin();
    m
}

/// The mutator comes in.
pub fn wake<P: Keeping>(m: &mut Mutator<'_, P>)
    requires out { m.old.seat.me.presence.inside ≡ false }
    ensures same { IsSame m.old m.new }
    ensures inside { m.new.seat.me.presence.inside ≡ true }
    ensures one { length m.new.seat.me.own.held ≡ 1 }
{
    m.begin();
}

/// The mutator goes out, so that nobody waits for it. It may come in again.
pub fn pause<P: Keeping>(m: &mut Mutator<'_, P>)
    requires inside { m.old.seat.me.presence.inside ≡ true }
    ensures same { IsSame m.old m.new }
    ensures out { m.new.seat.me.presence.inside ≡ false }
{
    m.end();
}

/// The mutator goes out and is over.
pub fn leave<P: Keeping>(m: Mutator<'_, P>) -> MutSeat<P>
    requires inside { m.seat.me.presence.inside ≡ true }
    ensures left { Left m.entry result }
{
    let mut m = m;
    pause(&mut m);
    m.finish()
}
