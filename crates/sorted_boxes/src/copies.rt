//! What a list tells once private records were copied into the heap.
ghost use Rattle.std.specs.Prelude.{◌<◌, ◌≤◌, length, ℕ};
ghost use Rattle.std.specs.List.{SameBelow};
ghost use Rattle.heap_rule.specs.Asks.{known_of};
ghost use Rattle.sorted_boxes.specs.Holding.{HoldsAs, HoldsFirst};
ghost use Rattle.sorted_rule.specs.Open.{KnownOfSort};
ghost use Rattle.sorted_rule.specs.Sorts.{Records};

use crate::sorts::Sorts;
use mutator_seat::MutSeat;
use sorted_rule::Sorting;

/// From this place on records are held, as a copying of private records leaves them.
pub fn hold_records(seat: &MutSeat<Sorting>, sorts: &mut Sorts, from: usize)
    requires first { HoldsFirst from sorts.old seat.now.me }
    requires some { 1 ≤ from }
    requires records { (place : ℕ) → from ≤ place → place < length seat.now.me.own.held
        → KnownOfSort Records (known_of seat.now.me place) }
    ensures held { HoldsAs sorts.new seat.now.me }
    ensures same { SameBelow sorts.old.records sorts.new.records from }
{
    // There is room for all that is held.
    let _room = seat.room();
    let end = seat.held_len();
    for place in from..end {
        sorts.set(place, true);
    }
}
