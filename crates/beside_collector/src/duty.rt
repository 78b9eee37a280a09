ghost use Rattle.std.specs.Prelude.{◌≡◌};
ghost use Rattle.beside_collector.specs.Duty.{IsOnDuty};
ghost use Rattle.cell_words.specs.declared.controls.Stage.TheVariants as stage;
ghost use Rattle.heap_table.specs.Seats.{IsSeatOf};

use cell_heap::ColSeat;
use heap_rule::Keeping;
use heap_table::CellHeap;

/// The collector goes on duty, if it may make cycles. It is called before the work begins.
pub fn begin_duty<P: Keeping>(heap: &CellHeap<P>, cycles: u32, seat: &mut ColSeat<P>)
    requires seat { IsSeatOf heap.now seat.old }
    requires idle { seat.old.me.control.stage ≡ stage.Idle }
    ensures duty { IsOnDuty cycles seat.old seat.new }
{
    if cycles != 0 {
        seat.duty(heap, true);
    }
}
