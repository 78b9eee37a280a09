//! What the collector's thread owns.
use cell_heap::ColSeat;
use collector::MarkStack;
use free_cells::HintPass;
use heap_rule::Keeping;

/// The collector's seat, with its mark stack and its pass of the hints.
#[derive(Drop)]
pub struct Keeper<P: Keeping> {
    pub seat: ColSeat<P>,
    pub stack: MarkStack,
    pub pass: HintPass,
}

/// What is returned with a seat that has not served yet: the mark stack, and the pass of the hints.
#[derive(Drop)]
pub struct Standby {
    pub stack: MarkStack,
    pub pass: HintPass,
}
