use cell_heap::MutSeat;
use free_cells::HintPass;
use heap_rule::Keeping;

/// What the thread of a mutator owns: its seat, its pass of the hints, and what it has of its own.
#[derive(Drop)]
pub struct Worker<P: Keeping, T> {
    pub seat: MutSeat<P>,
    pub pass: HintPass,
    pub own: T,
}
