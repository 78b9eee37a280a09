ghost use Rattle.free_cells.specs.Passes.{IsHintPass};

use crate::counts::HintPass;
use crate::queue::FreeQueue;

/// The queue of hints in the hands of one thread.
#[derive(Drop)]
pub struct Hints<'a> {
    pub(crate) queue: &'a FreeQueue,
    pub(crate) pass: HintPass,
    ghost of_queue: { IsHintPass queue.now pass },
}
