//! A heap with a mailbox and two mutators.
ghost use Rattle.std.specs.Prelude.{◌≤◌, IfOk};
ghost use Rattle.mailbox_tests.specs.Ready.{IsNew, IsReady};

use cell_heap::{CellHeap, ColSeat, MutSeat, NoMemory};
use cell_mailbox::{MailPass, opening_rows};
use mutator_seat::Mutator;
use std::alloc::Global;

/// The heap, with the seats of its collector and of its mutators.
#[derive(Drop)]
pub(crate) struct Opened {
    pub(crate) heap: CellHeap<MailPass>,
    pub(crate) collector: ColSeat<MailPass>,
    pub(crate) first: MutSeat<MailPass>,
    pub(crate) second: MutSeat<MailPass>,
}

/// A mailbox on so many cells.
pub(crate) fn open_mailbox(alloc: Global, cells: u32) -> Result<Opened, NoMemory>
    requires some { 2 ≤ cells }
    requires few { cells ≤ 1000000 }
    ensures first { IfOk result (λ made. IsNew made.heap 0 made.first) }
    ensures second { IfOk result (λ made. IsNew made.heap 1 made.second) }
{
    let (heap, mut collector) = ColSeat::<MailPass>::open(alloc, cells, 2, 0, &opening_rows())?;
    let first = collector.split(alloc, &heap, 0, 16)?;
    let second = collector.split(alloc, &heap, 1, 16)?;
    Ok(Opened {
        heap,
        collector,
        first,
        second,
    })
}

/// Comes in, and holds the anchor.
pub(crate) fn come_in<'a>(
    heap: &'a CellHeap<MailPass>,
    seat: MutSeat<MailPass>,
    number: u32,
) -> Mutator<'a, MailPass>
    requires new { IsNew heap.now number seat }
    ensures ready { IsReady number 0 result }
{
    let _ = number;
    let mut m = Mutator::new(heap, seat);
    m.begin();
    m
}
