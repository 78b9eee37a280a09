//! Claiming a cell: a few blocks are asked for, and their cells are tried. Nothing waits here.
ghost use Rattle.std.specs.Prelude.{◌≡◌, ◌<◌, ◌≤◌, IfErr, IfNone, IfOk, IfSome, length, true};
ghost use Rattle.heap_c.specs.Claiming.{FindsNone, SaysNone};
ghost use Rattle.mutator_seat.specs.Bound.{IsBound, bound};
ghost use Rattle.mutator_seat.specs.Claims.{Claimed, HasMode, Seeking};
ghost use Rattle.mutator_seat.specs.Stretches.{Calm};

use crate::codes::Code;
use crate::rule::Rule;
use crate::sharing::Sharing;
use cell_words::Control;
use cell_words::modes::{next_status, requested};
use free_blocks::Span;
use heap_table::CellHeap;
use mutator_events::MutSeat;
use mutator_seat::operations;

/// In how many blocks a call looks for a cell before it answers that it found none.
const BLOCKS_TRIED: u32 = 4;

/// How a mutator waits for a cell, and where it looks first.
#[derive(Clone, Copy, Drop)]
pub(crate) struct Waiting {
    /// the cycles that were begun at its first try in vain
    pub(crate) began: Option<u32>,
    pub(crate) looks: Looks,
}

/// Where a mutator looks for a cell. A block is mostly free from there on, since it was swept, and
/// is claimed, from its first cell to its last.
#[derive(Clone, Copy, Drop)]
pub(crate) struct Looks {
    /// the block that it asks for first
    pub(crate) block: u32,
    /// the cell after the last one that it claimed
    pub(crate) next: u32,
}

/// Looks before a cell is claimed, and answers the handshake that is asked for.
fn look_or_answer(heap: &CellHeap<Rule>, seat: &mut MutSeat<Rule>) -> Control
    requires seat { IsBound heap.now seat.old }
    requires inside { seat.old.me.presence.inside ≡ true }
    ensures seat { IsBound heap.now seat.new }
    ensures none { FindsNone (bound heap.now seat.old) (bound heap.now seat.new) }
    ensures few { result.cycles ≤ 4000000000 }
{
    let control = operations::look_once(heap, seat);
    if requested(control.stage) != next_status(seat.status()) {
        return control;
    }
    let _answered = operations::answer(heap, seat);
    operations::look_once(heap, seat)
}

/// Tries cells one after the other: the place of the one that it claimed. `next` is the cell after
/// that one then.
fn try_cells(
    heap: &CellHeap<Rule>,
    seat: &mut MutSeat<Rule>,
    span: Span,
    next: &mut u32,
) -> Option<usize>
    requires seat { IsBound heap.now seat.old }
    requires inside { seat.old.me.presence.inside ≡ true }
    requires mode { HasMode (bound heap.now seat.old) }
    requires room { length seat.old.me.own.held < seat.old.me.room }
    ensures seat { IsBound heap.now seat.new }
    ensures got { IfSome result (λ place.
        Claimed (bound heap.now seat.old) place (bound heap.now seat.new)) }
    ensures none { IfNone result (FindsNone (bound heap.now seat.old) (bound heap.now seat.new)) }
{
    let end = span.end.min(heap.cells());
    for cell in span.first..end {
        if let Some(place) = operations::try_cell(heap, seat, cell) {
            *next = cell + 1;
            return Some(place);
        }
    }
    None
}

/// Tries the cells of a block, from `next` on to its end and then from its front.
fn try_block(
    heap: &CellHeap<Rule>,
    seat: &mut MutSeat<Rule>,
    span: Span,
    next: &mut u32,
) -> Option<usize>
    requires seat { IsBound heap.now seat.old }
    requires inside { seat.old.me.presence.inside ≡ true }
    requires mode { HasMode (bound heap.now seat.old) }
    requires room { length seat.old.me.own.held < seat.old.me.room }
    ensures seat { IsBound heap.now seat.new }
    ensures got { IfSome result (λ place.
        Claimed (bound heap.now seat.old) place (bound heap.now seat.new)) }
    ensures none { IfNone result (FindsNone (bound heap.now seat.old) (bound heap.now seat.new)) }
{
    let Span { first, end } = span;
    let from = first.max(end.min(*next));
    match try_cells(heap, seat, Span { first: from, end }, next) {
        Some(place) => Some(place),
        None => try_cells(heap, seat, Span { first, end: from }, next),
    }
}

/// Asks for a few blocks, one after the other, and tries their cells.
fn try_blocks(
    heap: &CellHeap<Rule>,
    seat: &mut MutSeat<Rule>,
    sharing: &Sharing,
    looks: &mut Looks,
) -> Option<usize>
    requires seat { IsBound heap.now seat.old }
    requires inside { seat.old.me.presence.inside ≡ true }
    requires mode { HasMode (bound heap.now seat.old) }
    requires room { length seat.old.me.own.held < seat.old.me.room }
    ensures seat { IsBound heap.now seat.new }
    ensures got { IfSome result (λ place.
        Claimed (bound heap.now seat.old) place (bound heap.now seat.new)) }
    ensures none { IfNone result (FindsNone (bound heap.now seat.old) (bound heap.now seat.new)) }
{
    for _tried in 0..BLOCKS_TRIED {
        let Some(seen) = sharing.blocks.next_block(looks.block) else {
            return None;
        };
        looks.block = seen.block;
        if let Some(place) = try_block(
            heap,
            seat,
            sharing.blocks.span(seen.block),
            &mut looks.next,
        ) {
            return Some(place);
        }
        sharing.blocks.found_none(seen);
    }
    None
}

/// What the answer is where no cell was found: that the mutator waits, or that waiting is of no
/// more use.
fn waits(control: Control, sharing: &Sharing, wait: &mut Waiting) -> Code
    requires few { control.cycles ≤ 4000000000 }
    ensures code { SaysNone result }
{
    if !sharing.is_on_duty() {
        return Code::Full;
    }
    match wait.began {
        None => {
            wait.began = Some(operations::begun(control));
            Code::Wait
        }
        Some(began) => {
            if began.saturating_add(2) <= control.cycles {
                wait.began = None;
                Code::Full
            } else {
                Code::Wait
            }
        }
    }
}

/// Claims a cell of the next blocks in which one is thought free: its place. A handshake that is
/// asked for is answered first.
pub(crate) fn claim(
    heap: &CellHeap<Rule>,
    seat: &mut MutSeat<Rule>,
    sharing: &Sharing,
    wait: &mut Waiting,
) -> Result<usize, Code>
    requires seat { IsBound heap.now seat.old }
    requires inside { seat.old.me.presence.inside ≡ true }
    requires room { length seat.old.me.own.held < seat.old.me.room }
    ensures seat { IsBound heap.now seat.new }
    ensures got { IfOk result (λ place.
        Claimed (bound heap.now seat.old) place (bound heap.now seat.new)) }
    ensures none { IfErr result (λ code.
        Calm Seeking (bound heap.now seat.old) (bound heap.now seat.new)) }
    ensures codes { IfErr result SaysNone }
{
    let control = look_or_answer(heap, seat);
    match try_blocks(heap, seat, sharing, &mut wait.looks) {
        Some(place) => {
            wait.began = None;
            Ok(place)
        }
        None => Err(waits(control, sharing, wait)),
    }
}
