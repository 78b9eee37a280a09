//! Runs of the sweep. Each event is the one of its own call, by the same atomic operation; a run
//! keeps in locals where it is, and the seat has it again at the end. The single calls of `sweep`
//! call the same functions.
ghost use Rattle.std.specs.Prelude.{◌≡◌, ◌<◌, ◌≤◌, false, true};
ghost use Rattle.cell_heap.specs.Collecting.{IsCollectors};
ghost use Rattle.cell_heap.specs.Runs.{SweepsOn, TellsAll, is_white, left_at, sweep_at};
ghost use Rattle.cell_heap.specs.Telling.{FindsKnown, collector_tells};
ghost use Rattle.cell_words.specs.declared.controls.Stage.TheVariants as stage;
ghost use Rattle.core_machine.specs.Collector.{control_after};
ghost use Rattle.core_machine.specs.Next.{can};
ghost use Rattle.core_machine.specs.Words.{is_gray};
ghost use Rattle.core_machine.specs.declared.events.Event.TheVariants as event;
ghost use Rattle.core_machine.specs.declared.events.Found.TheVariants as finds;
ghost use Rattle.core_machine.specs.declared.progress.Sweeping.TheVariants as sweeping;
ghost use Rattle.heap_rule.specs.Asks.{collector_state};
ghost use Rattle.heap_table.specs.Seats.{IsSeatOf};

use crate::seat::ColSeat;
use crate::words::{CONTROL, colour_word};
use cell_words::{Colour, Control, pack_colour, pack_control};
use core_machine::{Event, Sweeping};
use heap_rule::Keeping;
use heap_table::words::colour_of;
use heap_table::{CellHeap, HeapSeat};
use std::marker::Brand;

fn is_white(colour: Colour) -> bool
    ensures white { result ≡ is_white colour }
{
    match colour {
        Colour::White => true,
        Colour::Blue | Colour::Gray | Colour::Black => false,
    }
}

/// Loads the colour of the cell at the position.
pub(crate) fn look_at<P: Keeping>(
    heap: &CellHeap<P>,
    seat: &mut HeapSeat<P>,
    mutators: u32,
    position: u32,
) -> Colour
    requires seat { IsSeatOf heap.now seat.old }
    requires collector { IsCollectors seat.old.me }
    requires mutators { mutators ≡ seat.old.me.shape.mutators }
    requires position { position ≡ seat.old.me.control.position }
    requires can { can (collector_state seat.old.me) event.SweepLook ≡ true }
    ensures told { seat.new ≡ collector_tells seat.old event.SweepLook (finds.Colour result) }
    ensures known { FindsKnown seat.old.me event.SweepLook (finds.Colour result) }
    ensures not_gray { is_gray result ≡ false }
    ensures collector { IsCollectors seat.new.me }
{
    let word = colour_word(mutators, position);
    let found = heap.collector_load::<Brand>(seat, Event::SweepLook, word);
    colour_of(found)
}

/// Stores white as the colour of the cell at the position.
pub(crate) fn whiten_at<P: Keeping>(
    heap: &CellHeap<P>,
    seat: &mut HeapSeat<P>,
    mutators: u32,
    position: u32,
)
    requires seat { IsSeatOf heap.now seat.old }
    requires collector { IsCollectors seat.old.me }
    requires mutators { mutators ≡ seat.old.me.shape.mutators }
    requires position { position ≡ seat.old.me.control.position }
    requires can { can (collector_state seat.old.me) event.Whiten ≡ true }
    ensures told { seat.new ≡ collector_tells seat.old event.Whiten finds.Stored }
    ensures known { FindsKnown seat.old.me event.Whiten finds.Stored }
    ensures collector { IsCollectors seat.new.me }
{
    let word = colour_word(mutators, position);
    let white = pack_colour(Colour::White);
    heap.collector_store::<Brand>(seat, Event::Whiten, word, white);
}

/// Stores the control with the next position.
pub(crate) fn advance_to<P: Keeping>(heap: &CellHeap<P>, seat: &mut HeapSeat<P>, control: Control)
    requires seat { IsSeatOf heap.now seat.old }
    requires collector { IsCollectors seat.old.me }
    requires control { control ≡ control_after seat.old.me.control event.Advance }
    requires can { can (collector_state seat.old.me) event.Advance ≡ true }
    ensures told { seat.new ≡ collector_tells seat.old event.Advance finds.Stored }
    ensures known { FindsKnown seat.old.me event.Advance finds.Stored }
    ensures collector { IsCollectors seat.new.me }
{
    let word = pack_control(control);
    heap.collector_store::<Brand>(seat, Event::Advance, CONTROL, word);
}

/// Looks at the cell at the position, and makes a black one white.
fn keep_at<P: Keeping>(
    heap: &CellHeap<P>,
    seat: &mut HeapSeat<P>,
    mutators: u32,
    position: u32,
) -> Colour
    requires seat { IsSeatOf heap.now seat.old }
    requires collector { IsCollectors seat.old.me }
    requires mutators { mutators ≡ seat.old.me.shape.mutators }
    requires position { position ≡ seat.old.me.control.position }
    requires stage { seat.old.me.control.stage ≡ stage.Sweep }
    requires fresh { seat.old.me.part.sweep ≡ sweeping.Fresh }
    requires there { position < seat.old.me.shape.cells }
    ensures told { TellsAll seat.old (sweep_at result) seat.new }
    ensures not_gray { is_gray result ≡ false }
    ensures control { seat.new.me.control ≡ seat.old.me.control }
    ensures part { seat.new.me.part ≡ record seat.old.me.part { sweep = left_at result } }
    ensures collector { IsCollectors seat.new.me }
{
    match look_at(heap, seat, mutators, position) {
        Colour::Blue => Colour::Blue,
        Colour::White => Colour::White,
        Colour::Gray => unreachable!(),
        Colour::Black => {
            whiten_at(heap, seat, mutators, position);
            Colour::Black
        }
    }
}

/// Sweeps on from the position over cells that stay, up to a white one, whose number it gives.
fn sweep_from<P: Keeping>(
    heap: &CellHeap<P>,
    seat: &mut HeapSeat<P>,
    cells: u32,
    mutators: u32,
    control: Control,
) -> Option<u32>
    requires seat { IsSeatOf heap.now seat.old }
    requires collector { IsCollectors seat.old.me }
    requires cells { cells ≡ seat.old.me.shape.cells }
    requires mutators { mutators ≡ seat.old.me.shape.mutators }
    requires control { control ≡ seat.old.me.control }
    requires stage { control.stage ≡ stage.Sweep }
    requires fresh { seat.old.me.part.sweep ≡ sweeping.Fresh }
    requires within { control.position ≤ cells }
    ensures swept { SweepsOn result seat.old seat.new }
    ensures collector { IsCollectors seat.new.me }
{
    for position in control.position..cells {
        let colour = keep_at(heap, seat, mutators, position);
        if is_white(colour) {
            return Some(position);
        }
        let next = Control {
            position: position + 1,
            ..control
        };
        advance_to(heap, seat, next);
    }
    None
}

impl<P: Keeping> ColSeat<P> {
    /// Sweeps on over blue and black cells, up to a white one, which is to be wiped from then on;
    /// or by the last cell. It gives the number of the white one.
    ///
    /// A blue cell costs a load and a store of the control, a black one a store of its colour too.
    pub fn sweep_on(&mut self, heap: &CellHeap<P>) -> Option<u32>
        requires seat { IsSeatOf heap.now self.old }
        requires stage { self.old.me.control.stage ≡ stage.Sweep }
        requires fresh { self.old.me.part.sweep ≡ sweeping.Fresh }
        requires within { self.old.me.control.position ≤ self.old.me.shape.cells }
        ensures swept { SweepsOn result self.old self.new }
    {
        let white = sweep_from(
            heap,
            &mut self.seat,
            self.cells,
            self.mutators,
            self.control,
        );
        match white {
            Some(cell) => {
                self.control.position = cell;
                self.progress.sweep = Sweeping::Wiping(0);
                Some(cell)
            }
            None => {
                self.control.position = self.cells;
                None
            }
        }
    }
}
