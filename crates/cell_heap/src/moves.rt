//! Opening a heap, splitting the seats of its mutators off and joining them again, and closing it.
ghost use Rattle.std.specs.Prelude.{◌≡◌, ◌<◌, ◌≤◌, IfOk, IsTrue, OnErr, OnOk, length, true};
ghost use mathlib.Core.Option.{some};
ghost use lib.ListN.{get_elem?};
ghost use Rattle.core_machine.specs.State.{greatest_cells};
ghost use Rattle.dlg_core.specs.FirstRows.{are_first_rows};
ghost use Rattle.heap_rule.specs.Laws.{Ended};
ghost use Rattle.heap_rule.specs.Moves.{given_view, joined_view, split_view};
ghost use Rattle.heap_rule.specs.Opening.{opening_view};
ghost use Rattle.heap_rule.specs.declared.view.Place.TheVariants as places;
ghost use Rattle.heap_table.specs.Images.{Shows};
ghost use Rattle.heap_table.specs.Opening.{Opens};
ghost use Rattle.heap_table.specs.Seats.{IsSeatOf};

use crate::seat::ColSeat;
use cell_words::Row;
use heap_rule::Keeping;
use heap_table::{CellHeap, Image, NoMemory, Passes};
use mutator_events::{HeldRoom, MutSeat};
use std::alloc::Global;

impl<P: Keeping> ColSeat<P> {
    /// A heap of so many cells for so many mutators, of which the first cells have the given rows,
    /// and its collector's seat. The setting is a number for the opening passes alone.
    pub fn open(
        alloc: Global,
        cells: u32,
        mutators: u32,
        setting: u64,
        first: &[Row],
    ) -> Result<(CellHeap<P>, ColSeat<P>), NoMemory>
        requires some_cells { 0 < cells }
        requires few_cells { cells ≤ greatest_cells }
        requires few_rows { length first.now ≤ cells }
        requires rows { IsTrue (are_first_rows first.now) }
        requires rule { Opens P.opening P.holds
            record { cells = cells; mutators = mutators; setting = setting; first = first.now } }
        ensures heap { IfOk result (λ made. made.0.shape
            ≡ record { cells = cells; mutators = mutators; setting = setting; first = first.now }) }
        ensures seat { IfOk result (λ made. made.1
            ≡ record { table = made.0.table; me = opening_view P.opening made.0.shape }) }
    {
        let (heap, seat) = CellHeap::open(alloc, cells, mutators, setting, first)?;
        let seat = ColSeat::of(&heap, seat);
        Ok((heap, seat))
    }

    /// Splits the seat of a mutator off, that may hold so many cells at a time. The memory for them
    /// is taken here.
    pub fn split(
        &mut self,
        alloc: Global,
        heap: &CellHeap<P>,
        number: u32,
        room: u32,
    ) -> Result<MutSeat<P>, NoMemory>
        requires seat { IsSeatOf heap.now self.old }
        requires number { number < heap.now.shape.mutators }
        requires unsplit { get_elem? self.old.me.places number ≡ some places.Unsplit }
        requires room { 1 ≤ room }
        ensures left { OnOk result (self.new ≡ record self.old { me = split_view number self.old.me }) }
        ensures given { IfOk result (λ seat. seat
            ≡ record self.old { me = given_view P.opening number room self.old.me }) }
        ensures unchanged { OnErr result (self.new ≡ self.old) }
    {
        let held = HeldRoom::new(alloc, room)?;
        let seat = heap.split_off(&mut self.seat, number, room);
        Ok(MutSeat::of(seat, number, held))
    }

    /// Joins the seat of a mutator that is over: its part, its pass and its trail are this seat's
    /// from then on.
    pub fn join(&mut self, heap: &CellHeap<P>, mutator: MutSeat<P>)
        requires seat { IsSeatOf heap.now self.old }
        requires mutator { IsSeatOf heap.now mutator }
        requires over { mutator.me.presence.over ≡ true }
        ensures both { self.new ≡ record self.old { me = joined_view self.old.me mutator.me } }
    {
        let other = mutator.into_seat();
        heap.join_back(&mut self.seat, other);
    }

    /// Closes the heap: its words at that moment, with what the run was that led there, and what
    /// this seat knew of it.
    pub fn close(self, heap: CellHeap<P>) -> (Image, Passes<P>)
        requires seat { IsSeatOf heap self }
        ensures sizes { (result.0.cells ≡ heap.shape.cells) × (result.0.mutators ≡ heap.shape.mutators) }
        ensures ended { Ended P.opening P.holds P.fixed heap.shape (Unit {0}) result.0.words self.me }
        ensures shown { (ended : Ended P.opening P.holds P.fixed heap.shape (Unit {0}) result.0.words self.me)
            → Shows result.0 ended.shows.core }
        ensures passes { result.1 ≡ self.me }
    {
        let ColSeat { seat, .. } = self;
        heap.close(seat)
    }
}
