//! The heaps of these tests: their first rows, and the seats on them.
ghost use Rattle.std.specs.Prelude.{◌≡◌, ◌<◌, ◌≤◌, IfOk, IsTrue, length, replicate};
ghost use Rattle.collector_tests.specs.Rows.{HaveTerms, chain_row, chain_rows};
ghost use Rattle.collector_tests.specs.Seats.{IsIdle, IsOut, IsOver};
ghost use Rattle.core_machine.specs.State.{greatest_cells};
ghost use Rattle.dlg_core.specs.FirstRows.{are_first_rows};
ghost use Rattle.free_cells.specs.Hints.{cells_of as hinted_of};
ghost use Rattle.free_cells.specs.Passes.{IsHintPass};
ghost use Rattle.heap_rule.specs.declared.view.Place.TheVariants as places;
ghost use Rattle.heap_table.specs.Seats.{IsSeatOf};

use cell_heap::{CellHeap, ColSeat, Image, MutSeat, NoMemory};
use cell_words::{Colour, Field, Row};
use free_cells::{FreeQueue, HintPass};
use heap_rule::NoRule;
use std::alloc::Global;
use std::sync::Wait;

/// How many cells the chain has, with the anchor.
pub(crate) const CHAIN: u32 = 1000;

/// The anchor of a heap, which names nobody.
pub(crate) const ANCHOR: Row = [
    Field::Null,
    Field::Null,
    Field::Null,
    Field::Null,
    Field::Null,
    Field::Num(2),
];

/// A record that names nobody.
pub(crate) const RECORD: Row = [
    Field::Null,
    Field::Null,
    Field::Null,
    Field::Null,
    Field::Null,
    Field::Num(1),
];

/// The row of a cell of the chain: the anchor names the last record, the first record nobody, and
/// each other one the record before it.
fn chain_row(cell: u32) -> Row
    ensures row { result ≡ chain_row cell }
{
    let null = Field::Null;
    match cell {
        0 => [
            Field::Cell(CHAIN - 1),
            null,
            null,
            null,
            null,
            Field::Num(2),
        ],
        1 => RECORD,
        _ => [Field::Cell(cell - 1), null, null, null, null, Field::Num(1)],
    }
}

/// The rows of the chain.
pub(crate) fn chain(alloc: Global) -> Result<Vec<Row>, NoMemory>
    ensures rows { IfOk result (λ rows. rows.items ≡ chain_rows) }
{
    let mut rows = Vec::new(alloc);
    for cell in 0..CHAIN {
        rows.push(chain_row(cell))?;
    }
    Ok(rows)
}

/// A heap with these first rows for so many mutators, and its collector's seat.
pub(crate) fn open(
    alloc: Global,
    cells: u32,
    mutators: u32,
    first: &[Row],
) -> Result<(CellHeap<NoRule>, ColSeat<NoRule>), NoMemory>
    requires some { 0 < cells }
    requires few { cells ≤ greatest_cells }
    requires fit { length first.now ≤ cells }
    requires rows { IsTrue (are_first_rows first.now) }
    requires terms { HaveTerms first.now }
    ensures cells { IfOk result (λ made. made.0.shape.cells ≡ cells) }
    ensures mutators { IfOk result (λ made. made.0.shape.mutators ≡ mutators) }
    ensures idle { IfOk result (λ made. IsIdle made.0 made.1) }
    ensures unsplit { IfOk result (λ made. made.1.me.places ≡ replicate mutators places.Unsplit) }
{
    ColSeat::<NoRule>::open(alloc, cells, mutators, 0, first)
}

/// A heap with these first rows for one mutator with so many places, and both seats.
fn open_one(
    alloc: Global,
    cells: u32,
    room: u32,
    first: &[Row],
) -> Result<(CellHeap<NoRule>, ColSeat<NoRule>, MutSeat<NoRule>), NoMemory>
    requires some { 0 < cells }
    requires few { cells ≤ greatest_cells }
    requires fit { length first.now ≤ cells }
    requires rows { IsTrue (are_first_rows first.now) }
    requires terms { HaveTerms first.now }
    requires room { 1 ≤ room }
    ensures cells { IfOk result (λ made. made.0.shape.cells ≡ cells) }
    ensures idle { IfOk result (λ made. IsIdle made.0 made.1) }
    ensures out { IfOk result (λ made. IsOut made.0 room made.2) }
{
    let (heap, mut collector) = open(alloc, cells, 1, first)?;
    let mutator = collector.split(alloc, &heap, 0, room)?;
    Ok((heap, collector, mutator))
}

/// A heap with the anchor alone, for one mutator.
pub(crate) fn open_plain(
    alloc: Global,
    cells: u32,
    room: u32,
) -> Result<(CellHeap<NoRule>, ColSeat<NoRule>, MutSeat<NoRule>), NoMemory>
    requires some { 0 < cells }
    requires few { cells ≤ greatest_cells }
    requires room { 1 ≤ room }
    ensures cells { IfOk result (λ made. made.0.shape.cells ≡ cells) }
    ensures idle { IfOk result (λ made. IsIdle made.0 made.1) }
    ensures out { IfOk result (λ made. IsOut made.0 room made.2) }
{
    open_one(alloc, cells, room, &[ANCHOR])
}

/// A heap of six cells, whose anchor names five records.
pub(crate) fn open_star(
    alloc: Global,
) -> Result<(CellHeap<NoRule>, ColSeat<NoRule>, MutSeat<NoRule>), NoMemory>
    ensures cells { IfOk result (λ made. made.0.shape.cells ≡ 6) }
    ensures idle { IfOk result (λ made. IsIdle made.0 made.1) }
    ensures out { IfOk result (λ made. IsOut made.0 1 made.2) }
{
    let null = Field::Null;
    let record = [null, null, null, null, null, Field::Num(1)];
    let anchor = [
        Field::Cell(1),
        Field::Cell(2),
        Field::Cell(3),
        Field::Cell(4),
        Field::Cell(5),
        Field::Num(2),
    ];
    open_one(
        alloc,
        6,
        1,
        &[anchor, record, record, record, record, record],
    )
}

/// A heap that is one chain from the anchor through all cells.
pub(crate) fn open_chain(
    alloc: Global,
) -> Result<(CellHeap<NoRule>, ColSeat<NoRule>, MutSeat<NoRule>), NoMemory>
    ensures cells { IfOk result (λ made. made.0.shape.cells ≡ 1000) }
    ensures idle { IfOk result (λ made. IsIdle made.0 made.1) }
    ensures out { IfOk result (λ made. IsOut made.0 1 made.2) }
{
    let rows = chain(alloc)?;
    open_one(alloc, CHAIN, 1, &rows)
}

/// A heap of 64 cells with an anchor and two records, for two mutators.
pub(crate) fn open_two(
    alloc: Global,
    room: u32,
) -> Result<
    (
        CellHeap<NoRule>,
        ColSeat<NoRule>,
        MutSeat<NoRule>,
        MutSeat<NoRule>,
    ),
    NoMemory,
>
    requires room { 1 ≤ room }
    ensures cells { IfOk result (λ made. made.0.shape.cells ≡ 64) }
    ensures idle { IfOk result (λ made. IsIdle made.0 made.1) }
    ensures first { IfOk result (λ made. IsOut made.0 room made.2) }
    ensures second { IfOk result (λ made. IsOut made.0 room made.3) }
{
    let (heap, mut collector) = open(alloc, 64, 2, &[ANCHOR, RECORD, RECORD])?;
    let first = collector.split(alloc, &heap, 0, room)?;
    let second = collector.split(alloc, &heap, 1, room)?;
    Ok((heap, collector, first, second))
}

/// Hints of the cells from the given one on, for two threads.
pub(crate) fn open_hints<R: Wait>(
    alloc: Global,
    rt: &R,
    cells: u32,
    first: u32,
) -> Result<(FreeQueue, HintPass, HintPass), NoMemory>
    requires cells { 0 < cells }
    requires first { first ≤ cells }
    ensures pass { IfOk result (λ made. IsHintPass made.0 made.1) }
    ensures other { IfOk result (λ made. IsHintPass made.0 made.2) }
    ensures cells { IfOk result (λ made. hinted_of made.0 ≡ cells) }
{
    let (queue, mut pass) = FreeQueue::open(alloc, rt, cells, first)?;
    let other = queue.split(&mut pass)?;
    Ok((queue, pass, other))
}

/// Joins the seat of a mutator that is over and closes the heap.
pub(crate) fn close(
    heap: CellHeap<NoRule>,
    collector: ColSeat<NoRule>,
    mutator: MutSeat<NoRule>,
) -> Image
    requires collector { IsSeatOf heap collector }
    requires mutator { IsOver heap mutator }
    ensures cells { result.cells ≡ heap.shape.cells }
{
    let mut collector = collector;
    collector.join(&heap, mutator);
    let (image, _) = collector.close(heap);
    image
}

/// Joins the seats of both mutators and closes the heap.
pub(crate) fn close_two(
    heap: CellHeap<NoRule>,
    collector: ColSeat<NoRule>,
    first: MutSeat<NoRule>,
    second: MutSeat<NoRule>,
) -> Image
    requires collector { IsSeatOf heap collector }
    requires first { IsOver heap first }
    requires second { IsOver heap second }
    ensures cells { result.cells ≡ heap.shape.cells }
{
    let mut collector = collector;
    collector.join(&heap, first);
    close(heap, collector, second)
}

/// How many cells of a closed heap are blue.
pub(crate) fn blue_cells(image: &Image) -> u32 {
    let mut blue = 0u32;
    for cell in 0..image.cells() {
        if image.colour(cell) == Colour::Blue {
            blue = blue.saturating_add(1);
        }
    }
    blue
}
