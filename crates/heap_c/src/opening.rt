//! Opening a heap, giving out the seats of its mutators, and letting the collector's handle go.
ghost use Rattle.std.specs.Prelude.{◌≡◌, ◌<◌, ◌≤◌, IsSome, IsTrue, None, ◌↔◌};
ghost use Rattle.std.specs.Bool.{OnFalse, OnTrue};
ghost use Rattle.heap_c.specs.Handles.{Numbered, OfHandleOr, number_of};
ghost use Rattle.heap_c.specs.Seating.{Opens, Seats, StepSays, when_there};

use crate::codes::Code;
use crate::collecting::Collecting;
use crate::handle::HeapMut;
use crate::keeper::HeapCol;
use crate::rule::Rule;
use crate::sharing::Sharing;
use crate::works::{How, Works};
use cell_heap::{ColSeat, NoMemory};
use cell_words::Field;
use collector::MarkStack;
use free_blocks::FreeBlocks;
use std::alloc::Global;
use std::sync::Arc;

/// How many cells a heap may have.
const MOST_CELLS: u32 = 4_194_304;

/// How many cells may wait for a look of the collector.
const MOST_STACKED: u32 = 1_048_576;

/// How many mutators it may have.
const MOST_MUTATORS: u32 = 1_048_576;

/// How many fields of a box may name boxes: all of them.
const MOST_BOXES: u32 = 5;

/// How many places a mutator needs at least.
const LEAST_ROOM: u32 = 8;

/// Whether a heap may be opened with these sizes.
fn fits(cells: u32, mutators: u32, stack: u32, boxes: u32) -> bool
    ensures fits { IsTrue result ↔ ((0 < cells) × (cells ≤ 4194304) × (0 < mutators)
        × (mutators ≤ 1048576) × (0 < stack) × (stack ≤ 1048576) × (0 < boxes) × (boxes ≤ 5)) }
{
    0 < cells
        && cells <= MOST_CELLS
        && 0 < mutators
        && mutators <= MOST_MUTATORS
        && 0 < stack
        && stack <= MOST_STACKED
        && 0 < boxes
        && boxes <= MOST_BOXES
}

/// Where free cells may be in a new heap: anywhere but at the anchor.
fn shared(alloc: Global, cells: u32) -> Result<Arc<Sharing, Global>, NoMemory> {
    let blocks = FreeBlocks::open(alloc, cells, 1)?;
    match Arc::new(alloc, Sharing::new(blocks)) {
        Ok(sharing) => Ok(sharing),
        Err(_) => Err(NoMemory),
    }
}

/// A new heap with its collector's seat. The anchor is a box of nulls.
fn opened(
    alloc: Global,
    cells: u32,
    mutators: u32,
    stack: u32,
    boxes: u32,
) -> Result<Box<Collecting>, NoMemory>
    requires some { 0 < cells }
    requires few { cells ≤ 4194304 }
    requires some_stacked { 0 < stack }
    requires few_stacked { stack ≤ 1048576 }
    requires some_boxes { 0 < boxes }
{
    let setting = u64::from(boxes);
    let stack = MarkStack::with_room(alloc, stack)?;
    let sharing = shared(alloc, cells)?;
    let null = Field::Null;
    let anchor = [null, null, null, null, null, Field::Num(2)];
    let (heap, seat) = ColSeat::<Rule>::open(alloc, cells, mutators, setting, &[anchor])?;
    let works = Works {
        seat,
        stack,
        heard: 0,
    };
    match Arc::new(alloc, heap) {
        Ok(heap) => match Box::new(alloc, Collecting::new(heap, sharing, works, setting)) {
            Ok(made) => Ok(made),
            Err(_) => Err(NoMemory),
        },
        Err(_) => Err(NoMemory),
    }
}

/// Whether a handle owns something already.
fn has_heap(out: &mut HeapCol) -> bool
    ensures same { out.new.collecting ≡ out.old.collecting }
    ensures has { OnTrue result (IsSome out.old.collecting) }
    ensures none { OnFalse result (out.old.collecting ≡ None) }
{
    match out.collecting() {
        None => false,
        Some(keeper) => {
            let _spent = keeper.is_spent();
            true
        }
    }
}

/// The same of a mutator's.
fn has_seat(out: &mut HeapMut) -> bool
    ensures same { out.new.mine ≡ out.old.mine }
    ensures has { OnTrue result (IsSome out.old.mine) }
    ensures none { OnFalse result (out.old.mine ≡ None) }
{
    match out.mine() {
        None => false,
        Some(mine) => {
            let _inside = mine.is_in();
            true
        }
    }
}

fn open(alloc: Global, cells: u32, mutators: u32, stack: u32, boxes: u32, out: &mut HeapCol) -> Code
    ensures opened { Opens cells mutators stack boxes out.old.collecting out.new.collecting result }
{
    if has_heap(out) {
        return Code::NotZero;
    }
    if !fits(cells, mutators, stack, boxes) {
        return Code::BadSize;
    }
    match opened(alloc, cells, mutators, stack, boxes) {
        Ok(made) => {
            out.set(made);
            Code::Ok
        }
        Err(_) => Code::NoMemory,
    }
}

/// Gives the seat of the next mutator.
fn give(alloc: Global, keeper: &mut Collecting, room: u32, out: &mut HeapMut) -> Code
    ensures given { Seats room keeper.old out.old.mine out.new.mine result }
{
    if keeper.is_spent() {
        return Code::NoSeat;
    }
    if has_seat(out) {
        return Code::NotZero;
    }
    if room < LEAST_ROOM {
        return Code::BadSize;
    }
    match keeper.split(alloc, room) {
        Ok(mine) => match Box::new(alloc, mine) {
            Ok(made) => {
                out.set(made);
                Code::Ok
            }
            Err(_) => Code::NoMemory,
        },
        Err(_) => Code::NoMemory,
    }
}

fn seat(alloc: Global, col: &mut HeapCol, room: u32, out: &mut HeapMut) -> Code
    ensures given { OfHandleOr (out.new.mine ≡ out.old.mine) (λ old new c. Seats room old
        out.old.mine out.new.mine c) col.old.collecting col.new.collecting result }
{
    match col.collecting() {
        None => Code::NoHandle,
        Some(keeper) => give(alloc, keeper, room, out),
    }
}

fn close(alloc: Global, col: &mut HeapCol) -> Code
    ensures closed { result ≡ when_there col.old.collecting }
    ensures gone { col.new.collecting ≡ None }
{
    match col.take(alloc) {
        None => Code::NoHandle,
        Some(mut keeper) => {
            keeper.set_duty(false);
            Code::Ok
        }
    }
}

fn step(col: &mut HeapCol, moves: u32, how: &mut i32) -> Code
    ensures stepped { StepSays col.old.collecting result }
{
    match col.collecting() {
        None => Code::NoHandle,
        Some(keeper) => {
            *how = match keeper.step(moves) {
                How::More => 0,
                How::Asks => 1,
                How::Ended => 2,
                How::Spent => {
                    keeper.set_duty(false);
                    return Code::Spent;
                }
            };
            Code::Ok
        }
    }
}

fn duty(col: &mut HeapCol, on: i32) -> Code
    ensures told { result ≡ when_there col.old.collecting }
{
    match col.collecting() {
        None => Code::NoHandle,
        Some(keeper) => {
            keeper.set_duty(on != 0);
            Code::Ok
        }
    }
}

/// Opens a heap into the collector's handle: 1 to 4,194,304 cells, at least one mutator, a stack of
/// 1 to 1,048,576 cells. What the handle owned is let go.
#[unsafe(no_mangle)]
pub extern "C" fn heap_open(
    alloc: Global,
    cells: u32,
    mutators: u32,
    stack: u32,
    boxes: u32,
    out: &mut HeapCol,
) -> i32
    ensures opened { Numbered result (Opens cells mutators stack boxes out.old.collecting
        out.new.collecting) }
{
    open(alloc, cells, mutators, stack, boxes, out).number()
}

/// Gives the seat of the next mutator, which is out, with room for so many places.
#[unsafe(no_mangle)]
pub extern "C" fn heap_seat(alloc: Global, col: &mut HeapCol, room: u32, out: &mut HeapMut) -> i32
    ensures given { Numbered result (OfHandleOr (out.new.mine ≡ out.old.mine) (λ old new c. Seats
        room old out.old.mine out.new.mine c) col.old.collecting col.new.collecting) }
{
    seat(alloc, col, room, out).number()
}

/// Lets go what the collector's handle owns. The heap goes with the last handle.
#[unsafe(no_mangle)]
pub extern "C" fn heap_close(alloc: Global, col: &mut HeapCol) -> i32
    ensures closed { result ≡ number_of (when_there col.old.collecting) }
    ensures gone { col.new.collecting ≡ None }
{
    close(alloc, col).number()
}

/// Makes at most so many moves of the collector.
#[unsafe(no_mangle)]
pub extern "C" fn heap_step(col: &mut HeapCol, moves: u32, how: &mut i32) -> i32
    ensures stepped { Numbered result (StepSays col.old.collecting) }
{
    step(col, moves, how).number()
}

/// Goes on duty, or off.
#[unsafe(no_mangle)]
pub extern "C" fn heap_duty(col: &mut HeapCol, on: i32) -> i32
    ensures told { result ≡ number_of (when_there col.old.collecting) }
{
    duty(col, on).number()
}
