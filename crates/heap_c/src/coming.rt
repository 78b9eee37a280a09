//! Coming in, going out, answering, and leaving; and how many places a mutator has.
ghost use Rattle.std.specs.Prelude.{◌≡◌, None, pos};
ghost use Rattle.heap_c.specs.Answers.{when_in, when_out};
ghost use Rattle.heap_c.specs.Calls.{ComesIn, ReachesSafePoint};
ghost use Rattle.heap_c.specs.Keeps.{EndsAll, OnHeld, OnOwned};
ghost use Rattle.heap_c.specs.Handles.{Numbered, OfHandle, number_of, places_free, places_held};
ghost use Rattle.heap_c.specs.declared.codes.Code.TheVariants as code;

use crate::codes::Code;
use crate::handle::HeapMut;
use std::alloc::Global;

fn begin(mutator: &mut HeapMut) -> Code
    ensures begun { OfHandle (OnHeld ComesIn) mutator.old.mine mutator.new.mine result }
{
    match mutator.mine() {
        None => Code::NoHandle,
        Some(mine) => mine.begin(),
    }
}

fn end(mutator: &mut HeapMut) -> Code
    ensures answer { result ≡ when_in mutator.old.mine }
    ensures ended { OfHandle (OnOwned EndsAll) mutator.old.mine mutator.new.mine result }
{
    match mutator.mine() {
        None => Code::NoHandle,
        Some(mine) => mine.end(),
    }
}

fn answer(mutator: &mut HeapMut) -> Code
    ensures answer { result ≡ when_in mutator.old.mine }
    ensures answered { OfHandle (OnHeld ReachesSafePoint) mutator.old.mine mutator.new.mine result }
{
    match mutator.mine() {
        None => Code::NoHandle,
        Some(mine) => mine.answer(),
    }
}

/// Whether it may leave.
fn may_leave(mutator: &mut HeapMut) -> Code
    ensures answer { result ≡ when_out mutator.old.mine }
    ensures same { mutator.new.mine ≡ mutator.old.mine }
{
    match mutator.mine() {
        None => Code::NoHandle,
        Some(mine) => { if mine.is_in() { Code::IsIn } else { Code::Ok } }
    }
}

fn leave(alloc: Global, mutator: &mut HeapMut) -> Code
    ensures answer { result ≡ when_out mutator.old.mine }
    ensures gone { result ≡ code.Ok → mutator.new.mine ≡ None }
{
    let code = may_leave(mutator);
    if code == Code::Ok {
        if let Some(mine) = mutator.take(alloc) {
            Box::into_inner(mine).finish();
        }
    }
    code
}

/// Comes in. The mutator holds the anchor alone.
#[unsafe(no_mangle)]
pub extern "C" fn heap_begin(mutator: &mut HeapMut) -> i32
    ensures begun { Numbered result (OfHandle (OnHeld ComesIn) mutator.old.mine mutator.new.mine) }
{
    begin(mutator).number()
}

/// Goes out. The mutator holds nothing.
#[unsafe(no_mangle)]
pub extern "C" fn heap_end(mutator: &mut HeapMut) -> i32
    ensures ended { Numbered result (OfHandle (OnOwned EndsAll) mutator.old.mine mutator.new.mine) }
{
    end(mutator).number()
}

/// The safe point.
#[unsafe(no_mangle)]
pub extern "C" fn heap_answer(mutator: &mut HeapMut) -> i32
    ensures answered { Numbered result (OfHandle (OnHeld ReachesSafePoint) mutator.old.mine
        mutator.new.mine) }
{
    answer(mutator).number()
}

/// How many places it holds; 0 where it is out, or of a handle of nothing.
#[unsafe(no_mangle)]
pub extern "C" fn heap_held(mutator: &mut HeapMut) -> usize
    ensures held { result ≡ places_held mutator.old.mine }
{
    match mutator.mine() {
        None => 0,
        Some(mine) => { if mine.is_in() { mine.held_len() } else { 0 } }
    }
}

/// How many more it may hold; 0 where it is out, or of a handle of nothing.
#[unsafe(no_mangle)]
pub extern "C" fn heap_room(mutator: &mut HeapMut) -> usize
    ensures room { result ≡ places_free mutator.old.mine }
{
    match mutator.mine() {
        None => 0,
        Some(mine) => { if mine.is_in() { mine.room() } else { 0 } }
    }
}

/// Is over for good. The handle is one of nothing then.
#[unsafe(no_mangle)]
pub extern "C" fn heap_leave(alloc: Global, mutator: &mut HeapMut) -> i32
    ensures left { result ≡ number_of (when_out mutator.old.mine) }
    ensures gone { result ≡ pos 0 → mutator.new.mine ≡ None }
{
    leave(alloc, mutator).number()
}
