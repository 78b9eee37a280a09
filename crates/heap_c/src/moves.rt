//! The calls that move private records, or let places go.
ghost use Rattle.std.specs.Prelude.{◌≡◌};
ghost use Rattle.heap_c.specs.Handles.{GivesCopy, Numbered, OfHandle, OfHandleOr};
ghost use Rattle.heap_c.specs.Keeps.{OnOwned};
ghost use Rattle.heap_c.specs.Moving.{MakesRoom, OnPlaces, ReleasesPlaces, SharesRoots};

use crate::codes::Code;
use crate::handle::HeapMut;
use crate::values::HeapVal;

fn release(mutator: &mut HeapMut, n: usize) -> Code
    ensures released { OfHandle (OnOwned (λ old new c. ReleasesPlaces old new n c)) mutator.old.mine
        mutator.new.mine result }
{
    match mutator.mine() {
        None => Code::NoHandle,
        Some(mine) => mine.release(n),
    }
}

fn promote(mutator: &mut HeapMut, val: HeapVal, most: usize, place: &mut usize) -> Code
    ensures promoted { OfHandleOr (place.new ≡ place.old)
        (λ old new c. GivesCopy val most place.old place.new old new c)
        mutator.old.mine mutator.new.mine result }
{
    match mutator.mine() {
        None => Code::NoHandle,
        Some(mine) => {
            let turns = mine.turns();
            match mine.promote(val, most) {
                Ok(at) => {
                    *place = turns.number(at) as usize;
                    Code::Ok
                }
                Err(code) => code,
            }
        }
    }
}

fn share(mutator: &mut HeapMut, base: usize, most: usize) -> Code
    ensures shared { OfHandle (OnPlaces base (λ old new c. SharesRoots old new base most c))
        mutator.old.mine mutator.new.mine result }
{
    match mutator.mine() {
        None => Code::NoHandle,
        Some(mine) => mine.share(base, most),
    }
}

fn reserve(mutator: &mut HeapMut, base: usize, records: u32, places: usize) -> Code
    ensures reserved { OfHandle (OnPlaces base (λ old new c. MakesRoom old new base records
        places c)) mutator.old.mine mutator.new.mine result }
{
    match mutator.mine() {
        None => Code::NoHandle,
        Some(mine) => mine.reserve(base, records, places),
    }
}

/// Keeps the first n places, and those that private records, copies and roots name.
#[unsafe(no_mangle)]
pub extern "C" fn heap_release(mutator: &mut HeapMut, n: usize) -> i32
    ensures released { Numbered result (OfHandle (OnOwned (λ old new c. ReleasesPlaces old new n c))
        mutator.old.mine mutator.new.mine) }
{
    release(mutator, n).number()
}

/// Hands out the place of the copy of a private record. It and what it leads to is copied first,
/// and at most so many records.
#[unsafe(no_mangle)]
pub extern "C" fn heap_promote(
    mutator: &mut HeapMut,
    rec: HeapVal,
    most: usize,
    place: &mut usize,
) -> i32
    ensures promoted { Numbered result (OfHandleOr (place.new ≡ place.old)
        (λ old new c. GivesCopy rec most place.old place.new old new c)
        mutator.old.mine mutator.new.mine) }
{
    promote(mutator, rec, most, place).number()
}

/// Copies private records that the roots lead to, and at most so many. Once all have been copied
/// the first `base` places are held and then the roots, and no private record is left.
#[unsafe(no_mangle)]
pub extern "C" fn heap_share(mutator: &mut HeapMut, base: usize, most: usize) -> i32
    ensures shared { Numbered result (OfHandle (OnPlaces base (λ old new c. SharesRoots old new
        base most c))
        mutator.old.mine mutator.new.mine) }
{
    share(mutator, base, most).number()
}

/// Makes room for so many more private records and places, by one step.
#[unsafe(no_mangle)]
pub extern "C" fn heap_reserve(
    mutator: &mut HeapMut,
    base: usize,
    records: u32,
    places: usize,
) -> i32
    ensures reserved { Numbered result (OfHandle (OnPlaces base (λ old new c. MakesRoom old new
        base records places c)) mutator.old.mine mutator.new.mine) }
{
    reserve(mutator, base, records, places).number()
}
