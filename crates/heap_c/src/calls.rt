//! The calls of a mutator that is in.
ghost use Rattle.std.specs.Prelude.{◌≡◌};
ghost use Rattle.heap_c.specs.Handles.{GivesAll, GivesKept, GivesNumber, GivesPlace, GivesSame};
ghost use Rattle.heap_c.specs.Handles.{GivesVal, KeepsAt, Numbered, OfHandle, OfHandleOr};
ghost use Rattle.heap_c.specs.Handles.{SwapsAt, WritesAt};

use crate::codes::Code;
use crate::handle::HeapMut;
use crate::values::{HeapVal, give_five, val_of, vals_of};

fn keep(mutator: &mut HeapMut, n: usize, place: usize, count: usize) -> Code
    ensures kept { OfHandle (KeepsAt n place count) mutator.old.mine mutator.new.mine result }
{
    match mutator.mine() {
        None => Code::NoHandle,
        Some(mine) => {
            if count == 0 {
                return mine.keep(n, 0, 0);
            }
            match mine.place(place) {
                None => Code::BadPlace,
                Some(at) => mine.keep(n, at, count),
            }
        }
    }
}

fn place(mutator: &mut HeapMut, i: usize, place: &mut usize) -> Code
    ensures told { OfHandleOr (place.new ≡ place.old)
        (λ old new c. GivesNumber i place.old place.new old new c)
        mutator.old.mine mutator.new.mine result }
{
    match mutator.mine() {
        None => Code::NoHandle,
        Some(mine) => match mine.number(i) {
            Ok(n) => {
                *place = n;
                Code::Ok
            }
            Err(code) => code,
        },
    }
}

fn make(mutator: &mut HeapMut, vals: &[HeapVal], place: &mut usize) -> Code
    ensures made { OfHandleOr (place.new ≡ place.old)
        (λ old new c. GivesPlace vals.now place.old place.new old new c)
        mutator.old.mine mutator.new.mine result }
{
    match mutator.mine() {
        None => Code::NoHandle,
        Some(mine) => {
            let turns = mine.turns();
            match mine.make(vals) {
                Ok(at) => {
                    *place = turns.number(at) as usize;
                    Code::Ok
                }
                Err(code) => code,
            }
        }
    }
}

fn make_at(mutator: &mut HeapMut, first: usize, vals: &[HeapVal], place: &mut usize) -> Code
    ensures made { OfHandleOr (place.new ≡ place.old)
        (λ old new c. GivesKept first vals.now place.old place.new old new c)
        mutator.old.mine mutator.new.mine result }
{
    match mutator.mine() {
        None => Code::NoHandle,
        Some(mine) => {
            let turns = mine.turns();
            let code = mine.make_at(first, vals);
            if code == Code::Ok {
                *place = turns.number(first) as usize;
            }
            code
        }
    }
}

fn read(mutator: &mut HeapMut, place: usize, field: usize, out: &mut HeapVal) -> Code
    ensures read { OfHandleOr (out.new ≡ out.old)
        (λ old new c. GivesVal place field out.old out.new old new c)
        mutator.old.mine mutator.new.mine result }
{
    match mutator.mine() {
        None => Code::NoHandle,
        Some(mine) => {
            let turns = mine.turns();
            match turns.place(place as u64) {
                None => Code::BadPlace,
                Some(at) => match mine.read(at, field) {
                    Ok(value) => {
                        *out = val_of(turns, value);
                        Code::Ok
                    }
                    Err(code) => code,
                },
            }
        }
    }
}

fn read_all(mutator: &mut HeapMut, place: usize, out: &mut [HeapVal]) -> Code
    ensures read { OfHandleOr (out.new ≡ out.old)
        (λ old new c. GivesAll place out.old out.new old new c)
        mutator.old.mine mutator.new.mine result }
{
    match mutator.mine() {
        None => Code::NoHandle,
        Some(mine) => {
            let turns = mine.turns();
            match turns.place(place as u64) {
                None => Code::BadPlace,
                Some(at) => match mine.read_all(at, out.len()) {
                    Ok(values) => {
                        give_five(vals_of(turns, values), out);
                        Code::Ok
                    }
                    Err(code) => code,
                },
            }
        }
    }
}

fn write(mutator: &mut HeapMut, place: usize, field: usize, val: HeapVal) -> Code
    ensures wrote { OfHandle (WritesAt place field val)
        mutator.old.mine mutator.new.mine result }
{
    match mutator.mine() {
        None => Code::NoHandle,
        Some(mine) => match mine.place(place) {
            None => Code::BadPlace,
            Some(at) => mine.write(at, field, val),
        },
    }
}

fn swap(mutator: &mut HeapMut, place: usize, field: usize, was: HeapVal, now: HeapVal) -> Code
    ensures swapped { OfHandle (SwapsAt place field was now)
        mutator.old.mine mutator.new.mine result }
{
    match mutator.mine() {
        None => Code::NoHandle,
        Some(mine) => match mine.place(place) {
            None => Code::BadPlace,
            Some(at) => mine.swap(at, field, was, now),
        },
    }
}

fn same(mutator: &mut HeapMut, one: usize, other: usize, same: &mut i32) -> Code
    ensures same { OfHandleOr (same.new ≡ same.old)
        (λ old new c. GivesSame one other same.old same.new old new c)
        mutator.old.mine mutator.new.mine result }
{
    match mutator.mine() {
        None => Code::NoHandle,
        Some(mine) => {
            let Some(first) = mine.place(one) else {
                return Code::BadPlace;
            };
            let Some(second) = mine.place(other) else {
                return Code::BadPlace;
            };
            match mine.is_same(first, second) {
                Ok(is_same) => {
                    *same = if is_same { 1 } else { 0 };
                    Code::Ok
                }
                Err(code) => code,
            }
        }
    }
}

/// Keeps the first n places, and then so many from a place on.
#[unsafe(no_mangle)]
pub extern "C" fn heap_keep(mutator: &mut HeapMut, n: usize, place: usize, count: usize) -> i32
    ensures kept { Numbered result (OfHandle (KeepsAt n place count) mutator.old.mine
        mutator.new.mine) }
{
    keep(mutator, n, place, count).number()
}

/// The number of a held place, counted from the anchor's.
#[unsafe(no_mangle)]
pub extern "C" fn heap_place(mutator: &mut HeapMut, i: usize, place: &mut usize) -> i32
    ensures told { Numbered result (OfHandleOr (place.new ≡ place.old)
        (λ old new c. GivesNumber i place.old place.new old new c)
        mutator.old.mine mutator.new.mine) }
{
    self::place(mutator, i, place).number()
}

/// Makes a cell with these values, the other fields null.
#[unsafe(no_mangle)]
pub extern "C" fn heap_make(mutator: &mut HeapMut, vals: &[HeapVal], place: &mut usize) -> i32
    ensures made { Numbered result (OfHandleOr (place.new ≡ place.old)
        (λ old new c. GivesPlace vals.now place.old place.new old new c)
        mutator.old.mine mutator.new.mine) }
{
    make(mutator, vals, place).number()
}

/// The same, and keeps the first places and the new cell alone.
#[unsafe(no_mangle)]
pub extern "C" fn heap_make_at(
    mutator: &mut HeapMut,
    keep: usize,
    vals: &[HeapVal],
    place: &mut usize,
) -> i32
    ensures made { Numbered result (OfHandleOr (place.new ≡ place.old)
        (λ old new c. GivesKept keep vals.now place.old place.new old new c)
        mutator.old.mine mutator.new.mine) }
{
    make_at(mutator, keep, vals, place).number()
}

/// Reads a field.
#[unsafe(no_mangle)]
pub extern "C" fn heap_read(
    mutator: &mut HeapMut,
    place: usize,
    field: usize,
    out: &mut HeapVal,
) -> i32
    ensures read { Numbered result (OfHandleOr (out.new ≡ out.old)
        (λ old new c. GivesVal place field out.old out.new old new c)
        mutator.old.mine mutator.new.mine) }
{
    read(mutator, place, field, out).number()
}

/// Reads all fields, one after the other.
#[unsafe(no_mangle)]
pub extern "C" fn heap_read_all(mutator: &mut HeapMut, place: usize, out: &mut [HeapVal]) -> i32
    ensures read { Numbered result (OfHandleOr (out.new ≡ out.old)
        (λ old new c. GivesAll place out.old out.new old new c)
        mutator.old.mine mutator.new.mine) }
{
    read_all(mutator, place, out).number()
}

/// Stores a value in a field, whatever stands there.
#[unsafe(no_mangle)]
pub extern "C" fn heap_write(mutator: &mut HeapMut, place: usize, field: usize, val: HeapVal) -> i32
    ensures wrote { Numbered result (OfHandle (WritesAt place field val)
        mutator.old.mine mutator.new.mine) }
{
    write(mutator, place, field, val).number()
}

/// Exchanges what a field holds for another value, if it is the expected one.
#[unsafe(no_mangle)]
pub extern "C" fn heap_swap(
    mutator: &mut HeapMut,
    place: usize,
    field: usize,
    was: HeapVal,
    now: HeapVal,
) -> i32
    ensures swapped { Numbered result (OfHandle (SwapsAt place field was now)
        mutator.old.mine mutator.new.mine) }
{
    swap(mutator, place, field, was, now).number()
}

/// Whether two places hold one cell.
#[unsafe(no_mangle)]
pub extern "C" fn heap_same(
    mutator: &mut HeapMut,
    one: usize,
    other: usize,
    is_same: &mut i32,
) -> i32
    ensures same { Numbered result (OfHandleOr (is_same.new ≡ is_same.old)
        (λ old new c. GivesSame one other is_same.old is_same.new old new c)
        mutator.old.mine mutator.new.mine) }
{
    same(mutator, one, other, is_same).number()
}
