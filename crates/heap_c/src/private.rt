//! The calls of private records: what makes and reads them, and the stack of roots.
ghost use Rattle.std.specs.Prelude.{◌≡◌, ◌∷◌, []};
ghost use Rattle.heap_c.specs.Handles.{GivesAllGot, GivesGot, GivesRecord, GivesRoot, IsGiven};
ghost use Rattle.heap_c.specs.Handles.{MakesOf, Numbered, OfHandle, OfHandleOr};
ghost use Rattle.heap_c.specs.Handles.{GivesWalked, PopsOf, PushesOf, SetsOf, roots_kept};
ghost use Rattle.heap_c.specs.Keeps.{OnOwned};
ghost use Rattle.heap_c.specs.Records.{GivesRoom};

use crate::codes::Code;
use crate::handle::HeapMut;
use crate::mine::Mine;
use crate::values::{HeapVal, NONE, give_five};
use crate::walking;
use std::alloc::Global;

/// How many private records a mutator may have.
const MOST_RECORDS: u32 = 4_194_304;

/// How many roots it may have.
const MOST_ROOTS: u32 = 1_048_576;

/// Gives room for private records to a mutator.
fn give_room(alloc: Global, mine: &mut Mine, records: u32, roots: u32) -> Code
    ensures given { OnOwned (GivesRoom records roots) mine.old mine.new result }
{
    if mine.is_in() {
        return Code::IsIn;
    }
    if mine.has_records() {
        return Code::NotZero;
    }
    if records == 0 || MOST_RECORDS < records || MOST_ROOTS < roots {
        return Code::BadSize;
    }
    match mine.give_records(alloc, records, roots) {
        Ok(()) => Code::Ok,
        Err(_) => Code::NoMemory,
    }
}

fn records(alloc: Global, mutator: &mut HeapMut, records: u32, roots: u32) -> Code
    ensures given { OfHandle (OnOwned (GivesRoom records roots)) mutator.old.mine
        mutator.new.mine result }
{
    match mutator.mine() {
        None => Code::NoHandle,
        Some(mine) => give_room(alloc, mine, records, roots),
    }
}

fn new_record(mutator: &mut HeapMut, kinds: u64, words: [u64; 5]) -> Result<HeapVal, Code>
    ensures made { MakesOf kinds words mutator.old.mine mutator.new.mine result }
{
    match mutator.mine() {
        None => Err(Code::NoHandle),
        Some(mine) => mine.new_record(kinds, words),
    }
}

/// What is handed out of this: a value, or none with the code.
fn given(made: Result<HeapVal, Code>) -> HeapVal
    ensures given { IsGiven made result }
{
    match made {
        Ok(val) => val,
        Err(code) => HeapVal {
            tag: NONE,
            n: code as u64,
        },
    }
}

fn get(mutator: &mut HeapMut, of: HeapVal, field: usize, out: &mut HeapVal) -> Code
    ensures got { OfHandleOr (out.new ≡ out.old)
        (λ old new c. GivesGot of field out.old out.new old new c)
        mutator.old.mine mutator.new.mine result }
{
    match mutator.mine() {
        None => Code::NoHandle,
        Some(mine) => match mine.get(of, field) {
            Ok(val) => {
                *out = val;
                Code::Ok
            }
            Err(code) => code,
        },
    }
}

fn get_all(mutator: &mut HeapMut, of: HeapVal, out: &mut [HeapVal]) -> Code
    ensures got { OfHandleOr (out.new ≡ out.old)
        (λ old new c. GivesAllGot of out.old out.new old new c)
        mutator.old.mine mutator.new.mine result }
{
    match mutator.mine() {
        None => Code::NoHandle,
        Some(mine) => match mine.get_all(of, out.len()) {
            Ok(vals) => {
                give_five(vals, out);
                Code::Ok
            }
            Err(code) => code,
        },
    }
}

fn walk(mutator: &mut HeapMut, of: HeapVal, path: &[u8], out: &mut HeapVal) -> Code
    ensures walked { OfHandleOr (out.new ≡ out.old)
        (λ old new c. GivesWalked of path.now out.old out.new old new c)
        mutator.old.mine mutator.new.mine result }
{
    match mutator.mine() {
        None => Code::NoHandle,
        Some(mine) => match walking::walk(mine, of, path) {
            Ok(val) => {
                *out = val;
                Code::Ok
            }
            Err(code) => code,
        },
    }
}

fn push(mutator: &mut HeapMut, val: HeapVal) -> Code
    ensures pushed { OfHandle (PushesOf val)
        mutator.old.mine mutator.new.mine result }
{
    match mutator.mine() {
        None => Code::NoHandle,
        Some(mine) => mine.push(val),
    }
}

fn pop(mutator: &mut HeapMut, n: usize) -> Code
    ensures popped { OfHandle (PopsOf n)
        mutator.old.mine mutator.new.mine result }
{
    match mutator.mine() {
        None => Code::NoHandle,
        Some(mine) => mine.pop(n),
    }
}

fn root(mutator: &mut HeapMut, i: usize, out: &mut HeapVal) -> Code
    ensures told { OfHandleOr (out.new ≡ out.old)
        (λ old new c. GivesRoot i out.old out.new old new c)
        mutator.old.mine mutator.new.mine result }
{
    match mutator.mine() {
        None => Code::NoHandle,
        Some(mine) => match mine.root(i) {
            Ok(val) => {
                *out = val;
                Code::Ok
            }
            Err(code) => code,
        },
    }
}

fn set(mutator: &mut HeapMut, i: usize, val: HeapVal) -> Code
    ensures set { OfHandle (SetsOf i val)
        mutator.old.mine mutator.new.mine result }
{
    match mutator.mine() {
        None => Code::NoHandle,
        Some(mine) => mine.set(i, val),
    }
}

/// Gives a mutator that is out room for private records, and a stack for roots.
#[unsafe(no_mangle)]
pub extern "C" fn heap_records(alloc: Global, mutator: &mut HeapMut, count: u32, roots: u32) -> i32
    ensures given { Numbered result (OfHandle (OnOwned (GivesRoom count roots)) mutator.old.mine
        mutator.new.mine) }
{
    records(alloc, mutator, count, roots).number()
}

/// Makes a private record of five values, whose tags stand in the bytes of `kinds`.
#[unsafe(no_mangle)]
pub extern "C" fn heap_new(
    mutator: &mut HeapMut,
    kinds: u64,
    a: u64,
    b: u64,
    c: u64,
    d: u64,
    e: u64,
) -> HeapVal
    ensures made { GivesRecord kinds (a ∷ b ∷ c ∷ d ∷ e ∷ []) result mutator.old.mine
        mutator.new.mine }
{
    given(new_record(mutator, kinds, [a, b, c, d, e]))
}

/// Reads a field of a private record, or of the cell at a place.
#[unsafe(no_mangle)]
pub extern "C" fn heap_get(
    mutator: &mut HeapMut,
    of: HeapVal,
    field: usize,
    out: &mut HeapVal,
) -> i32
    ensures got { Numbered result (OfHandleOr (out.new ≡ out.old)
        (λ old new c. GivesGot of field out.old out.new old new c)
        mutator.old.mine mutator.new.mine) }
{
    get(mutator, of, field, out).number()
}

/// Reads all its fields.
#[unsafe(no_mangle)]
pub extern "C" fn heap_get_all(mutator: &mut HeapMut, of: HeapVal, out: &mut [HeapVal]) -> i32
    ensures got { Numbered result (OfHandleOr (out.new ≡ out.old)
        (λ old new c. GivesAllGot of out.old out.new old new c) mutator.old.mine mutator.new.mine) }
{
    get_all(mutator, of, out).number()
}

/// Reads along a path of fields, and holds of what it found the last cell alone.
#[unsafe(no_mangle)]
pub extern "C" fn heap_walk(
    mutator: &mut HeapMut,
    of: HeapVal,
    path: &[u8],
    out: &mut HeapVal,
) -> i32
    ensures walked { Numbered result (OfHandleOr (out.new ≡ out.old)
        (λ old new c. GivesWalked of path.now out.old out.new old new c)
        mutator.old.mine mutator.new.mine) }
{
    walk(mutator, of, path, out).number()
}

/// How many roots are on the stack; 0 where the mutator is out, or of a handle of nothing.
#[unsafe(no_mangle)]
pub extern "C" fn heap_roots(mutator: &mut HeapMut) -> usize
    ensures kept { result ≡ roots_kept mutator.old.mine }
{
    match mutator.mine() {
        None => 0,
        Some(mine) => mine.roots_len(),
    }
}

/// Pushes a root.
#[unsafe(no_mangle)]
pub extern "C" fn heap_push(mutator: &mut HeapMut, val: HeapVal) -> i32
    ensures pushed { Numbered result (OfHandle (PushesOf val) mutator.old.mine mutator.new.mine) }
{
    push(mutator, val).number()
}

/// Lets the newest n roots go.
#[unsafe(no_mangle)]
pub extern "C" fn heap_pop(mutator: &mut HeapMut, n: usize) -> i32
    ensures popped { Numbered result (OfHandle (PopsOf n) mutator.old.mine mutator.new.mine) }
{
    pop(mutator, n).number()
}

/// A root, counted from the oldest.
#[unsafe(no_mangle)]
pub extern "C" fn heap_root(mutator: &mut HeapMut, i: usize, out: &mut HeapVal) -> i32
    ensures told { Numbered result (OfHandleOr (out.new ≡ out.old)
        (λ old new c. GivesRoot i out.old out.new old new c) mutator.old.mine mutator.new.mine) }
{
    root(mutator, i, out).number()
}

/// Puts a root in place of another one.
#[unsafe(no_mangle)]
pub extern "C" fn heap_set(mutator: &mut HeapMut, i: usize, val: HeapVal) -> i32
    ensures set { Numbered result (OfHandle (SetsOf i val) mutator.old.mine mutator.new.mine) }
{
    set(mutator, i, val).number()
}
