//! Values as C has them.
ghost use Rattle.std.specs.Prelude.{◌<◌, ◌≤◌, ◌≡◌, IfSome, IsTrue, MatchOption, length};
ghost use Rattle.std.specs.Prelude.{slice_get, ℕ};
ghost use Rattle.cell_making.specs.Makes.{value_at};
ghost use Rattle.std.specs.Bool.{OnFalse, OnTrue};
ghost use Rattle.heap_c.specs.Refusing.{AreMeant, IsVal, Means, MeansAt, NoField, NoHeld};
ghost use Rattle.heap_c.specs.Refusing.{NoValue, NoValueAt};
ghost use Rattle.heap_c.specs.Turns.{NamesPlace};
ghost use Rattle.mutator_events.specs.declared.values.Value.TheVariants as values;
ghost use Rattle.sorted_boxes.specs.Sorts.{AreValues, IsValue};

use crate::turns::Turns;
use mutator_seat::Value;

/// A value in the memory of C: what it is, and its number or place.
#[repr(C)]
#[derive(Clone, Copy)]
pub struct HeapVal {
    pub(crate) tag: u64,
    pub(crate) n: u64,
}

pub(crate) const NULL: u64 = 0;

pub(crate) const NUM: u64 = 1;

pub(crate) const REF: u64 = 2;

/// A private record.
pub(crate) const REC: u64 = 3;

/// No value, but a code.
pub(crate) const NONE: u64 = 4;

/// The first place after the anchor's.
pub(crate) const FIRST: usize = 1;

/// How many fields a cell has.
pub(crate) const FIELDS: usize = 5;

/// No number is so large.
pub(crate) const NUMBERS_END: u64 = 1 << 62;

/// Whether there is this place, where so many are held.
pub(crate) fn is_place(place: usize, held: usize) -> bool
    ensures there { IsTrue result → place < held }
    ensures place { OnTrue result (place < held) }
    ensures none { OnFalse result (held ≤ place) }
{
    place < held
}

/// Whether a cell has this field.
pub(crate) fn is_field(field: usize) -> bool
    ensures there { IsTrue result → field ≤ 4 }
    ensures field { OnTrue result (field ≤ 4) }
    ensures none { OnFalse result (NoField field) }
{
    field < FIELDS
}

/// The value that this is, where so many places are held.
pub(crate) fn value_of(turns: Turns, val: HeapVal, held: usize) -> Option<Value>
    ensures good { IfSome result (λ value. IsValue held value) }
    ensures means { MatchOption result (NoValue turns held val) (λ value. Means turns held val
        value) }
{
    if val.tag == NULL {
        Some(Value::Null)
    } else if val.tag == NUM {
        if val.n < NUMBERS_END {
            Some(Value::Num(val.n))
        } else {
            None
        }
    } else if val.tag == REF {
        place_of(turns, val.n, held)
    } else {
        None
    }
}

/// The value that is a place with this number, but for the anchor's.
fn place_of(turns: Turns, n: u64, held: usize) -> Option<Value>
    ensures good { IfSome result (λ value. IsValue held value) }
    ensures place { MatchOption result (NoHeld turns held n) (λ value. (place : ℕ)
        × ((value ≡ values.Held place) × (NamesPlace turns n place
        × ((1 ≤ place) × (place < held))))) }
{
    let Some(place) = turns.place(n) else {
        return None;
    };
    if FIRST <= place && place < held {
        Some(Value::Held(place))
    } else {
        None
    }
}

/// The value at an index, or null after the last one.
fn value_at(turns: Turns, vals: &[HeapVal], index: usize, held: usize) -> Option<Value>
    ensures good { IfSome result (λ value. IsValue held value) }
    ensures means { MatchOption result (NoValueAt turns held vals.now index)
        (λ value. MeansAt turns held vals.now index value) }
{
    if index < vals.len() {
        value_of(turns, vals[index], held)
    } else {
        Some(Value::Null)
    }
}

/// The fields of a new cell, of which the first are given.
pub(crate) fn values_of(turns: Turns, vals: &[HeapVal], held: usize) -> Option<[Value; 5]>
    ensures good { IfSome result (λ values. AreValues held values) }
    ensures means { MatchOption result ((i : ℕ) × NoValueAt turns held vals.now i)
        (λ values. AreMeant turns held vals.now values) }
{
    let first = value_at(turns, vals, 0, held)?;
    let second = value_at(turns, vals, 1, held)?;
    let third = value_at(turns, vals, 2, held)?;
    let fourth = value_at(turns, vals, 3, held)?;
    let fifth = value_at(turns, vals, 4, held)?;
    Some([first, second, third, fourth, fifth])
}

/// As C has it.
pub(crate) fn val_of(turns: Turns, value: Value) -> HeapVal
    ensures val { IsVal turns result value }
{
    match value {
        Value::Null => HeapVal { tag: NULL, n: 0 },
        Value::Num(n) => HeapVal { tag: NUM, n },
        Value::Held(place) => HeapVal {
            tag: REF,
            n: turns.number(place),
        },
    }
}

/// Five values as C has them.
pub(crate) fn vals_of(turns: Turns, values: [Value; 5]) -> [HeapVal; 5]
    ensures vals { (i : ℕ) → i < 5 → MatchOption (slice_get result i) ⊥
        (λ val. IsVal turns val (value_at values i)) }
{
    [
        val_of(turns, values[0]),
        val_of(turns, values[1]),
        val_of(turns, values[2]),
        val_of(turns, values[3]),
        val_of(turns, values[4]),
    ]
}

/// Hands five values out.
pub(crate) fn give_five(vals: [HeapVal; 5], out: &mut [HeapVal])
    requires five { length out.old ≡ 5 }
    ensures given { out.new ≡ vals }
{
    out.copy_from_slice(&vals);
}
