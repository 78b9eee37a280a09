//! What is kept: a record of a number is made, put into the box, and taken out of it.
//!
//! Both writes are exchanges. The rule ties the field to the pass of the first mutator, which no
//! other mutator changes: where nothing is kept the field is null, so the exchange of null for the
//! record always succeeds. The rule fixes the term of a record and not its cell. So taking it out
//! may fail, as far as is proved, and then it is still kept.
ghost use Rattle.std.specs.Prelude.{◌≡◌, ◌<◌, [], None, Some};
ghost use Rattle.std.specs.Bool.{OnFalse, OnTrue};
ghost use Rattle.example_root.specs.Holding.{Has, HoldsBox, HoldsRecord, HoldsSome};
ghost use Rattle.cell_making.specs.Resting.{Loose};
ghost use Rattle.held_places.specs.Calls.{Goes};

use crate::kept::Kept;
use cell_making::fill_record;
use free_cells::Hints;
use mutator_seat::{Mutator, Value};
use std::marker::Brand;
use std::sync::Wait;

/// Makes the record of a number, held after the box. It fails where the heap is full.
pub(crate) fn make_record<R: Wait>(
    rt: &R,
    hints: &mut Hints<'_>,
    m: &mut Mutator<'_, Kept>,
    number: u64,
) -> bool
    requires holds { HoldsBox m.old }
    requires small { number < 1000000 }
    ensures made { OnTrue result (HoldsRecord number m.new) }
    ensures none { OnFalse result (Loose 8 m.new) }
    ensures same { Has m.old.seat.me.pass.number m.old m.new }
{
    let fields = [
        Value::Num(number),
        Value::Null,
        Value::Null,
        Value::Null,
        Value::Null,
    ];
    match fill_record(rt, hints, m, fields) {
        Ok(_) => true,
        Err(_) => false,
    }
}

/// Keeps the record that is held after the box: from now on the anchor leads to it.
pub(crate) fn keep(m: &mut Mutator<'_, Kept>, number: u64)
    requires holds { HoldsRecord number m.old }
    requires first { m.old.seat.me.number ≡ 0 }
    requires empty { m.old.seat.me.pass.number ≡ None }
    ensures loose { Loose 8 m.new }
    ensures kept { Has (Some number) m.old m.new }
{
    let _ = number;
    match m.update::<Brand>(1, 0, Value::Null, Value::Held(2)) {
        Ok(()) => (),
        Err(_) => unreachable!(),
    }
}

/// Takes the record that is held after the box out of the box: what is kept for ever is never
/// freed.
pub(crate) fn forget(m: &mut Mutator<'_, Kept>) -> bool
    requires holds { HoldsSome m.old }
    requires first { m.old.seat.me.number ≡ 0 }
    ensures loose { Loose 8 m.new }
    ensures gone { OnTrue result (Has None m.old m.new) }
    ensures kept { OnFalse result (Has m.old.seat.me.pass.number m.old m.new) }
    ensures goes { Goes [] m.old m.new }
{
    match m.update::<Brand>(1, 0, Value::Held(2), Value::Null) {
        Ok(()) => true,
        Err(_) => false,
    }
}
