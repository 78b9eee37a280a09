//! The calls of promotion on the two records, and those that make a cell, by a mutator that holds
//! only the anchor.
ghost use Rattle.std.specs.Prelude.{◌≡◌, ◌<◌, ◌∷◌, IfErr, OnErr, [], length, true};
ghost use Rattle.heap_rule.specs.Asks.{known_of};
ghost use Rattle.held_places.specs.Calls.{settled};
ghost use Rattle.heap_rule.specs.declared.known.Known.TheVariants as knows;
ghost use Rattle.promotion_tests.specs.Two.{two};

use cell_making::{fill_box, fill_record};
use free_cells::Hints;
use heap_rule::NoRule;
use minor_heap::{MinorHeap, MinorRef};
use mutator_seat::{HeapFull, Mutator, Value};
use promotion::Promoter;
use std::marker::Brand;
use std::sync::Wait;

/// Promotes the record that names the other.
pub(crate) fn promote_second<R: Wait>(
    rt: &R,
    hints: &mut Hints<'_>,
    m: &mut Mutator<'_, NoRule>,
    promoter: &mut Promoter,
    minor: &MinorHeap,
) -> Result<usize, HeapFull>
    requires inside { m.old.seat.me.presence.inside ≡ true }
    requires held { length m.old.seat.me.own.held ≡ 1 }
    requires known { m.old.seat.me.known ≡ knows.Nothing ∷ [] }
    requires room { m.old.seat.me.room ≡ 8 }
    requires promoter { promoter.old ≡ 2 }
    requires records { minor.now.records ≡ two }
    ensures heap { m.new.heap ≡ m.old.heap }
    ensures inside { m.new.seat.me.presence.inside ≡ true }
{
    promoter.promote(rt, hints, m, minor, MinorRef { number: 1 })
}

/// Collects with these roots, which are in the private heap; the copies are held after the anchor.
pub(crate) fn collect_roots<R: Wait>(
    rt: &R,
    hints: &mut Hints<'_>,
    m: &mut Mutator<'_, NoRule>,
    promoter: &mut Promoter,
    minor: &mut MinorHeap,
) -> Result<usize, HeapFull>
    requires inside { m.old.seat.me.presence.inside ≡ true }
    requires held { length m.old.seat.me.own.held ≡ 1 }
    requires known { m.old.seat.me.known ≡ knows.Nothing ∷ [] }
    requires room { m.old.seat.me.room ≡ 8 }
    requires promoter { promoter.old ≡ 2 }
    requires records { minor.old.records ≡ two }
    ensures heap { m.new.heap ≡ m.old.heap }
    ensures inside { m.new.seat.me.presence.inside ≡ true }
{
    let older = MinorRef { number: 0 };
    let newer = MinorRef { number: 1 };
    promoter.collect(rt, hints, m, minor, &[newer, older, newer], 1)
}

/// Makes a record with the number 5, and a box with the number 7 that names it.
pub(crate) fn make_both<R: Wait>(
    rt: &R,
    hints: &mut Hints<'_>,
    m: &mut Mutator<'_, NoRule>,
) -> Result<usize, HeapFull>
    requires inside { m.old.seat.me.presence.inside ≡ true }
    requires held { length m.old.seat.me.own.held ≡ 1 }
    requires room { m.old.seat.me.room ≡ 8 }
    ensures heap { m.new.heap ≡ m.old.heap }
    ensures inside { m.new.seat.me.presence.inside ≡ true }
{
    let null = Value::Null;
    match fill_record(rt, hints, m, [Value::Num(5), null, null, null, null]) {
        Ok(place) => name_it(rt, hints, m, place),
        Err(full) => Err(full),
    }
}

/// The box.
fn name_it<R: Wait>(
    rt: &R,
    hints: &mut Hints<'_>,
    m: &mut Mutator<'_, NoRule>,
    place: usize,
) -> Result<usize, HeapFull>
    requires inside { m.old.seat.me.presence.inside ≡ true }
    requires room { length m.old.seat.me.own.held < m.old.seat.me.room }
    requires there { place < length m.old.seat.me.own.held }
    requires record { settled (known_of m.old.seat.me place) ≡ true }
    ensures heap { m.new.heap ≡ m.old.heap }
    ensures inside { m.new.seat.me.presence.inside ≡ true }
{
    let null = Value::Null;
    fill_box(
        rt,
        hints,
        m,
        [Value::Num(7), Value::Held(place), null, null, null],
    )
}

/// The first field of the cell at a place, where there is such a place, and room for what it names.
fn first_field(m: &mut Mutator<'_, NoRule>, place: usize) -> Option<Value>
    requires inside { m.old.seat.me.presence.inside ≡ true }
    ensures heap { m.new.heap ≡ m.old.heap }
    ensures inside { m.new.seat.me.presence.inside ≡ true }
{
    if place < m.held_len() && m.room() > 0 {
        Some(m.read::<Brand>(place, 0))
    } else {
        None
    }
}

/// The first fields of the three cells after the anchor.
pub(crate) fn first_fields(m: &mut Mutator<'_, NoRule>) -> [Option<Value>; 3]
    requires inside { m.old.seat.me.presence.inside ≡ true }
    ensures heap { m.new.heap ≡ m.old.heap }
    ensures inside { m.new.seat.me.presence.inside ≡ true }
{
    [first_field(m, 1), first_field(m, 2), first_field(m, 3)]
}
