//! Coming in, going out, and what a mutator finds from the anchor on: the box, the record that is
//! kept in it, and the number of that.
ghost use Rattle.std.specs.Prelude.{◌≡◌, ◌∷◌, [], None, Some, ℕ};
ghost use Rattle.cell_words.specs.declared.fields.Field.TheVariants as field;
ghost use Rattle.heap_rule.specs.Asks.{target};
ghost use Rattle.held_places.specs.Calls.{Goes};
ghost use Rattle.mutator_threads.specs.Mutators.{IsNew};
ghost use Rattle.trails.specs.Asks.{gave_at};
ghost use Rattle.example_root.specs.Holding.{Has, HoldsBox, HoldsRecord, HoldsSome, IsDone};
ghost use Rattle.example_root.specs.Holding.{KeepsSome};
ghost use Rattle.example_root.specs.ReadBack.{EndsTrail, ReadsBox};
ghost use Rattle.cell_making.specs.Resting.{Loose, Rests};

use crate::kept::Kept;
use heap_table::CellHeap;
use mutator_seat::{MutSeat, Mutator, Value};
use std::marker::Brand;

/// The mutator of the seat, in.
pub(crate) fn come_in<'a>(heap: &'a CellHeap<Kept>, seat: MutSeat<Kept>) -> Mutator<'a, Kept>
    requires new { IsNew heap.now seat.me.number 8 (record { number = None }) seat }
    ensures rests { Rests 8 result }
    ensures heap { result.heap ≡ heap.now }
    ensures number { result.seat.me.number ≡ seat.me.number }
    ensures pass { result.seat.me.pass ≡ seat.me.pass }
{
    let mut m = Mutator::new(heap, seat);
    m.begin();
    m
}

/// The mutator goes out and is over.
pub(crate) fn leave(m: Mutator<'_, Kept>) -> MutSeat<Kept>
    requires rests { Rests 8 m }
    ensures done { IsDone m.entry.heap m.entry.seat.me.number m.entry.seat.me.pass.number result }
    ensures trail { EndsTrail m.entry result }
{
    let mut m = m;
    m.end();
    m.finish()
}

/// Holds only the anchor.
pub(crate) fn let_go(m: &mut Mutator<'_, Kept>)
    requires loose { Loose 8 m.old }
    ensures rests { Rests 8 m.new }
    ensures same { Has m.old.seat.me.pass.number m.old m.new }
    ensures goes { Goes [] m.old m.new }
{
    m.cut(1);
}

/// Holds the box after the anchor.
pub(crate) fn hold_box(m: &mut Mutator<'_, Kept>)
    requires rests { Rests 8 m.old }
    ensures found { HoldsBox m.new }
    ensures same { Has m.old.seat.me.pass.number m.old m.new }
    ensures reads { Goes (gave_at 0 0 (field.Cell 1) ∷ []) m.old m.new }
{
    let _ = m.read::<Brand>(0, 0);
}

/// Holds the record that is kept in the box, after the box.
pub(crate) fn hold_kept(m: &mut Mutator<'_, Kept>)
    requires holds { HoldsBox m.old }
    requires first { m.old.seat.me.number ≡ 0 }
    requires keeps { KeepsSome m.old }
    ensures found { (n : ℕ) → m.old.seat.me.pass.number ≡ Some n → HoldsRecord n m.new }
    ensures same { Has m.old.seat.me.pass.number m.old m.new }
    ensures reads { ReadsBox m.old m.new }
{
    let _ = m.read::<Brand>(1, 0);
}

/// The number of the record that is held after the box.
pub(crate) fn read_number(m: &mut Mutator<'_, Kept>) -> u64
    requires holds { HoldsSome m.old }
    ensures number { (n : ℕ) → HoldsRecord n m.old → result ≡ n }
    ensures holds { HoldsRecord result m.new }
    ensures same { Has m.old.seat.me.pass.number m.old m.new }
    ensures reads { Goes (gave_at (target m.old.seat.me 2) 0 (field.Num result) ∷ []) m.old m.new }
{
    match m.read::<Brand>(2, 0) {
        Value::Num(number) => number,
        Value::Null | Value::Held(_) => unreachable!(),
    }
}
