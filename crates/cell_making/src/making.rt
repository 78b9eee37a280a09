//! A box or a record, from the claim of its cell to its seal.
ghost use Rattle.std.specs.Prelude.{◌≡◌, ◌<◌, ◌≤◌, IfErr, IfOk, [], false, length, true, ℕ};
ghost use Rattle.cell_making.specs.Makes.{Filled, MakesBox, MakesRecord, MayFillAll, MayName};
ghost use Rattle.cell_making.specs.Makes.{MayTerm, value_at};
ghost use Rattle.free_cells.specs.Hints.{counts_of, queue_of};
ghost use Rattle.mutator_seat.specs.Searches.{Searches, Tries};
ghost use Rattle.mutator_seat.specs.Stretches.{Calm};
ghost use Rattle.trails.specs.Claims.{FindsFull};

use free_cells::Hints;
use heap_rule::Keeping;
use mutator_seat::{HeapFull, Mutator, Value};
use promotion::is_filled_in;
use std::marker::Brand;
use std::sync::Wait;

/// Makes a box with these fields: null, numbers, and cells that are known as records or as boxes
/// which others may know. It is fresh: the rule sees it once a field of another box names it.
pub fn fill_box<P: Keeping, R: Wait>(
    rt: &R,
    hints: &mut Hints<'_>,
    m: &mut Mutator<'_, P>,
    fields: [Value; 5],
) -> Result<usize, HeapFull>
    requires inside { m.old.seat.me.presence.inside ≡ true }
    requires room { length m.old.seat.me.own.held < m.old.seat.me.room }
    requires named { (i : ℕ) → i < 5 → MayName m.old.seat.me (length m.old.seat.me.own.held)
        (value_at fields i) }
    ensures made { IfOk result (λ place. MakesBox m.old place fields m.new) }
    ensures full { IfErr result (λ full.
        Calm (FindsFull m.old.seat.me.number m.old.seat.me.shape.cells
        full.off_duty full.began full.ended) m.old m.new) }
    ensures search { Searches 1000 [] hints.old hints.new m.old m.new }
    ensures queue { queue_of hints.new ≡ queue_of hints.old }
    ensures takes { (counts_of hints.old).takes < (counts_of hints.new).takes }
{
    match m.claim(rt, hints) {
        Ok(place) => {
            fill_fields(m, place, fields);
            m.seal_box(place);
            Ok(place)
        }
        Err(full) => Err(full),
    }
}

/// Fills the fields of the cell that was claimed last. The fields of a raw cell are null already.
fn fill_fields<P: Keeping>(m: &mut Mutator<'_, P>, place: usize, fields: [Value; 5])
    requires may { MayFillAll m.old place fields }
    ensures filled { Filled m.old place fields 5 m.new }
    ensures idle { Tries [] m.old m.new }
{
    for i in 0..5 {
        if is_filled_in(fields[i]) {
            m.fill::<Brand>(place, i, fields[i]);
        }
    }
}

/// Makes a record with these fields: null, numbers, and cells that are known as records.
pub fn fill_record<P: Keeping, R: Wait>(
    rt: &R,
    hints: &mut Hints<'_>,
    m: &mut Mutator<'_, P>,
    fields: [Value; 5],
) -> Result<usize, HeapFull>
    requires inside { m.old.seat.me.presence.inside ≡ true }
    requires room { length m.old.seat.me.own.held < m.old.seat.me.room }
    requires terms { (i : ℕ) → i < 5 → MayTerm m.old.seat.me.known (value_at fields i) }
    ensures made { IfOk result (λ place. MakesRecord m.old place fields m.new) }
    ensures full { IfErr result (λ full.
        Calm (FindsFull m.old.seat.me.number m.old.seat.me.shape.cells
        full.off_duty full.began full.ended) m.old m.new) }
    ensures search { Searches 1000 [] hints.old hints.new m.old m.new }
    ensures queue { queue_of hints.new ≡ queue_of hints.old }
    ensures takes { (counts_of hints.old).takes < (counts_of hints.new).takes }
{
    match m.claim(rt, hints) {
        Ok(place) => {
            for i in 0..5 {
                let value = fields[i];
                if is_filled_in(value) {
                    m.fill::<Brand>(place, i, value);
                }
            }
            m.seal_record(place);
            Ok(place)
        }
        Err(full) => Err(full),
    }
}
