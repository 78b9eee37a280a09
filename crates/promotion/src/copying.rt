//! Copying: a raw cell is claimed, its fields are filled, and it is sealed as a record.
ghost use Rattle.std.specs.Prelude.{◌≡◌, ◌<◌, ◌≤◌, ◌+◌, All, IfErr, IfOk, OnOk, [], false, length, map, true};
ghost use Rattle.std.specs.Prelude.{None, ℕ, slice_index_or};
ghost use Rattle.cell_words.specs.Term.{null};
ghost use Rattle.core_machine.specs.declared.events.Event.TheVariants as event;
ghost use Rattle.core_machine.specs.declared.events.Found.TheVariants as finds;
ghost use Rattle.free_cells.specs.Hints.{cells_of, counts_of, queue_of};
ghost use Rattle.heap_rule.specs.Lore.{known_at};
ghost use Rattle.minor_heap.specs.Nursery.{FitsRecord, IsOrdered, Stands, field_at};
ghost use Rattle.minor_heap.specs.Spans.{AreWithin, NoneMarked};
ghost use Rattle.minor_heap.specs.Terms.{terms_of};
ghost use Rattle.minor_heap.specs.declared.fields.MinorField.TheVariants as field;
ghost use Rattle.minor_heap.specs.declared.fields.MinorRef.{MinorRef};
ghost use Rattle.mutator_events.specs.declared.values.Value.TheVariants as values;
ghost use Rattle.mutator_seat.specs.Bound.{held_cells, takes};
ghost use Rattle.mutator_seat.specs.Claims.{anything};
ghost use Rattle.mutator_seat.specs.Stretches.{Calm};
ghost use Rattle.mutator_seat.specs.Takes.{GiveAll};
ghost use Rattle.promotion.specs.Copying.{Appended, AreCopied, Copied, Grown, GrownBy, Halted, IsReady};
ghost use Rattle.promotion.specs.Copying.{copied_term, marked_count, value_of};
ghost use Rattle.promotion.specs.Hinting.{AreCopies, Hinted, IsCopy, KeepHints, hints_of};
ghost use Rattle.promotion.specs.Linking.{AreCopying};
ghost use Rattle.promotion.specs.Promoting.{Adds, ClaimsFor, knows_term};
ghost use Rattle.promotion.specs.Sharing.{ShareRecords, SharesRecord, known_terms};
ghost use Rattle.trails.specs.Claims.{FindsFull};

use free_cells::Hints;
use heap_rule::Keeping;
use minor_heap::{MinorField, MinorHeap, MinorRef, RecordSpan};
use mutator_seat::{HeapFull, Mutator, Value};
use std::marker::Brand;
use std::sync::Wait;

/// A field of a record, where the copies of older records stand at these places.
fn value_of(minor: &MinorHeap, places: &[usize], r: MinorRef, i: usize) -> Value
    requires stands { Stands minor.now.records r }
    requires older { r.number ≤ length places.now }
    requires range { i < 5 }
    ensures value { result ≡ value_of places.now (field_at minor.now.records r.number i) }
{
    match minor.field(r, i) {
        MinorField::Null => Value::Null,
        MinorField::Num(number) => Value::Num(number),
        MinorField::Minor(older) => Value::Held(places[older.number as usize]),
        MinorField::Shared(place) => Value::Held(place),
    }
}

/// Whether a raw cell gets this value by a fill. The fields of a raw cell are null already.
pub fn is_filled_in(value: Value) -> bool
    ensures null { (result ≡ false) → value ≡ values.Null }
{
    match value {
        Value::Null => false,
        Value::Num(_) | Value::Held(_) => true,
    }
}

/// Copies a record whose older ones are copied. The hint is the one that was taken for it.
fn copy_record<P: Keeping, R: Wait>(
    rt: &R,
    hints: &mut Hints<'_>,
    m: &mut Mutator<'_, P>,
    minor: &MinorHeap,
    places: &[usize],
    r: MinorRef,
    hint: Option<u32>,
) -> Result<usize, HeapFull>
    requires inside { m.old.seat.me.presence.inside ≡ true }
    requires room { length m.old.seat.me.own.held < m.old.seat.me.room }
    requires stands { Stands minor.now.records r }
    requires older { r.number ≤ length places.now }
    requires ready { (i : ℕ) → i < 5 → IsReady m.old.seat.me.known
        (value_of places.now (field_at minor.now.records r.number i)) }
    ensures got { IfOk result (λ place. Copied m.old place
        (copied_term m.old.seat.me.known places.now minor.now.records r.number) m.new) }
    ensures full { IfErr result (λ full.
        Calm (FindsFull m.old.seat.me.number m.old.seat.me.shape.cells
        full.off_duty full.began full.ended) m.old m.new) }
    ensures copies { Adds (AreCopying (length m.old.seat.me.own.held)) m.old m.new }
    ensures tries { OnOk result
        (Adds (IsCopy m.old.seat.me.number m.old.seat.me.shape.cells hint) m.old m.new) }
    ensures queue { queue_of hints.new ≡ queue_of hints.old }
    ensures takes { (counts_of hints.old).takes ≤ (counts_of hints.new).takes }
{
    match m.claim_hinted(rt, hints, hint) {
        Ok(place) => {
            for i in 0..5 {
                let value = value_of(minor, places, r, i);
                if is_filled_in(value) {
                    m.fill::<Brand>(place, i, value);
                }
            }
            m.seal_record(place);
            Ok(place)
        }
        Err(full) => Err(full),
    }
}

/// Takes a hint for each record that is marked, all of them before the first cell is claimed. Where
/// the queue is empty a record gets none.
fn take_hints<R: Wait>(
    rt: &R,
    hints: &mut Hints<'_>,
    marks: &[bool],
    span: RecordSpan,
    taken: &mut [Option<u32>],
)
    requires within { AreWithin span marks.now }
    requires marks { span.end ≤ length marks.now }
    requires room { span.end ≤ length taken.old }
    ensures taken { length taken.new ≡ length taken.old }
    ensures given { GiveAll (cells_of (queue_of hints.old)) (counts_of hints.old)
        (hints_of taken.new marks.now) }
    ensures queue { queue_of hints.new ≡ queue_of hints.old }
    ensures takes { (counts_of hints.new).takes
        ≡ (counts_of hints.old).takes + marked_count marks.now }
{
    for number in span.first..span.end {
        if marks[number as usize] {
            taken[number as usize] = hints.take(rt);
        }
    }
    hints.tell_demand(rt);
}

/// Takes a hint once more for each of these records that is marked and has none, up to the first
/// for which the queue has none.
fn take_again<R: Wait>(
    rt: &R,
    hints: &mut Hints<'_>,
    marks: &[bool],
    span: RecordSpan,
    taken: &mut [Option<u32>],
)
    requires marks { span.end ≤ length marks.now }
    requires room { span.end ≤ length taken.old }
    ensures taken { length taken.new ≡ length taken.old }
    ensures keeps { KeepHints taken.old taken.new }
    ensures queue { queue_of hints.new ≡ queue_of hints.old }
    ensures takes { (counts_of hints.old).takes ≤ (counts_of hints.new).takes }
{
    for number in span.first..span.end {
        if marks[number as usize] && taken[number as usize].is_none() {
            match hints.take(rt) {
                Some(cell) => taken[number as usize] = Some(cell),
                None => return,
            }
        }
    }
}

/// The hint of the first of these records. Where it has none, the queue was empty when its turn
/// came. Since then a claim may have waited for the collector, so hints are taken once more at one
/// go, also for the records that follow.
fn hint_for<R: Wait>(
    rt: &R,
    hints: &mut Hints<'_>,
    marks: &[bool],
    span: RecordSpan,
    taken: &mut [Option<u32>],
) -> Option<u32>
    requires some { span.first < span.end }
    requires marks { span.end ≤ length marks.now }
    requires room { span.end ≤ length taken.old }
    ensures own { result ≡ slice_index_or taken.new span.first None }
    ensures taken { length taken.new ≡ length taken.old }
    ensures keeps { KeepHints taken.old taken.new }
    ensures queue { queue_of hints.new ≡ queue_of hints.old }
    ensures takes { (counts_of hints.old).takes ≤ (counts_of hints.new).takes }
{
    if taken[span.first as usize].is_none() {
        take_again(rt, hints, marks, span, taken);
    }
    taken[span.first as usize]
}

/// Copies each record that is marked, the oldest first, with the hint that was taken for it. The
/// place of a record that is marked is then that of its copy.
pub(crate) fn copy_all<P: Keeping, R: Wait>(
    rt: &R,
    hints: &mut Hints<'_>,
    m: &mut Mutator<'_, P>,
    minor: &MinorHeap,
    marks: &[bool],
    span: RecordSpan,
    taken: &mut [Option<u32>],
    places: &mut [usize],
) -> Result<(), HeapFull>
    requires inside { m.old.seat.me.presence.inside ≡ true }
    requires room { length m.old.seat.me.own.held + length minor.now.records ≤ m.old.seat.me.room }
    requires taken { length minor.now.records ≤ length taken.old }
    requires ordered { IsOrdered 0 minor.now.records }
    requires within { AreWithin span marks.now }
    requires stands { span.end ≤ length minor.now.records }
    requires marks { length minor.now.records ≤ length marks.now }
    requires closed { (k i : ℕ) (older : MinorRef) → i < 5 → slice_index_or marks.now k false ≡ true
        → field_at minor.now.records k i ≡ field.Minor older
        → slice_index_or marks.now older.number false ≡ true }
    requires shares { (k i : ℕ) → i < 5 → slice_index_or marks.now k false ≡ true
        → SharesRecord m.old.seat.me.known (field_at minor.now.records k i) }
    requires places { length minor.now.records ≤ length places.old }
    ensures taken { length taken.new ≡ length taken.old }
    ensures places { length places.new ≡ length places.old }
    ensures grown { OnOk result (GrownBy (marked_count marks.now) m.old m.new) }
    ensures copied { OnOk result (AreCopied m.new.seat.me.known marks.now span.end places.new
        (terms_of (known_terms m.old.seat.me.known) minor.now.records)) }
    ensures full { IfErr result (λ full. Halted m.old full m.new) }
    ensures copies { Adds (AreCopying (length m.old.seat.me.own.held)) m.old m.new }
    ensures tries { OnOk result (Adds (AreCopies m.old.seat.me.number m.old.seat.me.shape.cells
        (hints_of taken.old marks.now)) m.old m.new) }
    ensures queue { queue_of hints.new ≡ queue_of hints.old }
    ensures takes { (counts_of hints.old).takes ≤ (counts_of hints.new).takes }
{
    for number in span.first..span.end {
        if marks[number as usize] {
            let r = MinorRef { number };
            let rest = RecordSpan {
                first: number,
                end: span.end,
            };
            let hint = hint_for(rt, hints, marks, rest, taken);
            match copy_record(rt, hints, m, minor, places, r, hint) {
                Ok(place) => places[number as usize] = place,
                Err(full) => return Err(full),
            }
        }
    }
    Ok(())
}

/// Copies each record that these reach. Nothing is marked before and after.
pub(crate) fn copy_reached<P: Keeping, R: Wait>(
    rt: &R,
    hints: &mut Hints<'_>,
    m: &mut Mutator<'_, P>,
    minor: &MinorHeap,
    from: &[MinorRef],
    marks: &mut [bool],
    taken: &mut [Option<u32>],
    places: &mut [usize],
) -> Result<(), HeapFull>
    requires inside { m.old.seat.me.presence.inside ≡ true }
    requires room { length m.old.seat.me.own.held + length minor.now.records ≤ m.old.seat.me.room }
    requires stand { All (Stands minor.now.records) from.now }
    requires shares { ShareRecords m.old.seat.me.known minor.now.records from.now }
    requires none { NoneMarked marks.old }
    requires marks { length minor.now.records ≤ length marks.old }
    requires taken { length minor.now.records ≤ length taken.old }
    requires places { length minor.now.records ≤ length places.old }
    ensures none_marked { NoneMarked marks.new }
    ensures marks { length marks.new ≡ length marks.old }
    ensures taken { length taken.new ≡ length taken.old }
    ensures places { length places.new ≡ length places.old }
    ensures claims { OnOk result (ClaimsFor m.old minor.now.records from.now m.new) }
    ensures grown { OnOk result (Grown anything m.old m.new) }
    ensures few { OnOk result (length m.new.seat.me.own.held ≤ length m.old.seat.me.own.held
        + length minor.now.records) }
    ensures none { OnOk result (length from.now ≡ 0 → length (held_cells m.new)
        ≡ length (held_cells m.old)) }
    ensures fit { OnOk result (0 < length from.now → length (held_cells m.old)
        ≡ length m.old.seat.me.known) }
    ensures copied { OnOk result (All (λ r.
        known_at m.new.seat.me.known (slice_index_or places.new r.number 0)
        ≡ knows_term m.old minor.now.records r) from.now) }
    ensures full { IfErr result (λ full. Halted m.old full m.new) }
    ensures copies { Adds (AreCopying (length m.old.seat.me.own.held)) m.old m.new }
    ensures hinted { OnOk result (Hinted m.old minor.now.records from.now hints.old hints.new m.new) }
    ensures queue { queue_of hints.new ≡ queue_of hints.old }
    ensures takes { (counts_of hints.old).takes ≤ (counts_of hints.new).takes }
{
    let span = minor.mark_span(from, marks);
    take_hints(rt, hints, marks, span, taken);
    let copied = copy_all(rt, hints, m, minor, marks, span, taken, places);
    span.unmark(marks);
    copied
}

/// Holds no more than the first places, if there are more.
pub(crate) fn give_back<P: Keeping>(m: &mut Mutator<'_, P>, held: usize)
    requires inside { m.old.seat.me.presence.inside ≡ true }
    requires some { 1 ≤ held }
    requires kept { held ≤ length m.old.seat.me.own.held }
    ensures same { length m.old.seat.me.own.held ≡ held → m.new ≡ m.old }
    ensures cut { held < length m.old.seat.me.own.held → m.new
        ≡ takes m.old (event.Keep m.old.seat.me.number held 0 0)
        (finds.Presence m.old.seat.me.presence) }
{
    if held < m.held_len() {
        m.cut(held);
    }
}

/// Holds the copy of each root at one more place, in their order.
pub(crate) fn hold_roots<P: Keeping>(m: &mut Mutator<'_, P>, places: &[usize], roots: &[MinorRef])
    requires inside { m.old.seat.me.presence.inside ≡ true }
    requires room { length m.old.seat.me.own.held + length roots.now ≤ m.old.seat.me.room }
    requires fit { 0 < length roots.now → length m.old.seat.me.own.held
        ≡ length m.old.seat.me.known }
    requires stand { All (λ r. r.number < length places.now) roots.now }
    requires there { All (λ r. slice_index_or places.now r.number 0 < length m.old.seat.me.own.held)
        roots.now }
    ensures appended { Appended m.old
        (map (λ r. slice_index_or (held_cells m.old) (slice_index_or places.now r.number 0) 0)
        roots.now)
        (map (λ r. known_at m.old.seat.me.known (slice_index_or places.now r.number 0)) roots.now)
        m.new }
{
    for r in roots {
        let held = m.held_len();
        m.keep(held, places[r.number as usize], 1);
    }
}
