//! Private records as C names them: making one, and reading one.
ghost use Rattle.std.specs.Prelude.{◌≡◌, ◌<◌, ◌≤◌, ◌+◌, ◌*◌, IfSome, List, MatchOption};
ghost use Rattle.std.specs.Prelude.{ℕ};
ghost use Rattle.heap_c.specs.Holding.{IsOwned, owned_by};
ghost use Rattle.local_records.specs.Local.{Local};
ghost use Rattle.heap_c.specs.Records.{AreFields, CanBeFields, CanMean, FieldMeans};
ghost use Rattle.heap_c.specs.Records.{GetsAllPrivate, GetsPrivate, IsFieldVal, IsRef};
ghost use Rattle.heap_c.specs.Records.{MakesRecord, NamesRecord, kind_at, starts_of};
ghost use Rattle.minor_heap.specs.Nursery.{Stands};
ghost use Rattle.minor_heap.specs.Record.{field_of, fields_of};
ghost use Rattle.minor_heap.specs.declared.fields.MinorField.{MinorField};
ghost use Rattle.minor_heap.specs.declared.fields.MinorRef.{MinorRef};
ghost use Rattle.minor_heap.specs.declared.record.FieldKind.TheVariants as kind;

use crate::codes::Code;
use crate::rule::Rule;
use crate::turns::{NUMBERS, Turns};
use crate::values::{FIELDS, HeapVal, NULL, NUM, REC, REF, is_field};
use heap_table::CellHeap;
use local_records::{LocalRecords, NotMade};
use local_references::LocalRef;
use minor_heap::{FieldKind, MinorField, MinorRef};
use mutator_events::MutSeat;
use sorted_boxes::Sorts;

/// The private record that these bytes name.
pub(crate) fn find(local: &LocalRecords, tag: u64, n: u64) -> Option<MinorRef>
    ensures names { MatchOption result ((r : MinorRef) → NamesRecord local.now tag n r → ⊥)
        (λ r. NamesRecord local.now tag n r) }
    ensures stands { IfSome result (Stands local.now.records) }
{
    // As many records stand as a number of 32 bits tells.
    let _len = local.len();
    if tag == REC {
        local.find(LocalRef {
            turn: (n / NUMBERS) as u32,
            number: (n % NUMBERS) as u32,
        })
    } else {
        None
    }
}

/// A reference as C has it.
fn val_of_ref(r: LocalRef) -> HeapVal
    ensures tag { result.tag ≡ 3 }
    ensures n { result.n ≡ r.turn * 4294967296 + r.number }
{
    HeapVal {
        tag: REC,
        n: u64::from(r.turn) * NUMBERS + u64::from(r.number),
    }
}

/// A private record as C has it.
pub(crate) fn val_of_record(local: &LocalRecords, r: MinorRef) -> HeapVal
    ensures val { IsRef local.now result r.number }
{
    val_of_ref(local.give(r))
}

/// A field of a new record, as it is to lie.
#[derive(Clone, Copy, Drop)]
struct OneField {
    kind: FieldKind,
    word: u64,
}

/// The kind of a field with this tag.
fn kind_of(tag: u64) -> FieldKind
    requires tag { tag ≤ 3 }
    ensures kind { result ≡ kind_at tag }
{
    match tag {
        NULL => FieldKind::Null,
        NUM => FieldKind::Num,
        REF => FieldKind::Shared,
        _ => FieldKind::Minor,
    }
}

/// The place with this number as a field of a new record, if a record is held there.
#[inline(always)]
fn given_place(sorts: &Sorts, turns: Turns, n: u64) -> Option<OneField>
    ensures means { MatchOption result
        ((held : ℕ) (l : Local) (f : MinorField) → FieldMeans turns held sorts.now l 2 n f → ⊥)
        (λ g. (l : Local) → CanMean turns sorts.now l 2 n (field_of g.kind g.word)) }
{
    let Some(place) = turns.place(n) else {
        return None;
    };
    if !sorts.is_record(place) {
        return None;
    }
    Some(OneField {
        kind: FieldKind::Shared,
        word: place as u64,
    })
}

/// What these bytes are as a field of a new record, if what they name is there. By tag their number
/// counts from one of these, but for a place.
#[inline(always)]
fn given(
    local: &LocalRecords,
    sorts: &Sorts,
    turns: Turns,
    starts: &[u64; 4],
    tag: u64,
    n: u64,
) -> Option<OneField>
    requires starts { starts.now ≡ starts_of local.now.turn }
    ensures means { MatchOption result
        ((held : ℕ) (f : MinorField) → FieldMeans turns held sorts.now local.now tag n f → ⊥)
        (λ g. CanMean turns sorts.now local.now tag n (field_of g.kind g.word)) }
{
    let _ = local;
    if REC < tag {
        return None;
    }
    let start = starts[tag as usize];
    if n < start {
        return None;
    }
    if tag == REF {
        return given_place(sorts, turns, n);
    }
    Some(OneField {
        kind: kind_of(tag),
        word: n - start,
    })
}

/// Five fields of a new record, as they are to lie.
#[derive(Clone, Copy, Drop)]
struct FiveFields {
    kinds: [FieldKind; 5],
    words: [u64; 5],
}

/// What the bytes of five fields are, whose tags stand in those of a word, if what they name is
/// there.
fn laid(
    local: &LocalRecords,
    sorts: &Sorts,
    turns: Turns,
    kinds: u64,
    words: [u64; 5],
) -> Option<FiveFields>
    requires turn { turns.turn ≡ local.now.turn }
    ensures means { MatchOption result
        ((held : ℕ) (fields : List MinorField)
        → AreFields turns held sorts.now local.now kinds words fields → ⊥)
        (λ g. CanBeFields turns sorts.now local.now kinds words (fields_of g.kinds g.words)) }
{
    let start = turns.start();
    let starts = [0, 0, 0, start];
    let first = given(local, sorts, turns, &starts, kinds % 256, words[0])?;
    let second = given(local, sorts, turns, &starts, kinds / 256 % 256, words[1])?;
    let third = given(local, sorts, turns, &starts, kinds / 65536 % 256, words[2])?;
    let fourth = given(
        local,
        sorts,
        turns,
        &starts,
        kinds / 16777216 % 256,
        words[3],
    )?;
    let fifth = given(local, sorts, turns, &starts, kinds / 4294967296, words[4])?;
    Some(FiveFields {
        kinds: [first.kind, second.kind, third.kind, fourth.kind, fifth.kind],
        words: [first.word, second.word, third.word, fourth.word, fifth.word],
    })
}

/// Makes a private record of five values, whose tags stand in the bytes of a word. It moves none.
pub(crate) fn make(
    heap: &CellHeap<Rule>,
    seat: &MutSeat<Rule>,
    sorts: &Sorts,
    local: &mut LocalRecords,
    turns: Turns,
    kinds: u64,
    words: [u64; 5],
) -> Result<HeapVal, Code>
    requires owned { IsOwned heap.now seat.now sorts.now local.old }
    requires turn { turns.turn ≡ local.old.turn }
    ensures owned { IsOwned heap.now seat.now sorts.now local.new }
    ensures made { MakesRecord turns (owned_by heap.now seat.now sorts.now local.old) local.new
        kinds words result }
{
    let _ = heap;
    if !seat.is_in() {
        return Err(Code::NotIn);
    }
    let held = seat.held_len();
    let Some(laid) = laid(local, sorts, turns, kinds, words) else {
        return Err(Code::BadValue);
    };
    match local.make(laid.kinds, laid.words, held) {
        Ok(made) => Ok(val_of_ref(made)),
        Err(NotMade::Unfit) => Err(Code::BadValue),
        Err(NotMade::Full) => Err(Code::NoRecords),
        Err(NotMade::Spent) => Err(Code::Spent),
    }
}

/// A field of a private record as C has it.
fn val_of_field(local: &LocalRecords, turns: Turns, field: MinorField) -> HeapVal
    ensures val { IsFieldVal turns local.now result field }
{
    match field {
        MinorField::Null => HeapVal { tag: NULL, n: 0 },
        MinorField::Num(n) => HeapVal { tag: NUM, n },
        MinorField::Minor(r) => val_of_record(local, r),
        MinorField::Shared(place) => HeapVal {
            tag: REF,
            n: turns.number(place),
        },
    }
}

/// A field of a private record.
pub(crate) fn get(
    seat: &MutSeat<Rule>,
    local: &LocalRecords,
    turns: Turns,
    of: HeapVal,
    field: usize,
) -> Result<HeapVal, Code>
    ensures got { GetsPrivate seat.now.me.presence.inside turns local.now of field result }
{
    if !seat.is_in() {
        return Err(Code::NotIn);
    }
    let Some(r) = find(local, of.tag, of.n) else {
        return Err(Code::BadValue);
    };
    if !is_field(field) {
        return Err(Code::BadField);
    }
    Ok(val_of_field(local, turns, local.field(r, field)))
}

/// All five fields of one.
pub(crate) fn get_all(
    seat: &MutSeat<Rule>,
    local: &LocalRecords,
    turns: Turns,
    of: HeapVal,
    five: usize,
) -> Result<[HeapVal; 5], Code>
    ensures got { GetsAllPrivate seat.now.me.presence.inside turns local.now of five result }
{
    if !seat.is_in() {
        return Err(Code::NotIn);
    }
    let Some(r) = find(local, of.tag, of.n) else {
        return Err(Code::BadValue);
    };
    if five != FIELDS {
        return Err(Code::BadSize);
    }
    Ok([
        val_of_field(local, turns, local.field(r, 0)),
        val_of_field(local, turns, local.field(r, 1)),
        val_of_field(local, turns, local.field(r, 2)),
        val_of_field(local, turns, local.field(r, 3)),
        val_of_field(local, turns, local.field(r, 4)),
    ])
}
