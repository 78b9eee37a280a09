//! A record as it lies in memory.
//!
//! The kinds and the words of the five fields stand apart, so that a record takes 48 bytes. Five
//! fields as they are would take 80.
ghost use Rattle.std.specs.Prelude.{◌≡◌, ◌<◌, ◌↔◌, ◌^◌, length, slice_index_or, true};
ghost use Rattle.minor_heap.specs.declared.fields.MinorField.TheVariants as field;
ghost use Rattle.minor_heap.specs.Record.{AreNumbered, IsNumbered, IsWithin, field_of};
ghost use Rattle.minor_heap.specs.Record.{fields_of, kind_of, word_of};

use crate::fields::{MinorField, MinorRef};
use std::marker::Model;

/// Which of the four a field is.
#[derive(Clone, Copy, Debug, PartialEq, Eq)]
pub enum FieldKind {
    Null,
    Num,
    Shared,
    Minor,
}

const _: () = prove!(size_of::<Record>() <= 48);

/// Five fields.
#[derive(Drop)]
pub struct Record {
    kinds: [FieldKind; 5],
    words: [u64; 5],
}

impl Model for Record {
    ghost use Rattle.std.specs.Prelude.{List};
    ghost use Rattle.minor_heap.specs.declared.fields.MinorField.{MinorField};
    ghost use Rattle.minor_heap.specs.Record.{fields_of, IsPacked};

    ghost Value = { List MinorField };

    ghost view = { λ r. fields_of r.kinds r.words };

    ghost invariant = { λ r. IsPacked r.kinds r.words };
}

impl Record {
    pub fn new(fields: &[MinorField]) -> Record
        requires five { length fields.now ≡ 5 }
        ensures fields { result ≡ fields.now }
    {
        Record {
            kinds: [
                kind(fields[0]),
                kind(fields[1]),
                kind(fields[2]),
                kind(fields[3]),
                kind(fields[4]),
            ],
            words: [
                word(fields[0]),
                word(fields[1]),
                word(fields[2]),
                word(fields[3]),
                word(fields[4]),
            ],
        }
    }

    /// Five fields by their kinds and words, as they lie.
    pub fn of_words(kinds: [FieldKind; 5], words: [u64; 5]) -> Record
        requires numbered { AreNumbered kinds words }
        ensures fields { result ≡ fields_of kinds words }
    {
        Record { kinds, words }
    }

    pub fn field(&self, i: usize) -> MinorField
        requires range { i < 5 }
        ensures field { result ≡ slice_index_or self.now i field.Null }
    {
        unpacked(self.kinds[i], self.words[i])
    }
}

fn kind(field: MinorField) -> FieldKind
    ensures kind { result ≡ kind_of field }
{
    match field {
        MinorField::Null => FieldKind::Null,
        MinorField::Num(_) => FieldKind::Num,
        MinorField::Minor(_) => FieldKind::Minor,
        MinorField::Shared(_) => FieldKind::Shared,
    }
}

fn word(field: MinorField) -> u64
    ensures word { result ≡ word_of field }
    ensures numbered { IsNumbered (kind_of field) result }
{
    match field {
        MinorField::Null => 0,
        MinorField::Num(number) => number,
        MinorField::Minor(older) => u64::from(older.number),
        MinorField::Shared(place) => place as u64,
    }
}

/// Whether a field may be a record's. A word, but that of a null, has to be below the number that
/// stands for its kind. It takes no branch by kind, since a program makes many records.
pub fn is_within(kind: FieldKind, word: u64, ends: &[u64; 4]) -> bool
    requires numbers { slice_index_or ends.now 1 0 ≡ 2 ^ 62 }
    ensures within { (result ≡ true) ↔ IsWithin (slice_index_or ends.now 3 0)
        (slice_index_or ends.now 2 0) (field_of kind word) }
{
    kind == FieldKind::Null || word < ends[kind as usize]
}

fn unpacked(kind: FieldKind, word: u64) -> MinorField
    requires numbered { IsNumbered kind word }
    ensures field { result ≡ field_of kind word }
{
    match kind {
        FieldKind::Null => MinorField::Null,
        FieldKind::Num => MinorField::Num(word),
        FieldKind::Minor => MinorField::Minor(MinorRef {
            number: word as u32,
        }),
        FieldKind::Shared => MinorField::Shared(word as usize),
    }
}
