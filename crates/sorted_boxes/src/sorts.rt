//! What is held at each place: a box or a record.
ghost use Rattle.std.specs.Prelude.{◌≡◌, ◌<◌, ◌≤◌, ◌+◌, IfOk, false, length, not, slice_set, ℕ};
ghost use Rattle.std.specs.List.{CopiedTo, SameBelow};
ghost use Rattle.sorted_boxes.specs.Sorts.{holds_record, is_fit, sort_as, sort_found};
ghost use Rattle.sorted_rule.specs.Sorts.{sort_of};

use mutator_seat::Value;
pub use std::alloc::AllocError as NoMemory;
use std::alloc::Global;
use std::marker::Model;

/// By place, whether it holds a record, and how many fields of each box name boxes: the setting of
/// the heap. Room is taken once.
pub struct Sorts {
    boxes: u64,
    /// by place; the first one has the anchor
    records: Vec<bool>,
}

impl Drop for Sorts {
    fn drop(self) {
        let Sorts {
            boxes: _,
            records: _records,
        } = self;
    }
}

impl Model for Sorts {
    ghost use Rattle.sorted_boxes.specs.Sorts.{SortList};

    ghost Value = { SortList };

    ghost view = { λ s. record { boxes = s.boxes; records = s.records.items } };
}

impl Sorts {
    /// What serves a mutator that may hold so many places, on a heap with this setting. No place
    /// holds a record yet.
    pub fn with_room(alloc: Global, boxes: u64, room: usize) -> Result<Sorts, NoMemory>
        ensures boxes { IfOk result (λ sorts. sorts.boxes ≡ boxes) }
        ensures room { IfOk result (λ sorts. length sorts.records ≡ room) }
        ensures none { IfOk result (λ sorts. (place : ℕ) → holds_record sorts place ≡ false) }
    {
        Ok(Sorts {
            boxes,
            records: Vec::from_elem(alloc, false, room)?,
        })
    }

    /// Whether a record is held at a place.
    pub fn is_record(&self, place: usize) -> bool
        ensures is { result ≡ holds_record self.now place }
    {
        match self.records.get(place) {
            Some(is_record) => *is_record,
            None => false,
        }
    }

    /// Whether a cell that this field of the box or record at a place names is a record.
    pub fn finds_record(&self, place: usize, field: usize) -> bool
        ensures sort { sort_as result ≡ sort_found self.now place field }
    {
        self.is_record(place) || !names_boxes(self.boxes, place, field)
    }

    /// Whether a value may stand in this field of the box at a place: it may if it is null, a
    /// number, or a place that holds what the field names. All boxes but the anchor are alike.
    pub fn fits(&self, place: usize, field: usize, value: Value) -> bool
        ensures fits { result ≡ is_fit self.now (sort_of self.now.boxes place field) value }
    {
        match value {
            Value::Null | Value::Num(_) => true,
            Value::Held(held) => self.is_record(held) != names_boxes(self.boxes, place, field),
        }
    }

    /// A record is held at this place from now on, or a box.
    pub fn set(&mut self, place: usize, is_record: bool)
        requires there { place < length self.old.records }
        ensures set { self.new
            ≡ record self.old { records = slice_set self.old.records place is_record } }
    {
        self.records[place] = is_record;
    }

    /// The first places stay, and after them come so many from a place on.
    pub fn keep(&mut self, first: usize, place: usize, count: usize)
        requires others { place + count ≤ length self.old.records }
        requires room { first + count ≤ length self.old.records }
        ensures boxes { self.new.boxes ≡ self.old.boxes }
        ensures room { length self.new.records ≡ length self.old.records }
        ensures first { SameBelow self.old.records self.new.records first }
        ensures moved { CopiedTo self.old.records self.new.records place first count }
    {
        self.records.copy_within(place..place + count, first);
    }
}

/// Whether this field of the box at a place names boxes, where so many fields of each box do. All
/// fields of the anchor do, which is held at the first place.
pub fn names_boxes(boxes: u64, place: usize, field: usize) -> bool
    ensures sort { sort_of boxes place field ≡ sort_as (not result) }
{
    place == 0 || (field as u64) < boxes
}
