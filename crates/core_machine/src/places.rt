//! Held lists: what a mutator holds, place by place.
ghost use Rattle.core_machine.specs.Places.{all_marked, cell_at, holds, holds_marked};
ghost use Rattle.core_machine.specs.Places.{is_marked_value, kept, mark_of, marks_stand};
ghost use Rattle.core_machine.specs.Places.{names_rightly, unmark};
ghost use Rattle.std.specs.Prelude.{length, map, take, vec_capacity, ◌≡◌, ◌+◌, ◌≤◌};

use cell_words::{Barrier, Field};

/// A place of a mutator's held list.
#[derive(Clone, Copy, Debug, PartialEq, Eq)]
pub struct Held {
    pub cell: u32,
    /// whether the mutator has marked the cell since its last look
    pub marked: bool,
}

/// The cell at a place, and the anchor past the end.
pub(crate) fn cell_at(held: &[Held], place: usize) -> u32
    ensures cell { result ≡ cell_at held.now place }
{
    if place < held.len() {
        held[place].cell
    } else {
        0
    }
}

pub(crate) fn holds(held: &[Held], cell: u32) -> bool
    ensures holds { result ≡ holds held.now cell }
{
    held.iter().any(|place| place.cell == cell)
}

pub(crate) fn holds_marked(held: &[Held], cell: u32) -> bool
    ensures holds { result ≡ holds_marked held.now cell }
{
    held.iter().any(|place| place.cell == cell && place.marked)
}

pub(crate) fn all_marked(held: &[Held]) -> bool
    ensures marked { result ≡ all_marked held.now }
{
    held.iter().all(|place| place.marked)
}

/// Whether the value may be written: null, a number that fits its word, or a held cell.
pub(crate) fn names_rightly(held: &[Held], value: Field) -> bool
    ensures rightly { result ≡ names_rightly held.now value }
{
    match value {
        Field::Null => true,
        Field::Num(number) => number < 1 << 62,
        Field::Cell(cell) => holds(held, cell),
    }
}

pub(crate) fn is_marked_value(held: &[Held], value: Field) -> bool
    ensures marked { result ≡ is_marked_value held.now value }
{
    match value {
        Field::Null | Field::Num(_) => true,
        Field::Cell(cell) => holds_marked(held, cell),
    }
}

/// Whether the marks stand that come before a write.
pub(crate) fn marks_stand(barrier: Barrier, held: &[Held], old: Field, new: Field) -> bool
    ensures stand { result ≡ marks_stand barrier held.now old new }
{
    match barrier {
        Barrier::Nothing => true,
        Barrier::Old => is_marked_value(held, old),
        Barrier::Both => is_marked_value(held, old) && is_marked_value(held, new),
    }
}

fn unmark(place: Held) -> Held
    ensures place { result ≡ unmark place }
{
    Held {
        marked: false,
        ..place
    }
}

fn mark_of(place: Held, cell: u32) -> Held
    ensures place { result ≡ mark_of cell place }
{
    if place.cell == cell {
        Held {
            marked: true,
            ..place
        }
    } else {
        place
    }
}

pub(crate) fn unmark_all(held: &mut [Held])
    ensures places { held.new ≡ map unmark held.old }
{
    for place in held.iter_mut() {
        *place = unmark(*place);
    }
}

pub(crate) fn mark_all_of(held: &mut [Held], cell: u32)
    ensures places { held.new ≡ map (mark_of cell) held.old }
{
    for place in held.iter_mut() {
        *place = mark_of(*place, cell);
    }
}

/// The first `count` places, and then the `copies` that stood from `from` on.
///
/// The copies may lie among the first places and reach past the end, so the list is first made as
/// long as it needs to be.
pub(crate) fn keep_places(held: &mut Vec<Held>, count: usize, from: usize, copies: usize)
    requires count { count ≤ length held.old.items }
    requires from { from + copies ≤ length held.old.items }
    requires capacity { count + copies ≤ vec_capacity held.old }
    ensures places { held.new.items ≡ kept held.old.items count from copies }
    ensures capacity { vec_capacity held.old ≤ vec_capacity held.new }
{
    lengthen(held, count + copies);
    held.copy_within(from..from + copies, count);
    held.truncate(count + copies);
}

/// Adds places at the end until there are so many.
fn lengthen(held: &mut Vec<Held>, len: usize)
    requires capacity { len ≤ vec_capacity held.old }
    ensures front { take (length held.old.items) held.new.items ≡ held.old.items }
    ensures long { len ≤ length held.new.items }
    ensures capacity { vec_capacity held.old ≤ vec_capacity held.new }
{
    while held.len() < len {
        held.push_reserved(Held {
            cell: 0,
            marked: false,
        });
    }
}
