//! The items that nobody took, read off the closed heap: their boxes follow the one that the anchor
//! names.
ghost use Rattle.std.specs.Prelude.{◌≡◌, ◌<◌, ◌++◌, ◌∷◌, [], IfNone, IfSome};
ghost use Rattle.std.specs.Bool.{OnTrue};
ghost use Rattle.closed_heap.specs.Words.{number_in};
ghost use Rattle.core_machine.specs.State.{State, field_of};
ghost use Rattle.heap_table.specs.Images.{Shows};
ghost use Rattle.mail_run.specs.Rest.{cell_in, item_of, rest_in, rest_of, sender_of};

use cell_heap::Image;
use cell_mailbox::Item;
use cell_words::Field;
use closed_heap::{field_at, number_of};
use run_limits::{MOST_CLIENTS, MOST_VERSIONS};

/// The number in a field of a cell; 0 if there is none.
fn number_at(image: &Image, cell: u32, i: usize) -> u64
    requires { i < 6 }
    ensures number { (s : State) → Shows image.now s → result ≡ number_in (field_of s cell i) }
{
    number_of(field_at(image, cell, i))
}

/// The cell that a field names.
fn cell_at(image: &Image, cell: u32, i: usize) -> Option<u32>
    requires { i < 6 }
    ensures named { (s : State) → Shows image.now s → result ≡ cell_in (field_of s cell i) }
{
    match field_at(image, cell, i) {
        Field::Cell(named) => Some(named),
        Field::Null | Field::Num(_) => None,
    }
}

/// The number as that of a sender, of which there are at most `MOST_CLIENTS`. 0 is nobody's.
fn sender(number: u64) -> u32
    ensures sender { result ≡ sender_of number }
{
    if number <= u64::from(MOST_CLIENTS) {
        number as u32
    } else {
        0
    }
}

/// The item of a box.
fn item_at(image: &Image, cell: u32) -> Item
    ensures item { (s : State) → Shows image.now s → result ≡ item_of s cell }
{
    Item {
        position: number_at(image, cell, 0),
        sender: sender(number_at(image, cell, 1)),
        value: number_at(image, cell, 2),
    }
}

/// Appends the items of a box and of those after it to the others, unless memory runs out.
fn follow(image: &Image, first: Option<u32>, items: &mut Vec<Item>) -> bool
    ensures rest { OnTrue result ((s : State) → Shows image.now s
        → items.new.items ≡ items.old.items ++ rest_of s MOST_VERSIONS first) }
{
    let mut at = first;
    for _box in 0..MOST_VERSIONS {
        match at {
            Some(cell) => {
                if items.push(item_at(image, cell)).is_err() {
                    return false;
                }
                at = cell_at(image, cell, 3);
            }
            None => return true,
        }
    }
    true
}

/// Appends the items that nobody took to the others, unless memory runs out.
pub(crate) fn append_rest(image: &Image, items: &mut Vec<Item>) -> bool
    ensures rest { OnTrue result ((s : State) → Shows image.now s
        → items.new.items ≡ items.old.items ++ rest_in s) }
{
    match cell_at(image, 0, 0) {
        Some(taken) => follow(image, cell_at(image, taken, 3), items),
        None => true,
    }
}
