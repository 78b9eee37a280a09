//! What a closed heap shows: the list that its anchor leads to.
ghost use Rattle.std.specs.Prelude.{◌<◌, ◌≤◌};

use cell_heap::Image;
use cell_words::{Colour, Field};
use closed_heap::{field_at, number_of};

/// How many nodes the list has.
pub(crate) fn count_nodes(image: &Image) -> u64
    ensures few { result ≤ 4294967295 }
{
    let mut at = field_at(image, 0, 0);
    let mut nodes = 0;
    for _seen in 0..image.cells() {
        let Field::Cell(node) = at else {
            return nodes;
        };
        at = field_at(image, node, 1);
        nodes += 1;
    }
    nodes
}

/// How many cells are not free.
pub(crate) fn count_used(image: &Image) -> u64 {
    let mut used = 0;
    for cell in 0..image.cells() {
        if image.colour(cell) != Colour::Blue {
            used += 1;
        }
    }
    used
}

/// The number in a field of the record that a node names.
fn number_at(image: &Image, node: u32, i: usize) -> u64
    requires { i < 6 }
{
    match field_at(image, node, 0) {
        Field::Cell(record) => number_of(field_at(image, record, i)),
        Field::Null | Field::Num(_) => u64::MAX,
    }
}

/// Whether the list has of each thread as many nodes as this says, in their order.
pub(crate) fn has_all(image: &Image, pushed: &[u64]) -> bool {
    for (number, count) in pushed.iter().enumerate() {
        if !has_pushed(image, number as u64, *count) {
            return false;
        }
    }
    true
}

/// Whether the list has so many nodes of this thread, and the last that it pushed comes first.
fn has_pushed(image: &Image, number: u64, pushed: u64) -> bool {
    let mut at = field_at(image, 0, 0);
    let mut left = pushed;
    for _seen in 0..image.cells() {
        let Field::Cell(node) = at else {
            return left == 0;
        };
        if number_at(image, node, 0) == number {
            if left == 0 || number_at(image, node, 1) != left - 1 {
                return false;
            }
            left -= 1;
        }
        at = field_at(image, node, 1);
    }
    left == 0
}
