//! The order of a name against one that is written as a text, cell by cell, up to the first byte
//! that differs. No text is built: so a search takes no memory.
ghost use Rattle.std.specs.Prelude.{◌≡◌, ◌+◌, ◌-◌, ◌≤◌, ◌++◌, ℕ, List, [], IsTrue};
ghost use Rattle.doc_tree.specs.Tree.{name_cmp};
ghost use Rattle.doc_tree.specs.Words.{is_name};
ghost use Rattle.doc_records.specs.Pool.{Later, Stands, part_term};
ghost use Rattle.doc_records.specs.Shapes.{IsChain, cells_of};
ghost use Rattle.doc_records.specs.Texts.{IsName, text_of, bytes_here};
ghost use Rattle.doc_records.specs.Words.{bytes_of, head_of};
ghost use Rattle.doc_records.specs.Orders.{order_then};

use crate::layout::{TEXT_FIRST, TEXT_REST};
use crate::pool::{Part, RecordPool};
use crate::reads::{read_number, read_part};
use crate::texts::{Cell, bytes_in, read_cell};
use crate::words::SEVENTH;
use std::cmp::Ordering;

// What is known of a name after some bytes: its order, or that it begins with them, and the rest.
#[derive(Clone, Copy)]
enum Compared<'a> {
    Decided(Ordering),
    Same(&'a [u8]),
}

#[tactic(auto, using(crate::proofs::Letters::bytes_none, crate::proofs::Letters::bytes_step))]
fn order_word<'a>(name: &'a [u8], word: u64, count: usize) -> Compared<'a>
    ensures { (more : List ℕ) → name_cmp name.now (bytes_of count word ++ more)
        ≡ order_then result more }
{
    if count == 0 {
        return Compared::Same(name);
    }
    match name {
        [] => Compared::Decided(Ordering::Less),
        [first, rest @ ..] => match first.cmp(&((word % 256) as u8)) {
            Ordering::Less => Compared::Decided(Ordering::Less),
            Ordering::Equal => order_word(rest, word / 256, count - 1),
            Ordering::Greater => Compared::Decided(Ordering::Greater),
        },
    }
}

fn order_cell<'a>(name: &'a [u8], cell: Cell) -> Compared<'a>
    ensures { (more : List ℕ) → name_cmp name.now
        (bytes_here cell.count cell.first cell.second cell.third ++ more)
        ≡ order_then result more }
{
    let first = order_word(name, cell.first, bytes_in(cell.count, 0));
    let Compared::Same(rest) = first else {
        return first;
    };
    let second = order_word(rest, cell.second, bytes_in(cell.count, 7));
    let Compared::Same(rest) = second else {
        return second;
    };
    order_word(rest, cell.third, bytes_in(cell.count, 14))
}

// The order of the name against no bytes.
fn order_end(name: &[u8]) -> Ordering
    ensures { result ≡ name_cmp name.now [] }
{
    let none: &[u8] = &[];
    name.cmp(none)
}

/// The order of the name against a text. Each of its cells but the first takes a place.
#[tactic(auto, using(crate::proofs::Chains::next))]
pub(crate) fn order_text<R: RecordPool>(records: &mut R, name: &[u8], top: Part<R::At>) -> Ordering
    requires stands { Stands (R.shown records.old) top }
    requires chain { IsChain (part_term (R.shown records.old).term top) }
    requires places { (R.shown records.old).held
        + cells_of (part_term (R.shown records.old).term top) ≤ (R.shown records.old).room }
    ensures order { result
        ≡ name_cmp name.now (text_of (part_term (R.shown records.old).term top)) }
    ensures later { Later (R.shown records.old) (R.shown records.new) }
    ensures held { (R.shown records.new).held ≤ (R.shown records.old).held
        + (cells_of (part_term (R.shown records.old).term top) - 1) }
    ensures records { (R.shown records.new).records ≡ (R.shown records.old).records }
{
    let Part::Record(at) = top else {
        return order_end(name);
    };
    let cell = read_cell(records, at);
    match order_cell(name, cell) {
        Compared::Decided(order) => order,
        Compared::Same(rest) => {
            let next = read_part(records, at, TEXT_REST);
            order_text(records, rest, next)
        }
    }
}

/// The order of the name, of which this is the head, against one that is written as a text. Where
/// names differ in their first seven bytes, or have no more, the first word tells it.
#[tactic(auto, using(crate::proofs::Rows::name_chain))]
#[inline(always)]
pub(crate) fn order_name<R: RecordPool>(
    records: &mut R,
    name: &[u8],
    head: u64,
    top: Part<R::At>,
) -> Ordering
    requires stands { Stands (R.shown records.old) top }
    requires name { IsTrue (is_name name.now) }
    requires head { head ≡ head_of name.now }
    requires written { IsName (part_term (R.shown records.old).term top) }
    requires places { (R.shown records.old).held
        + cells_of (part_term (R.shown records.old).term top) ≤ (R.shown records.old).room }
    ensures order { result
        ≡ name_cmp name.now (text_of (part_term (R.shown records.old).term top)) }
    ensures later { Later (R.shown records.old) (R.shown records.new) }
    ensures held { (R.shown records.new).held ≤ (R.shown records.old).held
        + (cells_of (part_term (R.shown records.old).term top) - 1) }
    ensures records { (R.shown records.new).records ≡ (R.shown records.old).records }
{
    let Part::Record(at) = top else {
        return order_end(name);
    };
    let theirs = read_number(records, at, TEXT_FIRST).swap_bytes();
    if head < theirs {
        Ordering::Less
    } else if head > theirs {
        Ordering::Greater
    } else if head % SEVENTH == 0 {
        Ordering::Equal
    } else {
        order_text(records, name, Part::Record(at))
    }
}
