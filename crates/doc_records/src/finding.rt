//! The child of a name.
ghost use Rattle.std.specs.Prelude.{◌≡◌, ◌+◌, ◌*◌, ◌≤◌, ◌<◌, ℕ, true};
ghost use Rattle.std.specs.Option.{ForSome, option_map};
ghost use Rattle.cell_words.specs.Term.{part, IsFive};
ghost use Rattle.doc_tree.specs.Tree.{child as child_of_name, name_cmp, IsRising};
ghost use Rattle.kids_avl.specs.Entries.{height_of, kids_of};
ghost use Rattle.doc_records.specs.Pool.{Later, Stands, IsOn, PartOn, part_term};
ghost use Rattle.doc_records.specs.Pool.{is_shared, places_found};
ghost use Rattle.doc_records.specs.Texts.{text_of};
ghost use Rattle.doc_records.specs.Trees.{AreEntries, IsNodeAt, IsTreeNode, entries_of};
ghost use Rattle.doc_records.specs.Trees.{tree_of};
ghost use Rattle.doc_records.specs.Words.{head_of};

use crate::bounds::CHILD_PLACES;
use crate::layout::{ENTRY_CHILD, ENTRY_LEFT, ENTRY_NAME, ENTRY_RIGHT, NODE_ENTRIES};
use crate::orders::order_name;
use crate::pool::{Part, RecordPool};
use crate::reads::read_part;
use crate::words::head;
use doc_tree::Name;
use std::cmp::Ordering;

/// The order of the name against an entry's.
#[tactic(auto, using(crate::proofs::Rows::entry_name, crate::proofs::Rows::name_chain, crate::proofs::Rows::name_cells))]
#[inline(always)]
pub fn order_entry<R: RecordPool>(records: &mut R, at: R::At, name: &Name) -> Ordering
    requires stands { (R.shown records.old).stands (R.shown records.old).held at }
    requires five { IsFive ((R.shown records.old).term at) }
    requires entry { AreEntries ((R.shown records.old).term at) }
    requires places { (R.shown records.old).held + 5 ≤ (R.shown records.old).room }
    ensures order { result ≡ name_cmp name.now (text_of (part 0 ((R.shown records.old).term at))) }
    ensures later { Later (R.shown records.old) (R.shown records.new) }
    ensures held { (R.shown records.new).held ≤ (R.shown records.old).held + 4 }
    ensures records { (R.shown records.new).records ≡ (R.shown records.old).records }
{
    order_by_head(records, at, name, head(name.bytes()))
}

/// The same by the head of the name.
#[tactic(auto, using(crate::proofs::Rows::entry_name, crate::proofs::Rows::name_chain, crate::proofs::Rows::name_cells))]
#[inline(always)]
pub(crate) fn order_by_head<R: RecordPool>(
    records: &mut R,
    at: R::At,
    name: &Name,
    head: u64,
) -> Ordering
    requires stands { (R.shown records.old).stands (R.shown records.old).held at }
    requires five { IsFive ((R.shown records.old).term at) }
    requires entry { AreEntries ((R.shown records.old).term at) }
    requires places { (R.shown records.old).held + 5 ≤ (R.shown records.old).room }
    requires head { head ≡ head_of name.now }
    ensures order { result ≡ name_cmp name.now (text_of (part 0 ((R.shown records.old).term at))) }
    ensures later { Later (R.shown records.old) (R.shown records.new) }
    ensures held { (R.shown records.new).held ≤ (R.shown records.old).held + 4 }
    ensures records { (R.shown records.new).records ≡ (R.shown records.old).records }
{
    let written = read_part(records, at, ENTRY_NAME);
    order_name(records, name.bytes(), head, written)
}

/// The child of an entry.
#[tactic(auto, using(crate::proofs::Rows::entry_child, crate::proofs::Rows::no_child, crate::proofs::Rows::num_child))]
#[inline(always)]
pub fn entry_child<R: RecordPool>(records: &mut R, at: R::At) -> R::At
    requires stands { (R.shown records.old).stands (R.shown records.old).held at }
    requires five { IsFive ((R.shown records.old).term at) }
    requires entry { AreEntries ((R.shown records.old).term at) }
    requires places { (R.shown records.old).held + 1 ≤ (R.shown records.old).room }
    ensures term { (R.shown records.new).term result ≡ part 1 ((R.shown records.old).term at) }
    ensures stands { IsNodeAt (R.shown records.new) result }
    ensures shared { R.shared at ≡ true → R.shared result ≡ true }
    ensures on { (places : ℕ) → places ≤ (R.shown records.old).held
        → IsOn R.shared (R.shown records.old) places at
        → IsOn R.shared (R.shown records.new) places result }
    ensures later { Later (R.shown records.old) (R.shown records.new) }
    ensures held { (R.shown records.new).held ≤ (R.shown records.old).held + 1 }
    ensures records { (R.shown records.new).records ≡ (R.shown records.old).records }
{
    match read_part(records, at, ENTRY_CHILD) {
        Part::Record(child) => child,
        Part::Null => unreachable!(),
        Part::Num(_) => unreachable!(),
    }
}

// The child of that name under an entry, or none. Each level takes five places at most.
#[tactic(auto, using(crate::proofs::Rows::finding, crate::proofs::Rows::entry_left, crate::proofs::Rows::entry_right))]
fn find_under<R: RecordPool>(
    records: &mut R,
    top: Part<R::At>,
    name: &Name,
    head: u64,
) -> Option<R::At>
    requires stands { Stands (R.shown records.old) top }
    requires entries { AreEntries (part_term (R.shown records.old).term top) }
    requires rising { IsRising (kids_of (entries_of (part_term (R.shown records.old).term top))) }
    requires places { (R.shown records.old).held + 5 * height_of (entries_of
        (part_term (R.shown records.old).term top)) + 1 ≤ (R.shown records.old).room }
    requires head { head ≡ head_of name.now }
    ensures child { option_map (λ at. tree_of ((R.shown records.new).term at)) result
        ≡ child_of_name name.now (kids_of (entries_of (part_term (R.shown records.old).term top))) }
    ensures stands { ForSome result (IsNodeAt (R.shown records.new)) }
    ensures shared { is_shared R.shared top ≡ true
        → ForSome result (λ a. R.shared a ≡ true) }
    ensures on { (places : ℕ) → places ≤ (R.shown records.old).held
        → PartOn R.shared (R.shown records.old) places top
        → ForSome result (IsOn R.shared (R.shown records.new) places) }
    ensures later { Later (R.shown records.old) (R.shown records.new) }
    ensures held { (R.shown records.new).held ≤ (R.shown records.old).held + 5 * height_of
        (entries_of (part_term (R.shown records.old).term top)) }
    ensures records { (R.shown records.new).records ≡ (R.shown records.old).records }
{
    let mut side = top;
    while let Part::Record(at) = side {
        match order_by_head(records, at, name, head) {
            Ordering::Less => side = read_part(records, at, ENTRY_LEFT),
            Ordering::Equal => return Some(entry_child(records, at)),
            Ordering::Greater => side = read_part(records, at, ENTRY_RIGHT),
        }
    }
    None
}

/// The child of that name, if there is one. The places that were taken on the way are kept.
#[tactic(auto, using(crate::proofs::Rows::node_entries, crate::proofs::Rows::node_kids, crate::proofs::Rows::node_rising, crate::proofs::Rows::node_high))]
#[inline(always)]
pub fn find_child<R: RecordPool>(records: &mut R, at: R::At, name: &Name) -> Option<R::At>
    requires stands { (R.shown records.old).stands (R.shown records.old).held at }
    requires node { IsTreeNode ((R.shown records.old).term at) }
    requires places { (R.shown records.old).held + CHILD_PLACES ≤ (R.shown records.old).room }
    ensures child { option_map (λ at. tree_of ((R.shown records.new).term at)) result
        ≡ child_of_name name.now (tree_of ((R.shown records.old).term at)).kids }
    ensures stands { ForSome result (IsNodeAt (R.shown records.new)) }
    ensures shared { R.shared at ≡ true → ForSome result (λ a. R.shared a ≡ true) }
    ensures on { (places : ℕ) → places ≤ (R.shown records.old).held
        → IsOn R.shared (R.shown records.old) places at
        → ForSome result (IsOn R.shared (R.shown records.new) places) }
    ensures later { Later (R.shown records.old) (R.shown records.new) }
    ensures held { (R.shown records.new).held ≤ (R.shown records.old).held + CHILD_PLACES }
    ensures records { (R.shown records.new).records ≡ (R.shown records.old).records }
{
    let top = read_part(records, at, NODE_ENTRIES);
    find_under(records, top, name, head(name.bytes()))
}

/// The child of that name, if there is one. Of what was read, a shared child alone keeps a place.
#[tactic(auto, using(crate::proofs::Spellings::kept_back))]
pub fn child<R: RecordPool>(records: &mut R, at: R::At, name: &Name) -> Option<R::At>
    requires stands { (R.shown records.old).stands (R.shown records.old).held at }
    requires node { IsTreeNode ((R.shown records.old).term at) }
    requires places { (R.shown records.old).held + CHILD_PLACES ≤ (R.shown records.old).room }
    ensures child { option_map (λ at. tree_of ((R.shown records.new).term at)) result
        ≡ child_of_name name.now (tree_of ((R.shown records.old).term at)).kids }
    ensures stands { ForSome result (IsNodeAt (R.shown records.new)) }
    ensures shared { R.shared at ≡ true → ForSome result (λ a. R.shared a ≡ true) }
    ensures last { ForSome result (λ at. R.shared at ≡ true
        → (n : ℕ) → (R.shown records.new).stands n at → (R.shown records.old).held < n) }
    ensures later { Later (R.shown records.old) (R.shown records.new) }
    ensures held { (R.shown records.new).held
        ≡ (R.shown records.old).held + places_found R.shared result }
    ensures records { (R.shown records.new).records ≡ (R.shown records.old).records }
{
    let held = records.held();
    match find_child(records, at, name) {
        Some(child) => Some(records.keep(held, child)),
        None => {
            records.cut(held);
            None
        }
    }
}
