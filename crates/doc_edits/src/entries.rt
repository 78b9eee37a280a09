//! Entries of nodes among records, as kids_avl asks for them.
//!
//! The pool of entries borrows the pool of records, and is gone after the call that needed it.
ghost use Rattle.std.specs.Prelude.{◌≡◌, ◌+◌, ◌≤◌, ◌<◌, ◌^◌, max};
ghost use Rattle.doc_tree.specs.Tree.{IsRising};
ghost use Rattle.kids_avl.specs.Entries.{entry, name_of, kids_of, height_of, IsBalanced};
ghost use Rattle.kids_avl.specs.Pool.{under, Stand, Later as LaterEntries};
ghost use Rattle.doc_records.specs.Pool.{Later, Stands, part_term};
ghost use Rattle.doc_records.specs.Texts.{IsName, text_of};
ghost use Rattle.doc_records.specs.Trees.{AreEntries, entries_of, tree_of};
ghost use Rattle.doc_edits.specs.Entries.{IsChildAt, IsEntryAt, IsKept, IsSideAt, most_made};
ghost use Rattle.doc_edits.specs.Entries.{part_of, places_left, records_left, top_of};

use doc_records::{
    ENTRY_HEIGHT, ENTRY_LEFT, ENTRY_NAME, ENTRY_RIGHT, Part, RecordPool, entry_child, make_text,
    order_entry, read_number, read_part,
};
use doc_tree::Name;
use kids_avl::{KidPool, height_above};
use std::cmp::Ordering;

/// The entries in a pool of records.
#[derive(Drop)]
pub(crate) struct EntryPool<'a, R> {
    pub(crate) records: &'a mut R,
    // How many entries were made: at most so many levels were added to those that were there.
    pub(crate) made: u64,
}

/// The top of the entries that a part is.
#[inline(always)]
pub(crate) fn top_of<At: Copy>(part: Part<At>) -> Option<At>
    ensures { result ≡ top_of part }
{
    match part {
        Part::Null => None,
        Part::Num(_) => None,
        Part::Record(at) => Some(at),
    }
}

/// The part that names these entries.
#[inline(always)]
pub(crate) fn part_of<At: Copy>(top: Option<At>) -> Part<At>
    ensures { result ≡ part_of top }
{
    match top {
        None => Part::Null,
        Some(at) => Part::Record(at),
    }
}

/// The height of the entries on one side.
#[tactic(auto, using(crate::proofs::Fields::fields))]
#[inline(always)]
pub(crate) fn side_height<R: RecordPool>(records: &mut R, side: Part<R::At>) -> u64
    requires stands { Stands (R.shown records.old) side }
    requires entries { AreEntries (part_term (R.shown records.old).term side) }
    requires place { (R.shown records.old).held < (R.shown records.old).room }
    ensures height { result ≡ height_of (entries_of (part_term (R.shown records.old).term side)) }
    ensures later { Later (R.shown records.old) (R.shown records.new) }
    ensures held { (R.shown records.new).held ≡ (R.shown records.old).held }
    ensures records { (R.shown records.new).records ≡ (R.shown records.old).records }
{
    match side {
        Part::Record(at) => read_number(records, at, ENTRY_HEIGHT),
        Part::Null => 0,
        Part::Num(_) => 0,
    }
}

impl<'a, R: RecordPool> EntryPool<'a, R> {
    // A new entry, whose name is written.
    #[tactic(auto, using(crate::proofs::Fields::sides, crate::proofs::Fields::new_entry))]
    #[inline(always)]
    fn make_entry(
        &mut self,
        written: Part<R::At>,
        child: R::At,
        left: Part<R::At>,
        right: Part<R::At>,
    ) -> R::At
        requires written { Stands (R.shown self.old.records.now) written }
        requires name { IsName (part_term (R.shown self.old.records.now).term written) }
        requires child { IsChildAt (R.shown self.old.records.now) child }
        requires left { IsSideAt (R.shown self.old.records.now) self.old.made left }
        requires right { IsSideAt (R.shown self.old.records.now) self.old.made right }
        requires balanced { IsBalanced (entry
            (text_of (part_term (R.shown self.old.records.now).term written))
            (tree_of ((R.shown self.old.records.now).term child))
            (entries_of (part_term (R.shown self.old.records.now).term left))
            (entries_of (part_term (R.shown self.old.records.now).term right))) }
        requires few { self.old.made < most_made }
        requires records { 1 ≤ (R.shown self.old.records.now).records }
        ensures entry { entries_of ((R.shown self.new.records.now).term result) ≡ entry
            (text_of (part_term (R.shown self.old.records.now).term written))
            (tree_of ((R.shown self.old.records.now).term child))
            (entries_of (part_term (R.shown self.old.records.now).term left))
            (entries_of (part_term (R.shown self.old.records.now).term right)) }
        ensures stands { IsEntryAt (R.shown self.new.records.now) self.new.made result }
        ensures later { Later (R.shown self.old.records.now) (R.shown self.new.records.now) }
        ensures held { (R.shown self.new.records.now).held
            ≡ (R.shown self.old.records.now).held }
        ensures records { (R.shown self.old.records.now).records
            ≡ (R.shown self.new.records.now).records + 1 }
        ensures made { self.new.made ≡ self.old.made + 1 }
        ensures lent { self.new.records.ghost_name ≡ self.old.records.ghost_name }
    {
        let on_left = side_height(self.records, left);
        let on_right = side_height(self.records, right);
        let height = Part::Num(height_above(on_left, on_right));
        self.made += 1;
        self.records
            .make(written, Part::Record(child), left, right, height)
    }
}

impl<'a, R: RecordPool> KidPool for EntryPool<'a, R> {
    ghost use Rattle.doc_edits.specs.Pools.{entries_in, is_child_in, kept_in, made_in, places_in};
    ghost use Rattle.doc_edits.specs.Pools.{records_in, stands_in, tree_in};

    type At = R::At;

    type Child = R::At;

    ghost entries = { entries_in R.shown };

    ghost tree = { tree_in R.shown };

    ghost stands = { stands_in R.shown };

    ghost is_child = { is_child_in R.shown };

    ghost kept = { kept_in R.shown };

    ghost places = { places_in R.shown };

    ghost records = { records_in R.shown };

    ghost made = { made_in };

    #[tactic(auto, using(crate::proofs::Fields::fields))]
    #[inline(always)]
    fn order(&mut self, at: R::At, name: &Name) -> Ordering {
        order_entry(self.records, at, name)
    }

    #[tactic(auto, using(crate::proofs::Fields::fields))]
    #[inline(always)]
    fn child(&mut self, at: R::At) -> R::At {
        entry_child(self.records, at)
    }

    #[tactic(auto, using(crate::proofs::Fields::fields))]
    #[inline(always)]
    fn left(&mut self, at: R::At) -> Option<R::At> {
        top_of(read_part(self.records, at, ENTRY_LEFT))
    }

    #[tactic(auto, using(crate::proofs::Fields::fields))]
    #[inline(always)]
    fn right(&mut self, at: R::At) -> Option<R::At> {
        top_of(read_part(self.records, at, ENTRY_RIGHT))
    }

    #[tactic(auto, using(crate::proofs::Fields::fields))]
    #[inline(always)]
    fn height(&mut self, at: R::At) -> u64 {
        read_number(self.records, at, ENTRY_HEIGHT)
    }

    #[tactic(auto, using(crate::proofs::Fields::written))]
    #[inline(always)]
    fn make(
        &mut self,
        name: &Name,
        child: R::At,
        left: Option<R::At>,
        right: Option<R::At>,
    ) -> R::At
        requires child { is_child_in R.shown self.old child }
        requires left { Stand (stands_in R.shown) self.old left }
        requires right { Stand (stands_in R.shown) self.old right }
        requires balanced { IsBalanced (entry name.now (tree_in R.shown self.old child)
            (under (entries_in R.shown) self.old left)
            (under (entries_in R.shown) self.old right)) }
        requires ordered { IsRising (kids_of (entry name.now (tree_in R.shown self.old child)
            (under (entries_in R.shown) self.old left)
            (under (entries_in R.shown) self.old right))) }
        requires records { 5 ≤ records_in R.shown self.old }
        ensures entry { entries_in R.shown self.new result
            ≡ entry name.now (tree_in R.shown self.old child)
            (under (entries_in R.shown) self.old left)
            (under (entries_in R.shown) self.old right) }
        ensures stands { stands_in R.shown self.new result }
        ensures later { LaterEntries (stands_in R.shown) (entries_in R.shown) (is_child_in R.shown)
            (tree_in R.shown) (kept_in R.shown) self.old self.new }
        ensures places { places_in R.shown self.old ≤ places_in R.shown self.new }
        ensures records { records_in R.shown self.old ≤ records_in R.shown self.new + 5 }
        ensures made { made_in self.new ≡ made_in self.old + 1 }
    {
        let written = make_text(self.records, name.bytes());
        self.make_entry(written, child, part_of(left), part_of(right))
    }

    #[tactic(auto, using(crate::proofs::Fields::fields))]
    #[inline(always)]
    fn make_like(
        &mut self,
        like: R::At,
        child: R::At,
        left: Option<R::At>,
        right: Option<R::At>,
    ) -> R::At
        requires like { stands_in R.shown self.old like }
        requires child { is_child_in R.shown self.old child }
        requires left { Stand (stands_in R.shown) self.old left }
        requires right { Stand (stands_in R.shown) self.old right }
        requires balanced { IsBalanced (entry (name_of (entries_in R.shown self.old like))
            (tree_in R.shown self.old child) (under (entries_in R.shown) self.old left)
            (under (entries_in R.shown) self.old right)) }
        requires ordered { IsRising (kids_of (entry (name_of (entries_in R.shown self.old like))
            (tree_in R.shown self.old child) (under (entries_in R.shown) self.old left)
            (under (entries_in R.shown) self.old right))) }
        requires places { 1 ≤ places_in R.shown self.old }
        requires records { 1 ≤ records_in R.shown self.old }
        ensures entry { entries_in R.shown self.new result
            ≡ entry (name_of (entries_in R.shown self.old like)) (tree_in R.shown self.old child)
            (under (entries_in R.shown) self.old left)
            (under (entries_in R.shown) self.old right) }
        ensures stands { stands_in R.shown self.new result }
        ensures later { LaterEntries (stands_in R.shown) (entries_in R.shown) (is_child_in R.shown)
            (tree_in R.shown) (kept_in R.shown) self.old self.new }
        ensures places { places_in R.shown self.old ≤ places_in R.shown self.new + 1 }
        ensures records { records_in R.shown self.old ≤ records_in R.shown self.new + 1 }
        ensures made { made_in self.new ≡ made_in self.old + 1 }
    {
        let written = read_part(self.records, like, ENTRY_NAME);
        self.make_entry(written, child, part_of(left), part_of(right))
    }

    ghost is_entry = { λ s a stands. stands.entry };
}
