//! Where entries stand: what a pool offers, and what it needs for it.
ghost use Rattle.std.specs.Prelude.{◌≡◌, ◌+◌, ◌≤◌, ◌<◌, ◌^◌, ℕ, Option, Some, max};
ghost use Rattle.doc_tree.specs.Tree.{DocTree, name_cmp, IsRising};
ghost use Rattle.kids_avl.specs.Entries.{Entries, entry, name_of, child_of, left_of, right_of};
ghost use Rattle.kids_avl.specs.Entries.{kids_of, height_of, IsBalanced, IsEntry};
ghost use Rattle.kids_avl.specs.Pool.{under, Stand, Later};

use doc_tree::Name;
use std::cmp::Ordering;

/// A pool of entries that never change. An entry is named by an `At`, and a child by a `Child`.
pub trait KidPool {
    type At: Copy;

    type Child: Copy;

    /// The entries under one, itself the top.
    ghost entries: { Self → Self.At → Entries };

    /// What a child says.
    ghost tree: { Self → Self.Child → DocTree };

    /// The pool has this entry.
    ghost stands: { Self → Self.At → Type 0 };

    /// The pool has this child.
    ghost is_child: { Self → Self.Child → Type 0 };

    /// What a pool keeps of an earlier state, besides its entries: this is what a caller learns of
    /// what the pool stands on.
    ghost kept: { Self → Self → Type 0 };

    /// How many places are left.
    ghost places: { Self → ℕ };

    /// How many records are left.
    ghost records: { Self → ℕ };

    /// How many entries were made. How many records were made does not tell it: a new name takes up
    /// to 4 records besides its entry.
    ghost made: { Self → ℕ };

    /// The order of the name against the entry's.
    fn order(&mut self, at: Self::At, name: &Name) -> Ordering
        requires stands { stands self.old at }
        requires places { 4 ≤ places self.old }
        ensures order { result ≡ name_cmp name.now (name_of (entries self.old at)) }
        ensures entry { IsEntry (entries self.old at) }
        ensures later { Later stands entries is_child tree kept self.old self.new }
        ensures places { places self.old ≤ places self.new + 4 }
        ensures records { records self.new ≡ records self.old }
        ensures made { made self.new ≡ made self.old };

    /// The child of an entry.
    fn child(&mut self, at: Self::At) -> Self::Child
        requires stands { stands self.old at }
        requires places { 1 ≤ places self.old }
        ensures child { tree self.new result ≡ child_of (entries self.old at) }
        ensures is_child { is_child self.new result }
        ensures entry { IsEntry (entries self.old at) }
        ensures later { Later stands entries is_child tree kept self.old self.new }
        ensures places { places self.old ≤ places self.new + 1 }
        ensures records { records self.new ≡ records self.old }
        ensures made { made self.new ≡ made self.old };

    /// The entry left of one.
    fn left(&mut self, at: Self::At) -> Option<Self::At>
        requires stands { stands self.old at }
        requires places { 1 ≤ places self.old }
        ensures left { under entries self.new result ≡ left_of (entries self.old at) }
        ensures stands { Stand stands self.new result }
        ensures entry { IsEntry (entries self.old at) }
        ensures later { Later stands entries is_child tree kept self.old self.new }
        ensures places { places self.old ≤ places self.new + 1 }
        ensures records { records self.new ≡ records self.old }
        ensures made { made self.new ≡ made self.old };

    /// The entry right of one.
    fn right(&mut self, at: Self::At) -> Option<Self::At>
        requires stands { stands self.old at }
        requires places { 1 ≤ places self.old }
        ensures right { under entries self.new result ≡ right_of (entries self.old at) }
        ensures stands { Stand stands self.new result }
        ensures entry { IsEntry (entries self.old at) }
        ensures later { Later stands entries is_child tree kept self.old self.new }
        ensures places { places self.old ≤ places self.new + 1 }
        ensures records { records self.new ≡ records self.old }
        ensures made { made self.new ≡ made self.old };

    /// The height of the entries under one.
    fn height(&mut self, at: Self::At) -> u64
        requires stands { stands self.old at }
        ensures height { result ≡ height_of (entries self.old at) }
        ensures entry { IsEntry (entries self.old at) }
        ensures later { Later stands entries is_child tree kept self.old self.new }
        ensures places { places self.old ≤ places self.new }
        ensures records { records self.new ≡ records self.old }
        ensures made { made self.new ≡ made self.old };

    /// A new entry.
    fn make(
        &mut self,
        name: &Name,
        child: Self::Child,
        left: Option<Self::At>,
        right: Option<Self::At>,
    ) -> Self::At
        requires child { is_child self.old child }
        requires left { Stand stands self.old left }
        requires right { Stand stands self.old right }
        requires balanced { IsBalanced (entry name.now (tree self.old child)
            (under entries self.old left) (under entries self.old right)) }
        requires ordered { IsRising (kids_of (entry name.now (tree self.old child)
            (under entries self.old left) (under entries self.old right))) }
        requires records { 5 ≤ records self.old }
        ensures entry { entries self.new result ≡ entry name.now (tree self.old child)
            (under entries self.old left) (under entries self.old right) }
        ensures stands { stands self.new result }
        ensures later { Later stands entries is_child tree kept self.old self.new }
        ensures places { places self.old ≤ places self.new }
        ensures records { records self.old ≤ records self.new + 5 }
        ensures made { made self.new ≡ made self.old + 1 };

    /// A new entry with the name of another.
    fn make_like(
        &mut self,
        like: Self::At,
        child: Self::Child,
        left: Option<Self::At>,
        right: Option<Self::At>,
    ) -> Self::At
        requires like { stands self.old like }
        requires child { is_child self.old child }
        requires left { Stand stands self.old left }
        requires right { Stand stands self.old right }
        requires balanced { IsBalanced (entry (name_of (entries self.old like))
            (tree self.old child) (under entries self.old left) (under entries self.old right)) }
        requires ordered { IsRising (kids_of (entry (name_of (entries self.old like))
            (tree self.old child) (under entries self.old left) (under entries self.old right))) }
        requires places { 1 ≤ places self.old }
        requires records { 1 ≤ records self.old }
        ensures entry { entries self.new result ≡ entry (name_of (entries self.old like))
            (tree self.old child) (under entries self.old left) (under entries self.old right) }
        ensures stands { stands self.new result }
        ensures later { Later stands entries is_child tree kept self.old self.new }
        ensures places { places self.old ≤ places self.new + 1 }
        ensures records { records self.old ≤ records self.new + 1 }
        ensures made { made self.new ≡ made self.old + 1 };

    /// What stands is an entry.
    ghost is_entry: { (s : Self) → (a : Self.At) → stands s a → IsEntry (entries s a) };
}

/// The height of an entry over those on both sides.
#[inline(always)]
pub fn height_above(left: u64, right: u64) -> u64
    requires { max left right + 1 < 2 ^ 64 }
    ensures { result ≡ max left right + 1 }
{
    if left < right { right + 1 } else { left + 1 }
}

/// The height under one, or 0 of none.
#[inline(always)]
pub fn height_under<K: KidPool>(pool: &mut K, top: Option<K::At>) -> u64
    requires { Stand K.stands pool.old top }
    ensures height { result ≡ height_of (under K.entries pool.old top) }
    ensures later { Later K.stands K.entries K.is_child K.tree K.kept pool.old pool.new }
    ensures places { K.places pool.old ≤ K.places pool.new }
    ensures records { K.records pool.new ≡ K.records pool.old }
    ensures made { K.made pool.new ≡ K.made pool.old }
{
    match top {
        Some(at) => pool.height(at),
        None => 0,
    }
}

// What stands at an entry.
#[derive(Clone, Copy)]
pub(crate) struct Opened<At, Child> {
    pub child: Child,
    pub left: Option<At>,
    pub right: Option<At>,
}

// Reads the child and both sides.
#[inline(always)]
pub(crate) fn read_entry<K: KidPool>(pool: &mut K, at: K::At) -> Opened<K::At, K::Child>
    requires stands { K.stands pool.old at }
    requires places { 3 ≤ K.places pool.old }
    ensures entry { K.entries pool.old at ≡ entry (name_of (K.entries pool.old at))
        (K.tree pool.new result.child) (under K.entries pool.new result.left)
        (under K.entries pool.new result.right) }
    ensures child { K.is_child pool.new result.child }
    ensures left { Stand K.stands pool.new result.left }
    ensures right { Stand K.stands pool.new result.right }
    ensures later { Later K.stands K.entries K.is_child K.tree K.kept pool.old pool.new }
    ensures places { K.places pool.old ≤ K.places pool.new + 3 }
    ensures records { K.records pool.new ≡ K.records pool.old }
    ensures made { K.made pool.new ≡ K.made pool.old }
{
    let child = pool.child(at);
    let left = pool.left(at);
    let right = pool.right(at);
    Opened { child, left, right }
}
