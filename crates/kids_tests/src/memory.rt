//! Entries in memory, as a pool for kids_avl. An entry is named by its place among all that were
//! made, and a child is a number.
//!
//! Contracts see it as the list of the trees of its entries, the oldest first: what a clause of the
//! trait says of an entry is said of an element. The clauses of `make` and `make_like` are written
//! out, since the toolchain does not give the trait's to a method that takes an `Option` of an
//! associated type.
ghost use Rattle.std.specs.Prelude.{◌≡◌, ◌+◌, ◌-◌, ◌≤◌, ◌<◌, ◌++◌, ◌∷◌, [], IfOk, length};
ghost use Rattle.doc_tree.specs.Tree.{IsRising};
ghost use Rattle.kids_avl.specs.Entries.{entry, name_of, kids_of};
ghost use Rattle.kids_avl.specs.Entries.{height_of, IsBalanced};
ghost use Rattle.kids_avl.specs.Pool.{under, Stand, Later};
ghost use Rattle.kids_tests.specs.Memory.{tree_at, HasEntry, leaf, says, IsNumber, grown, places};
ghost use Rattle.kids_tests.specs.Memory.{spare, made, Tells};

use crate::label::Label;
use doc_tree::{Name, NoMemory};
use kids_avl::{KidPool, height_above};
use std::alloc::Global;
use std::cmp::Ordering;
use std::marker::Model;

/// What an entry holds.
#[derive(Drop)]
pub(crate) struct Held {
    name: Label,
    child: u64,
    left: Option<usize>,
    right: Option<usize>,
    height: u64,
}

impl Model for Held {
    ghost use Rattle.kids_tests.specs.Memory.{Holding};

    ghost Value = { Holding };

    ghost view = { λ h. record {
      name = h.name;
      child = h.child;
      left = h.left;
      right = h.right;
      height = h.height;
    } };
}

/// The entries that were made, the oldest first.
#[derive(Drop)]
pub(crate) struct MemPool {
    entries: Vec<Held>,
}

impl Model for MemPool {
    ghost use Rattle.std.specs.Coded.{coded_list};
    ghost use Rattle.std.specs.Prelude.{List, vec_capacity};
    ghost use Rattle.kids_avl.specs.Entries.{Entries};
    ghost use Rattle.kids_tests.specs.EntriesCode.{entries_code};
    ghost use Rattle.kids_tests.specs.Memory.{trees_of, IsSound};

    ghost Value = { List Entries };

    ghost coded = { coded_list entries_code };

    ghost view = { λ p. trees_of p.entries.items };

    ghost invariant = { λ p. IsSound p.entries.items (vec_capacity p.entries) };
}

impl MemPool {
    /// So many entries can be made.
    pub(crate) const ROOM: usize = 4_000;

    pub(crate) fn empty(alloc: Global) -> Result<MemPool, NoMemory>
        ensures { IfOk result (λ pool. pool ≡ []) }
    {
        Ok(MemPool {
            entries: Vec::with_capacity(alloc, MemPool::ROOM)?,
        })
    }

    /// How many entries were made.
    #[tactic(auto, using(crate::proofs::Trees::as_many))]
    pub(crate) fn made(&self) -> usize
        ensures { result ≡ length self.now }
    {
        self.entries.len()
    }

    /// How many more can be made.
    #[tactic(auto, using(crate::proofs::Trees::as_many))]
    pub(crate) fn spare(&self) -> usize
        ensures { result + length self.now ≡ 4000 }
    {
        MemPool::ROOM - self.entries.len()
    }

    /// The name of an entry.
    pub(crate) fn name(&self, at: usize) -> &[u8]
        requires { HasEntry self.now at }
        ensures { result.now ≡ name_of (tree_at self.now at) }
    {
        let held = self.held(at);
        held.name.bytes()
    }

    // What an entry holds.
    fn held(&self, at: usize) -> &Held
        requires { HasEntry self.now at }
        ensures { Tells self.now at result.now }
    {
        &self.entries[at]
    }

    // The height under one, or 0 of none.
    fn height_under(&self, top: Option<usize>) -> u64
        requires { Stand HasEntry self.now top }
        ensures height { result ≡ height_of (under tree_at self.now top) }
        ensures low { result ≤ length self.now }
    {
        match top {
            Some(at) => {
                let held = self.held(at);
                held.height
            }
            None => 0,
        }
    }

    fn push(&mut self, name: Label, child: u64, left: Option<usize>, right: Option<usize>) -> usize
        requires left { Stand HasEntry self.old left }
        requires right { Stand HasEntry self.old right }
        requires room { length self.old < 4000 }
        ensures place { result ≡ length self.old }
        ensures more { self.new ≡ self.old ++ entry name (leaf child)
            (under tree_at self.old left) (under tree_at self.old right) ∷ [] }
    {
        let on_left = self.height_under(left);
        let on_right = self.height_under(right);
        let place = self.entries.len();
        self.entries.push_reserved(Held {
            name,
            child,
            left,
            right,
            height: height_above(on_left, on_right),
        });
        place
    }
}

impl KidPool for MemPool {
    type At = usize;

    type Child = u64;

    ghost entries = { tree_at };

    ghost tree = { says };

    ghost stands = { HasEntry };

    ghost is_child = { IsNumber };

    ghost kept = { grown };

    ghost places = { places };

    ghost records = { spare };

    ghost made = { made };

    fn order(&mut self, at: usize, name: &Name) -> Ordering {
        let held = self.held(at);
        name.bytes().cmp(held.name.bytes())
    }

    fn child(&mut self, at: usize) -> u64 {
        let held = self.held(at);
        held.child
    }

    fn left(&mut self, at: usize) -> Option<usize> {
        let held = self.held(at);
        held.left
    }

    fn right(&mut self, at: usize) -> Option<usize> {
        let held = self.held(at);
        held.right
    }

    fn height(&mut self, at: usize) -> u64 {
        let held = self.held(at);
        held.height
    }

    fn make(&mut self, name: &Name, child: u64, left: Option<usize>, right: Option<usize>) -> usize
        requires child { IsNumber self.old child }
        requires left { Stand HasEntry self.old left }
        requires right { Stand HasEntry self.old right }
        requires balanced { IsBalanced (entry name.now (says self.old child)
            (under tree_at self.old left) (under tree_at self.old right)) }
        requires ordered { IsRising (kids_of (entry name.now (says self.old child)
            (under tree_at self.old left) (under tree_at self.old right))) }
        requires records { 5 ≤ spare self.old }
        ensures entry { tree_at self.new result ≡ entry name.now (says self.old child)
            (under tree_at self.old left) (under tree_at self.old right) }
        ensures stands { HasEntry self.new result }
        ensures later { Later HasEntry tree_at IsNumber says grown self.old self.new }
        ensures places { places self.old ≤ places self.new }
        ensures records { spare self.old ≤ spare self.new + 5 }
        ensures made { made self.new ≡ made self.old + 1 }
    {
        self.push(Label::of(name), child, left, right)
    }

    fn make_like(
        &mut self,
        like: usize,
        child: u64,
        left: Option<usize>,
        right: Option<usize>,
    ) -> usize
        requires like { HasEntry self.old like }
        requires child { IsNumber self.old child }
        requires left { Stand HasEntry self.old left }
        requires right { Stand HasEntry self.old right }
        requires balanced { IsBalanced (entry (name_of (tree_at self.old like))
            (says self.old child) (under tree_at self.old left) (under tree_at self.old right)) }
        requires ordered { IsRising (kids_of (entry (name_of (tree_at self.old like))
            (says self.old child) (under tree_at self.old left) (under tree_at self.old right))) }
        requires places { 1 ≤ places self.old }
        requires records { 1 ≤ spare self.old }
        ensures entry { tree_at self.new result ≡ entry (name_of (tree_at self.old like))
            (says self.old child) (under tree_at self.old left) (under tree_at self.old right) }
        ensures stands { HasEntry self.new result }
        ensures later { Later HasEntry tree_at IsNumber says grown self.old self.new }
        ensures places { places self.old ≤ places self.new + 1 }
        ensures records { spare self.old ≤ spare self.new + 1 }
        ensures made { made self.new ≡ made self.old + 1 }
    {
        let held = self.held(like);
        let name = held.name.copy();
        self.push(name, child, left, right)
    }

    ghost is_entry = { λ s a has. has };
}
