//! Trees of documents. Two trees share what is the same in both: an edit makes new nodes on the way
//! from the root to the place of the edit alone, and points to the old ones everywhere else.
ghost use Rattle.std.specs.Prelude.{◌≡◌, ◌≢◌, ◌<◌, ◌≤◌, ◌+◌, ◌↔◌, Err, IfOk, IsTrue, MatchResult};
ghost use Rattle.std.specs.Prelude.{None};
ghost use Rattle.std.specs.Option.{ForSome, option_copied};
ghost use Rattle.std.specs.Result.{ForOk};
ghost use Rattle.doc_tree.specs.Tree.{empty, node, child, count, height, names_of, kid_count};
ghost use Rattle.doc_tree.specs.Tree.{put_child, IsRising};
ghost use Rattle.doc_tree.specs.Edits.{Gives, attach, delete, edit_along, set_text, with_text};
ghost use Rattle.doc_tree.specs.Edits.{within_limits, without_child};
ghost use Rattle.doc_tree.specs.Ends.{tree_at_end};
ghost use Rattle.doc_tree.specs.Lawful.{IsLawful};
ghost use Rattle.doc_tree.specs.Rows.{as_u64, as_u32};
ghost use Rattle.doc_tree.specs.Chunks.{kids_of, AreChunks, IsPlace};

use crate::NoMemory;
use crate::chunk::{Chunk, Kid};
use crate::edit::EditFault;
use crate::kids::{Place, count, find_child, names_of, shared, sizes, with_kid, without_kid};
use crate::path::{Names, Path};
use crate::text::{Name, Text};
use std::alloc::Global;
use std::marker::Model;
use std::rc::Rc;

/// A text and children with names in rising order, shared with other trees.
#[cycle(tree)]
pub struct Tree {
    // The two numbers come first, since an edit reads those of a whole chunk of children.
    nodes: u64,
    levels: u32,
    text: Text,
    kids: Vec<Rc<Chunk>>,
}

// What an edit puts at the end of its path: a text for the node there, or a tree in its place.
#[derive(Clone, Copy)]
enum End<'a> {
    Text(&'a Text),
    Tree(&'a Tree),
}

impl Drop for Tree {
    #[cycle(dropping)]
    fn drop(self) {
        let Tree {
            nodes: _,
            levels: _,
            text: _text,
            kids: _kids,
        } = self;
    }
}

impl Model for Tree {
    ghost use Rattle.doc_tree.specs.Tree.{DocTree, count};
    ghost use Rattle.doc_tree.specs.TreeCode.{tree_code};

    ghost Value = { DocTree };

    ghost coded = { tree_code };

    ghost use Rattle.doc_tree.specs.Chunks.{kids_of};
    ghost use Rattle.doc_tree.specs.TreeView.{IsSound};

    ghost view = { λ t. record { text = t.text; kids = kids_of t.kids.items } };

    ghost invariant = { λ t. IsSound t.kids.items t.nodes t.levels };

    ghost size = { count };

    ghost use Rattle.std.proofs.Common.{arith};
    ghost use Rattle.doc_tree.specs.TreeFalls.{most-kids_of};

    ghost size_decreases = { λ a h. omega (arith, most-kids_of a.kids.items) };
}

impl Tree {
    /// A node has at most this many children.
    pub const MOST_CHILDREN: usize = 256;

    /// A whole tree has at most this many nodes.
    pub const MOST_NODES: u64 = 1_000_000_000;

    /// A whole tree is at most this high.
    pub const HIGHEST: u32 = 8;

    /// The tree with an empty text and no children.
    #[tactic(auto, using(crate::proofs::Orderly::lawful_made))]
    pub fn empty(alloc: Global) -> Result<Tree, NoMemory>
        ensures tree { IfOk result (λ tree. tree ≡ empty) }
        ensures lawful { ForOk result IsLawful }
    {
        Ok(Tree {
            text: Text::empty(),
            kids: Vec::new(alloc),
            nodes: 1,
            levels: 0,
        })
    }

    /// The node at the end of the path.
    #[tactic(auto, using(crate::proofs::Orderly::lawful_node))]
    pub fn node(&self, path: &Path) -> Option<&Tree>
        ensures node { option_copied result ≡ node path.now self.now }
        ensures lawful { IsLawful self.now → ForSome (option_copied result) IsLawful }
    {
        let mut tree = self;
        for name in path.names() {
            match tree.child(name) {
                Some(child) => tree = child,
                None => return None,
            }
        }
        Some(tree)
    }

    pub fn text(&self) -> &Text
        ensures { result.now ≡ self.now.text }
    {
        &self.text
    }

    /// The names of the children, in rising order.
    pub fn names(&self, alloc: Global) -> Result<Names, NoMemory>
        ensures { IfOk result (λ names. names ≡ names_of self.now.kids) }
    {
        names_of(alloc, &self.kids)
    }

    /// How many nodes the tree has, itself included. It is kept, not counted.
    #[tactic(auto, using(crate::proofs::Orderly::exact_count))]
    pub fn count(&self) -> u64
        ensures count { result ≡ as_u64 (count self.now) }
        ensures exact { IsLawful self.now → result ≡ count self.now }
    {
        self.nodes
    }

    /// The longest way from the root down, 0 without children. It is kept, not measured.
    #[tactic(auto, using(crate::proofs::Orderly::exact_height))]
    pub fn height(&self) -> u32
        ensures height { result ≡ as_u32 (height self.now) }
        ensures exact { IsLawful self.now → result ≡ height self.now }
    {
        self.levels
    }

    /// Gives the node at the path the text. Missing nodes on the way are made with empty texts.
    #[tactic(auto, using(crate::proofs::Orderly::lawful_set_text, crate::proofs::Orderly::shallow_set_text))]
    pub fn set_text(&self, alloc: Global, path: &Path, text: &Text) -> Result<Tree, EditFault>
        ensures tree { Gives result (set_text path.now text.now self.now) }
        ensures lawful { IsLawful self.now → ForOk result IsLawful }
        ensures shallow { IsLawful self.now → result ≢ Err EditFault.Deep }
    {
        let edited = self.edit_along(alloc, path.names(), End::Text(text))?;
        edited.within_limits()
    }

    /// Puts a whole tree at the path, in place of what stands there. Missing nodes before it are
    /// made with empty texts.
    #[tactic(auto, using(crate::proofs::Orderly::lawful_attach))]
    pub fn attach(&self, alloc: Global, path: &Path, sub: &Tree) -> Result<Tree, EditFault>
        ensures tree { Gives result (attach path.now sub.now self.now) }
        ensures lawful { IsLawful sub.now → IsLawful self.now → ForOk result IsLawful }
    {
        let edited = self.edit_along(alloc, path.names(), End::Tree(sub))?;
        edited.within_limits()
    }

    fn edit_along(&self, alloc: Global, names: &[Name], end: End<'_>) -> Result<Tree, EditFault>
        ensures { Gives result (edit_along (tree_at_end end.entry) names.now self.now) }
    {
        let [name, rest @ ..] = names else {
            return Ok(self.at_end(end)?);
        };
        let (place, child) = find_child(&self.kids, name);
        let edited = match child {
            Some(tree) => tree.edit_along(alloc, rest, end)?,
            None if self.is_full() => return Err(EditFault::Many),
            None => Tree::empty(alloc)?.edit_along(alloc, rest, end)?,
        };
        Ok(put_kid(alloc, &self.text, &self.kids, place, name, edited)?)
    }

    fn at_end(&self, end: End<'_>) -> Result<Tree, NoMemory>
        ensures { IfOk result (λ tree. tree ≡ tree_at_end end.entry self.now) }
    {
        match end {
            End::Text(text) => self.with_text(text),
            End::Tree(tree) => tree.copy(),
        }
    }

    /// Removes the node at the path, with all that is below it.
    #[tactic(auto, using(crate::proofs::Orderly::lawful_delete))]
    pub fn delete(&self, alloc: Global, path: &Path) -> Result<Tree, EditFault>
        ensures tree { Gives result (delete path.now self.now) }
        ensures lawful { IsLawful self.now → ForOk result IsLawful }
    {
        self.delete_along(alloc, path.names())
    }

    fn delete_along(&self, alloc: Global, names: &[Name]) -> Result<Tree, EditFault>
        ensures { Gives result (delete names.now self.now) }
    {
        let [name, rest @ ..] = names else {
            return Err(EditFault::Absent);
        };
        let (place, child) = find_child(&self.kids, name);
        let Some(tree) = child else {
            return Err(EditFault::Absent);
        };
        if rest.is_empty() {
            return Ok(self.without_child(alloc, name)?);
        }
        let edited = tree.delete_along(alloc, rest)?;
        Ok(put_kid(alloc, &self.text, &self.kids, place, name, edited)?)
    }

    // The limits on a whole tree, of which each edit asks once.
    fn within_limits(self) -> Result<Tree, EditFault>
        ensures { Gives result (within_limits self) }
    {
        if self.levels > Tree::HIGHEST {
            return Err(EditFault::Deep);
        }
        if self.nodes > Tree::MOST_NODES {
            return Err(EditFault::Big);
        }
        Ok(self)
    }

    /// An equal tree. All of it is shared.
    pub fn copy(&self) -> Result<Tree, NoMemory>
        ensures { IfOk result (λ tree. tree ≡ self.now) }
    {
        self.with_text(&self.text)
    }

    fn with_text(&self, text: &Text) -> Result<Tree, NoMemory>
        ensures { IfOk result (λ tree. tree ≡ with_text text.now self.now) }
    {
        Ok(Tree {
            text: text.copy()?,
            kids: shared(&self.kids)?,
            nodes: self.nodes,
            levels: self.levels,
        })
    }

    fn is_full(&self) -> bool
        ensures { IsTrue result ↔ (Tree.MOST_CHILDREN ≤ kid_count self.now.kids) }
    {
        count(&self.kids) >= Tree::MOST_CHILDREN
    }

    fn child(&self, name: &Name) -> Option<&Tree>
        ensures { option_copied result ≡ child name.now self.now.kids }
    {
        find_child(&self.kids, name).1
    }

    #[tactic(auto, using(crate::proofs::Rising::rising_delete, crate::proofs::Rising::count_delete))]
    fn without_child(&self, alloc: Global, name: &Name) -> Result<Tree, NoMemory>
        ensures { IfOk result (λ whole. whole ≡ without_child name.now self.now) }
    {
        let kids = without_kid(alloc, &self.kids, name)?;
        Ok(made(self.text.copy()?, kids))
    }
}

// The tree of this text and these children, with one more at its place.
#[tactic(auto, using(crate::proofs::Rising::rising_put, crate::proofs::Rising::room_put))]
fn put_kid(
    alloc: Global,
    text: &Text,
    kids: &Vec<Rc<Chunk>>,
    place: Place,
    name: &Name,
    tree: Tree,
) -> Result<Tree, NoMemory>
    requires chunks { AreChunks kids.now.items }
    requires rising { IsRising (kids_of kids.now.items) }
    requires few { kid_count (kids_of kids.now.items) ≤ Tree.MOST_CHILDREN }
    requires room { child name.now (kids_of kids.now.items) ≡ None
        → kid_count (kids_of kids.now.items) < Tree.MOST_CHILDREN }
    requires place { IsPlace name.now kids.now.items place }
    ensures { IfOk result (λ whole. whole
        ≡ record { text = text.now; kids = put_child name.now tree (kids_of kids.now.items) }) }
{
    let kid = Rc::new(
        alloc,
        Kid {
            tree,
            name: name.copy()?,
        },
    )?;
    let kids = with_kid(alloc, kids, place, kid)?;
    Ok(made(text.copy()?, kids))
}

fn made(text: Text, kids: Vec<Rc<Chunk>>) -> Tree
    requires chunks { AreChunks kids.items }
    requires rising { IsRising (kids_of kids.items) }
    requires few { kid_count (kids_of kids.items) ≤ Tree.MOST_CHILDREN }
    ensures { result ≡ record { text = text; kids = kids_of kids.items } }
{
    let (nodes, levels) = sizes(&kids);
    Tree {
        text,
        kids,
        nodes,
        levels,
    }
}
