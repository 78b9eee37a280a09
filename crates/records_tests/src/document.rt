//! A document in a pool of its own, each call after a look whether there is room for it.
ghost use Rattle.std.specs.Prelude.{◌≤◌};
ghost use Rattle.std.specs.Option.{ForSome};
ghost use Rattle.doc_records.specs.Pool.{Later};
ghost use Rattle.doc_edits.specs.Tops.{IsTreeAt};
ghost use Rattle.records_tests.specs.Memory.{shown};

use crate::memory::MemoryPool;
use doc_edits::{attach, delete, set_text};
use doc_records::{child, count, empty_node, height, names, text_of};
use doc_tree::{EditFault, Name, Names, NoMemory, Path, Text};
use minor_heap::MinorRef;
use std::alloc::Global;
use std::marker::Model;

#[derive(Drop)]
pub(crate) struct Document {
    pool: MemoryPool,
    root: MinorRef,
}

impl Model for Document {
    ghost use Rattle.doc_tree.specs.Tree.{DocTree};
    ghost use Rattle.doc_tree.specs.TreeCode.{tree_code};
    ghost use Rattle.doc_records.specs.Trees.{tree_of};
    ghost use Rattle.doc_edits.specs.Tops.{IsTreeAt};
    ghost use Rattle.records_tests.specs.Memory.{shown};

    ghost Value = { DocTree };

    ghost coded = { tree_code };

    ghost view = { λ d. tree_of ((shown d.pool).term d.root) };

    ghost invariant = { λ d. IsTreeAt (shown d.pool) d.root };
}

impl Document {
    /// A document of one node, with room for so many records.
    pub(crate) fn empty(alloc: Global, records: u32) -> Result<Document, NoMemory>
        requires { 1 ≤ records }
    {
        let mut pool = MemoryPool::with_room(alloc, records)?;
        let root = empty_node(&mut pool);
        Ok(Document { pool, root })
    }

    /// How many records were made.
    pub(crate) fn made(&self) -> u32 {
        self.pool.heap.len()
    }

    pub(crate) fn put(&mut self, path: &Path, text: &Text) -> Result<(), EditFault> {
        if self.pool.heap.spare() < 509 {
            return Err(EditFault::NoMemory);
        }
        self.root = set_text(&mut self.pool, self.root, path, text)?;
        Ok(())
    }

    pub(crate) fn delete(&mut self, path: &Path) -> Result<(), EditFault> {
        if self.pool.heap.spare() < 509 {
            return Err(EditFault::NoMemory);
        }
        self.root = delete(&mut self.pool, self.root, path)?;
        Ok(())
    }

    /// Puts what stands at one path at another too.
    pub(crate) fn copy(&mut self, from: &Path, to: &Path) -> Result<(), EditFault> {
        let Some(sub) = node_at(&mut self.pool, self.root, from.names()) else {
            return Err(EditFault::Absent);
        };
        if self.pool.heap.spare() < 509 {
            return Err(EditFault::NoMemory);
        }
        self.root = attach(&mut self.pool, self.root, to, sub)?;
        Ok(())
    }

    pub(crate) fn text(&mut self, alloc: Global, path: &Path) -> Result<Option<Text>, NoMemory> {
        match node_at(&mut self.pool, self.root, path.names()) {
            Some(node) => Ok(Some(text_of(alloc, &mut self.pool, node)?)),
            None => Ok(None),
        }
    }

    pub(crate) fn names(&mut self, alloc: Global, path: &Path) -> Result<Option<Names>, NoMemory> {
        match node_at(&mut self.pool, self.root, path.names()) {
            Some(node) => Ok(Some(names(alloc, &mut self.pool, node)?)),
            None => Ok(None),
        }
    }

    /// How many nodes and levels there are.
    pub(crate) fn sizes(&mut self) -> (u64, u32) {
        let nodes = count(&mut self.pool, self.root);
        (nodes, height(&mut self.pool, self.root))
    }
}

// The node at the end of a path, if there is one.
#[tactic(auto, using(doc_edits::proofs::Lawful::tree_child))]
fn node_at(pool: &mut MemoryPool, at: MinorRef, names: &[Name]) -> Option<MinorRef>
    requires { IsTreeAt (shown pool.old) at }
    ensures node { ForSome result (IsTreeAt (shown pool.new)) }
    ensures later { Later (shown pool.old) (shown pool.new) }
{
    let [name, rest @ ..] = names else {
        return Some(at);
    };
    let child = child(pool, at, name)?;
    node_at(pool, child, rest)
}
