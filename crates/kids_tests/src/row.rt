//! A row of children in a pool of its own, each call after a look whether it may be made.
ghost use Rattle.std.specs.Prelude.{◌≡◌, IfOk, OnOk};
ghost use Rattle.doc_tree.specs.Edits.{delete_child};
ghost use Rattle.doc_tree.specs.Tree.{no_kids, put_child, kid_count};
ghost use Rattle.kids_tests.specs.Memory.{leaf};

use crate::memory::MemPool;
use doc_tree::{Name, NoMemory};
use kids_avl::{KidPool, PUT_RECORDS, REMOVE_RECORDS, find, kid_at, len, put, remove};
use std::alloc::Global;
use std::marker::Model;

/// A name that is not listed, or too little room.
#[derive(Clone, Copy, Debug)]
pub(crate) struct Refused;

#[derive(Drop)]
pub(crate) struct Row {
    pool: MemPool,
    root: Option<usize>,
}

impl Model for Row {
    ghost use Rattle.doc_tree.specs.Tree.{Kids};
    ghost use Rattle.doc_tree.specs.TreeCode.{kids_code};
    ghost use Rattle.kids_tests.specs.Row.{row_of, IsKept};

    ghost Value = { Kids };

    ghost coded = { kids_code };

    ghost view = { λ r. row_of r.pool r.root };

    ghost invariant = { λ r. IsKept r.pool r.root };
}

impl Row {
    pub(crate) fn empty(alloc: Global) -> Result<Row, NoMemory>
        ensures { IfOk result (λ row. row ≡ no_kids) }
    {
        Ok(Row {
            pool: MemPool::empty(alloc)?,
            root: None,
        })
    }

    pub(crate) fn len(&mut self) -> u32
        ensures count { result ≡ kid_count self.old }
        ensures same { self.new ≡ self.old }
    {
        len(&mut self.pool, self.root)
    }

    pub(crate) fn find(&mut self, name: &Name) -> Option<u64>
        ensures same { self.new ≡ self.old }
    {
        find(&mut self.pool, self.root, name)
    }

    /// The name of the child at an index.
    pub(crate) fn name_at(&mut self, index: u32) -> Option<&[u8]> {
        let at = kid_at(&mut self.pool, self.root, index)?;
        Some(self.pool.name(at))
    }

    pub(crate) fn put(&mut self, name: &Name, child: u64) -> Result<(), Refused>
        ensures { OnOk result (self.new ≡ put_child name.now (leaf child) self.old) }
    {
        let is_full = len(&mut self.pool, self.root) > 255;
        let is_new = find(&mut self.pool, self.root, name).is_none();
        if is_full && is_new || self.pool.spare() < PUT_RECORDS {
            return Err(Refused);
        }
        self.root = Some(put(&mut self.pool, self.root, name, child));
        Ok(())
    }

    pub(crate) fn remove(&mut self, name: &Name) -> Result<(), Refused>
        ensures { OnOk result (self.new ≡ delete_child name.now self.old) }
    {
        let is_listed = find(&mut self.pool, self.root, name).is_some();
        if !is_listed || self.pool.spare() < REMOVE_RECORDS {
            return Err(Refused);
        }
        self.root = remove(&mut self.pool, self.root, name);
        Ok(())
    }

    pub(crate) fn is_empty(&self) -> bool {
        self.root.is_none()
    }

    pub(crate) fn height(&mut self) -> u64 {
        match self.root {
            Some(at) => self.pool.height(at),
            None => 0,
        }
    }

    /// How many entries were made so far.
    pub(crate) fn made(&self) -> usize {
        self.pool.made()
    }
}
