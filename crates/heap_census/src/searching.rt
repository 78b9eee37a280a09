//! A search for roles under way: which were found, and which cells wait with one.
ghost use Rattle.heap_census.specs.Search.{Search, with_found};
ghost use Rattle.heap_census.specs.Flags.{no_roles};
ghost use Rattle.std.specs.Prelude.{IfOk, IfSome, IsNone, OnOk, [], replicate};
ghost use Rattle.std.specs.Prelude.{◌++◌, ◌∷◌, ◌≡◌, ◌↔◌};

use crate::flags::Roles;
use crate::layouts::Role;
use heap_table::NoMemory;
use std::alloc::Global;
use std::marker::Model;

/// A cell with a role that it was found to have.
#[derive(Clone, Copy)]
pub(crate) struct Named {
    pub role: Role,
    pub cell: u32,
}

#[derive(Drop)]
pub(crate) struct Searching {
    marks: Vec<Roles>,
    waiting: Vec<Named>,
}

impl Model for Searching {
    ghost use Rattle.heap_census.specs.Search.{Search};

    ghost Value = { Search };

    ghost view = { λ f. record { marks = f.marks.items; waiting = f.waiting.items } };
}

impl Searching {
    /// Nothing is found yet.
    pub(crate) fn new(alloc: Global, cells: u32) -> Result<Searching, NoMemory>
        ensures nothing { IfOk result
            (λ f. f ≡ record { marks = replicate cells no_roles; waiting = [] }) }
    {
        let marks = vec![in alloc; Roles::none(); cells as usize]?;
        let waiting = Vec::new(alloc);
        Ok(Searching { marks, waiting })
    }

    /// A cell is found to have a role. It waits, if it was not found with it before.
    pub(crate) fn add(&mut self, role: Role, cell: u32) -> Result<(), NoMemory>
        ensures added { OnOk result (self.new ≡ with_found self.old role cell) }
    {
        let index = cell as usize;
        if index >= self.marks.len() {
            return Ok(());
        }
        let roles = self.marks[index];
        if roles.has(role) {
            return Ok(());
        }
        self.waiting.push(Named { role, cell })?;
        self.marks[index] = roles.with(role);
        Ok(())
    }

    /// One of the cells that wait, which waits no more.
    pub(crate) fn take(&mut self) -> Option<Named>
        ensures marks { self.new.marks ≡ self.old.marks }
        ensures none { IsNone result ↔ (self.old.waiting ≡ []) }
        ensures taken { IfSome result (λ n. self.old.waiting ≡ self.new.waiting ++ n ∷ []) }
    {
        self.waiting.pop()
    }

    /// What was found.
    pub(crate) fn into_marks(self) -> Vec<Roles>
        ensures { result.items ≡ self.marks }
    {
        let Searching { marks, waiting: _ } = self;
        marks
    }
}
