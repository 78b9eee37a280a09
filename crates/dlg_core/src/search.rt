//! A search under way: which cells were found, and which of them wait.
ghost use Rattle.dlg_core.specs.Search.{Search, has_found, with_found};
ghost use Rattle.std.specs.Prelude.{IfOk, IsNone, IfSome, OnOk, [], false, length, replicate, ◌++◌};
ghost use Rattle.std.specs.Prelude.{◌<◌, ◌∷◌, ◌≡◌, ◌↔◌};

use crate::NoMemory;
use std::alloc::Global;
use std::marker::Model;

#[derive(Drop)]
pub(crate) struct Searching {
    marks: Vec<bool>,
    waiting: Vec<u32>,
}

impl Model for Searching {
    ghost use Rattle.dlg_core.specs.Search.{Search};

    ghost Value = { Search };

    ghost view = { λ f. record { marks = f.marks.items; waiting = f.waiting.items } };
}

impl Searching {
    /// Nothing is found yet.
    pub(crate) fn new(alloc: Global, cells: u32) -> Result<Searching, NoMemory>
        ensures nothing { IfOk result (λ f. f ≡ record { marks = replicate cells false; waiting = [] }) }
    {
        let marks = vec![in alloc; false; cells as usize]?;
        let waiting = Vec::new(alloc);
        Ok(Searching { marks, waiting })
    }

    /// A cell is found. It waits, if it was not found before.
    pub(crate) fn add(&mut self, cell: u32) -> Result<(), NoMemory>
        requires { cell < length self.old.marks }
        ensures added { OnOk result (self.new ≡ with_found self.old cell) }
    {
        if self.marks[cell as usize] {
            return Ok(());
        }
        self.waiting.push(cell)?;
        self.marks[cell as usize] = true;
        Ok(())
    }

    /// One of the cells that wait, which waits no more.
    pub(crate) fn take(&mut self) -> Option<u32>
        ensures marks { self.new.marks ≡ self.old.marks }
        ensures none { IsNone result ↔ (self.old.waiting ≡ []) }
        ensures taken { IfSome result (λ c. self.old.waiting ≡ self.new.waiting ++ c ∷ []) }
    {
        self.waiting.pop()
    }

    pub(crate) fn has(&self, cell: u32) -> bool
        requires { cell < length self.now.marks }
        ensures found { result ≡ has_found self.now cell }
    {
        self.marks[cell as usize]
    }
}
