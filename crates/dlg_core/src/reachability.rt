//! Which cells are reachable, found by following fields from the roots. Each cell's fields are
//! looked at once, so it takes time in proportion to the heap.
ghost use Rattle.cell_words.specs.declared.fields.Field.{Field};
ghost use Rattle.dlg_core.specs.Reachable.{Reachable};
ghost use Rattle.dlg_core.specs.Search.{FoundHeld, FoundNamed, FoundRoots, GrowsTo, IsSearch};
ghost use Rattle.std.specs.Prelude.{IfOk, IsTrue, OnOk, length, true, ◌<◌, ◌≡◌, ◌↔◌};

use crate::NoMemory;
use crate::machine::Core;
use crate::search::Searching;
use cell_words::Field;
use std::alloc::Global;

impl Core {
    /// Whether a chain of fields leads to the cell from the anchor, or from a cell that a mutator
    /// which is in holds.
    pub fn is_reachable(&self, alloc: Global, cell: u32) -> Result<bool, NoMemory>
        requires { cell < self.now.cells }
        ensures reachable { IfOk result (λ found. IsTrue found ↔ Reachable self.now cell) }
    {
        let _ = &self.machine;
        let mut found = self.found_roots(alloc)?;
        while let Some(next) = found.take() {
            self.add_named(&mut found, next)?;
        }
        Ok(found.has(cell))
    }

    // All roots wait.
    fn found_roots(&self, alloc: Global) -> Result<Searching, NoMemory>
        ensures search { IfOk result (IsSearch self.now) }
    {
        let machine = &self.machine;
        let mut found = Searching::new(alloc, machine.cells())?;
        found.add(0)?;
        for m in 0..machine.mutators() {
            self.add_held(&mut found, m)?;
        }
        Ok(found)
    }

    // What a mutator holds that is in waits.
    fn add_held(&self, found: &mut Searching, m: u32) -> Result<(), NoMemory>
        requires { length found.old.marks ≡ self.now.cells }
        ensures grows { OnOk result (GrowsTo self.now found.old found.new) }
        ensures held { OnOk result (FoundHeld self.now m found.new) }
    {
        let machine = &self.machine;
        if !machine.presence(m).inside {
            return Ok(());
        }
        for place in machine.places(m) {
            found.add(place.cell)?;
        }
        Ok(())
    }

    // What a reachable cell names waits.
    fn add_named(&self, found: &mut Searching, cell: u32) -> Result<(), NoMemory>
        requires size { length found.old.marks ≡ self.now.cells }
        requires cell { cell < self.now.cells }
        requires reachable { Reachable self.now cell }
        ensures grows { OnOk result (GrowsTo self.now found.old found.new) }
        ensures named { OnOk result (FoundNamed self.now cell 6 found.new) }
    {
        let machine = &self.machine;
        for i in 0..6 {
            if let Field::Cell(named) = machine.field(cell, i) {
                found.add(named)?;
            }
        }
        Ok(())
    }
}
