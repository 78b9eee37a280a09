//! The mark stack: cells that a scan has shaded, and that are to be looked at next.
//!
//! Its room is fixed. A child that finds it full is left out, and the pass over all cells finds it.
//! A cell that the pass itself has come to leaves the stack without a look as long as others lie
//! below it: a look would lead the pass on while they are still gray.
ghost use Rattle.std.specs.Prelude.{◌≡◌, ◌≤◌, ℕ, ◌<◌, IfOk, [], length};
ghost use Rattle.collector.specs.Stack.{AllBelow, emptied, has_room, is_empty, looked_at, next_of};
ghost use Rattle.collector.specs.Stack.{pushed, top_first, top_of, without};

use crate::NoMemory;
use std::alloc::Global;
use std::marker::Model;

/// Cells that wait for a look, up to a fixed number.
pub struct MarkStack {
    items: Vec<u32>,
    height: usize,
}

impl Drop for MarkStack {
    fn drop(self) {
        let MarkStack {
            items: _items,
            height: _,
        } = self;
    }
}

impl Model for MarkStack {
    ghost use Rattle.std.specs.Coded.{codes};
    ghost use Rattle.std.specs.Prelude.{length, ◌≤◌};
    ghost use Rattle.collector.specs.Stack.{Stack, top_first};

    ghost Value = { Stack };

    ghost coded = { Prim.hlevel codes };

    ghost view = { λ s. record {
      room = length s.items.items;
      cells = top_first s.items.items s.height;
    } };

    ghost invariant = { λ s. s.height ≤ length s.items.items };
}

/// How many items stay when a cell leaves the top, as often as it stands there.
fn height_without(items: &[u32], height: usize, cell: u32) -> usize
    requires height { height ≤ length items.now }
    ensures without { top_first items.now result ≡ without cell (top_first items.now height) }
    ensures height { result ≤ height }
{
    let mut rest = height;
    while rest > 0 {
        if items[rest - 1] != cell {
            return rest;
        }
        rest -= 1;
    }
    rest
}

impl MarkStack {
    /// A stack with room for so many cells, with none on it. The memory is taken here.
    pub fn with_room(alloc: Global, room: u32) -> Result<MarkStack, NoMemory>
        requires some { 1 ≤ room }
        requires few { room ≤ 1048576 }
        ensures stack { IfOk result (λ stack. stack ≡ record { room = room; cells = [] }) }
    {
        let items = vec![in alloc; 0u32; room as usize]?;
        Ok(MarkStack { items, height: 0 })
    }

    /// Takes all cells from it.
    pub(crate) fn clear(&mut self)
        ensures none { self.new ≡ emptied self.old }
    {
        self.height = 0;
    }

    /// Puts a cell on top, if there is room.
    pub(crate) fn push(&mut self, cell: u32) -> bool
        ensures room { result ≡ has_room self.old }
        ensures pushed { self.new ≡ pushed cell self.old }
    {
        if self.height < self.items.len() {
            self.items[self.height] = cell;
            self.height += 1;
            true
        } else {
            false
        }
    }

    /// Whether no cell waits on it.
    pub(crate) fn is_empty(&self) -> bool
        ensures empty { result ≡ is_empty self.now.cells }
    {
        self.height == 0
    }

    /// The cell on top.
    fn top(&self) -> Option<u32>
        ensures top { result ≡ top_of self.now.cells }
    {
        if self.height == 0 {
            None
        } else {
            Some(self.items[self.height - 1])
        }
    }

    /// Takes a cell from the top, as often as it stands there.
    fn leave(&mut self, cell: u32)
        ensures left { self.new ≡ record self.old { cells = without cell self.old.cells } }
    {
        self.height = height_without(&self.items, self.height, cell);
    }

    /// The cell to be looked at next, which leaves the stack: the topmost one that is not the given
    /// one; and the given one where no other is left.
    pub(crate) fn next_besides(&mut self, at: u32) -> u32
        ensures left { self.new ≡ looked_at result self.old }
        ensures next { result ≡ next_of at self.old.cells }
        ensures below { (cells : ℕ) → at < cells → AllBelow cells self.old.cells → result < cells }
    {
        self.leave(at);
        match self.top() {
            None => at,
            Some(cell) => {
                self.leave(cell);
                cell
            }
        }
    }
}
