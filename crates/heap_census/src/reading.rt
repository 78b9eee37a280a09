//! Where cells are read.
ghost use Rattle.heap_census.specs.Heap.{Heap, NamesFit, ShowsHeap, image_fits};
ghost use Rattle.std.specs.Prelude.{ℕ, ◌<◌, ◌≡◌};

use cell_words::{Colour, Field};
use heap_table::Image;

/// The cells of a heap that nobody changes any more.
pub trait Cells {
    /// What they may be taken for.
    ghost shows: { Self → Heap → Type 0 };

    /// How many there are.
    ghost size: { Self → ℕ };

    /// How many there are.
    fn cells(&self) -> u32
        ensures { result ≡ size self.now };

    /// The colour of a cell.
    fn colour(&self, cell: u32) -> Colour
        requires { cell < size self.now }
        ensures { (h : Heap) → shows self.now h → result ≡ h.colour cell };

    /// A field of a cell: the payload 0 to 4, and the kind in field 5.
    fn field(&self, cell: u32, i: usize) -> Field
        requires cell { cell < size self.now }
        requires field { i < 6 }
        ensures { (h : Heap) → shows self.now h → result ≡ h.field cell i };

    /// There is an anchor, and each field names a cell that there is.
    ghost fits: { (c : Self) (h : Heap) → shows c h → NamesFit (size c) h };
}

impl Cells for Image {
    ghost shows = { λ i h. ShowsHeap i h };

    ghost size = { λ i. i.cells };

    ghost fits = { λ i h shows. image_fits i h shows };

    fn cells(&self) -> u32 {
        self.cells()
    }

    fn colour(&self, cell: u32) -> Colour {
        self.colour(cell)
    }

    fn field(&self, cell: u32, i: usize) -> Field {
        self.field(cell, i)
    }
}
