//! A census, from the bytes of a heap file to the numbers of its heap.
//!
//! The refusals of a file are looked for in the order of its reading: it could not be read, it is
//! too long, it is no heap file or its heap has no census.
ghost use Rattle.std.specs.Prelude.{◌≡◌, ℕ, ◌+◌, ◌≤◌, IsErrOf, OnOk};
ghost use Rattle.outside.specs.Calls.{IsUnbroken, IsOrderly};
ghost use Rattle.outside.specs.Causes.{Rose, next_count};
ghost use Rattle.script_files.specs.Counted.{Counts, CountsFile};

use crate::fault::Fault;
use crate::in_turn::LARGEST_FILE;
use image_files::{Census, ImageError, ImageFault, read_image};
use outside::{OutFault, READ_LIMIT, Shelf, read_file};
use std::alloc::Global;

// The only file of a census.
const FILE: u32 = 1;

/// The census of the heap that the file of this name shows.
#[tactic(auto, using(crate::proofs::Images::counted_file))]
pub fn census_in_file<H: Shelf>(alloc: Global, name: &str, shelf: &mut H) -> Result<Census, Fault>
    ensures counted { CountsFile result (H.holds shelf.old name.now) }
    ensures read { (file : ℕ) → IsErrOf result (Fault.ReadFault file) →
        Rose (H.faults shelf.old) (H.faults shelf.new) }
    ensures opens { H.opens shelf.new ≡ next_count (H.opens shelf.old) }
    ensures calls { H.calls shelf.new ≤ H.calls shelf.old + READ_LIMIT + 1 }
    ensures unbroken { OnOk result (IsUnbroken (H.course shelf.old)
        → IsUnbroken (H.course shelf.new)) }
    ensures orderly { IsUnbroken (H.course shelf.old) → IsOrderly (H.course shelf.new) }
    ensures faults { H.faults shelf.old ≤ H.faults shelf.new }
{
    match read_file(alloc, shelf, name) {
        Ok(bytes) => census_in_bytes(alloc, &bytes),
        Err(OutFault::Failed) => Err(Fault::ReadFault { file: FILE }),
        Err(OutFault::NoMemory) => Err(Fault::Memory),
    }
}

// The census of the heap that the bytes show.
fn census_in_bytes(alloc: Global, bytes: &[u8]) -> Result<Census, Fault>
    ensures counted { Counts result bytes.now }
{
    if bytes.len() > LARGEST_FILE {
        return Err(Fault::TooLarge { file: FILE });
    }
    match read_image(alloc, bytes) {
        Ok(census) => Ok(census),
        Err(ImageError::Fault(ImageFault { line, kind })) => Err(Fault::Image { line, kind }),
        Err(ImageError::NoMemory) => Err(Fault::Memory),
    }
}
