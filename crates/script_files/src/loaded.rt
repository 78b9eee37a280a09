//! A dump, from the bytes of its file to the version and the tree that it is of.
//!
//! The refusals of a file are looked for in the order of its reading: it could not be read, it is
//! too long, it is no dump.
ghost use Rattle.std.specs.Prelude.{◌≡◌, ℕ, ◌+◌, ◌≤◌, IsErrOf, OnOk};
ghost use Rattle.outside.specs.Calls.{IsUnbroken, IsOrderly};
ghost use Rattle.outside.specs.Causes.{Rose, next_count};
ghost use Rattle.script_files.specs.Loaded.{Loads, LoadsFile};

use crate::fault::Fault;
use crate::in_turn::LARGEST_FILE;
use dump_text::{LoadError, LoadFault, Loaded, load};
use outside::{OutFault, READ_LIMIT, Shelf, read_file};
use std::alloc::Global;

// The only file of a load.
const FILE: u32 = 1;

/// The version and the tree of which the file of this name is the dump.
#[tactic(auto, using(crate::proofs::Sessions::loaded_file))]
pub fn dump_in_file<H: Shelf>(alloc: Global, name: &str, shelf: &mut H) -> Result<Loaded, Fault>
    ensures loaded { LoadsFile result (H.holds shelf.old name.now) }
    ensures read { (file : ℕ) → IsErrOf result (Fault.ReadFault file) →
        Rose (H.faults shelf.old) (H.faults shelf.new) }
    ensures opens { H.opens shelf.new ≡ next_count (H.opens shelf.old) }
    ensures calls { H.calls shelf.new ≤ H.calls shelf.old + READ_LIMIT + 1 }
    ensures unbroken { OnOk result (IsUnbroken (H.course shelf.old)
        → IsUnbroken (H.course shelf.new)) }
    ensures orderly { IsUnbroken (H.course shelf.old) → IsOrderly (H.course shelf.new) }
    ensures faults { H.faults shelf.old ≤ H.faults shelf.new }
{
    match read_file(alloc, shelf, name) {
        Ok(bytes) => dump_in_bytes(alloc, &bytes),
        Err(OutFault::Failed) => Err(Fault::ReadFault { file: FILE }),
        Err(OutFault::NoMemory) => Err(Fault::Memory),
    }
}

// The version and the tree of which the bytes are the dump.
fn dump_in_bytes(alloc: Global, bytes: &[u8]) -> Result<Loaded, Fault>
    ensures loaded { Loads result bytes.now }
{
    if bytes.len() > LARGEST_FILE {
        return Err(Fault::TooLarge { file: FILE });
    }
    match load(alloc, bytes) {
        Ok(loaded) => Ok(loaded),
        Err(LoadError::Fault(LoadFault { line, kind })) => Err(Fault::Dump { line, kind }),
        Err(LoadError::NoMemory) => Err(Fault::Memory),
    }
}
