//! Reading a file by name, whole or up to a limit.
//!
//! Each turn of `read_file` takes at least one byte, so a device without an end stops it too: after
//! `READ_LIMIT` bytes, one more than the largest file that is accepted.
ghost use Rattle.std.specs.Prelude.{◌≡◌, ℕ, ◌+◌, ◌<◌, ◌≤◌, List, length, Option, OnOk, IfOk, is_ok};
ghost use Rattle.std.specs.Prelude.{IsErrOf, Result};
ghost use Rattle.std.specs.Io.{ReadsAtMost};
ghost use Rattle.std.specs.Io.KnownBytes.{ReadConsumes, Consumes, IsAtEnd};
ghost use Rattle.outside.specs.Calls.{after_call, IsUnbroken, IsOrderly};
ghost use Rattle.outside.specs.Causes.{Rose, next_count};
ghost use Rattle.outside.specs.declared.course.Course.{Course};
ghost use Rattle.outside.specs.Pieces.{IsFrontOf, AddsRead};

use crate::fault::OutFault;
use std::alloc::{AllocError, Global};

/// A place where files stand by name. At most one is open, and it is read from its start.
pub trait Shelf {
    /// What each name holds, where the shelf tells it.
    ghost holds: { Self → List ℕ → Option (List ℕ) };

    /// What is left of the open file, where the shelf tells it.
    ghost left: { Self → Option (List ℕ) };

    /// The last call of `open` succeeded.
    ghost is_open: { Self → Type 0 };

    /// How many files were opened or tried.
    ghost opens: { Self → ℕ };

    /// How many calls failed: it never falls.
    ghost faults: { Self → ℕ };

    /// How its calls went so far.
    ghost course: { Self → Course };

    /// How many calls were made, where the shelf counts them.
    ghost calls: { Self → ℕ } = { λ _. 0 };

    /// Opens the file of this name, in place of the one before.
    fn open(&mut self, name: &str) -> Result<(), OutFault>
        ensures open { OnOk result (is_open self.new) }
        ensures whole { OnOk result (left self.new ≡ holds self.old name.now) }
        ensures held { holds self.new ≡ holds self.old }
        ensures opens { opens self.new ≡ next_count (opens self.old) }
        ensures calls { calls self.new ≤ calls self.old + 1 }
        ensures course { course self.new ≡ after_call (course self.old) (is_ok result) }
        ensures faults { faults self.old ≤ faults self.new }
        ensures cause { IsErrOf result OutFault.Failed → Rose (faults self.old) (faults self.new) };

    /// Fills the front of the buffer with what comes next in the open file, and says how much it
    /// is. Nothing comes for a buffer with room only at the end.
    fn read(&mut self, buffer: &mut [u8]) -> Result<usize, OutFault>
        requires { is_open self.old }
        ensures open { is_open self.new }
        ensures bound { ReadsAtMost result buffer.new }
        ensures bytes { ReadConsumes (left self.old) (left self.new) result buffer.new }
        ensures held { holds self.new ≡ holds self.old }
        ensures opens { opens self.new ≡ opens self.old }
        ensures calls { calls self.new ≤ calls self.old + 1 }
        ensures course { course self.new ≡ after_call (course self.old) (is_ok result) }
        ensures faults { faults self.old ≤ faults self.new }
        ensures cause { IsErrOf result OutFault.Failed → Rose (faults self.old) (faults self.new) };
}

/// How many bytes `read_file` takes at most.
pub const READ_LIMIT: usize = 1_048_577;

// How many bytes one turn asks for.
const PIECE: usize = 65_536;

/// Opens a file and reads it to its end, or until `READ_LIMIT` bytes are taken.
#[tactic(auto, using(crate::proofs::Courses::courses))]
pub fn read_file<H: Shelf>(alloc: Global, shelf: &mut H, name: &str) -> Result<Vec<u8>, OutFault>
    ensures content { IfOk result (λ bytes.
        IsFrontOf (H.holds shelf.old name.now) READ_LIMIT bytes.items) }
    ensures taken { IfOk result (λ bytes.
        Consumes (H.holds shelf.old name.now) (H.left shelf.new) bytes.items) }
    ensures limit { IfOk result (λ bytes. length bytes.items ≤ READ_LIMIT) }
    ensures turns { IfOk result (λ bytes.
        H.calls shelf.new ≤ H.calls shelf.old + length bytes.items + 2) }
    ensures calls { H.calls shelf.new ≤ H.calls shelf.old + READ_LIMIT + 1 }
    ensures held { H.holds shelf.new ≡ H.holds shelf.old }
    ensures opens { H.opens shelf.new ≡ next_count (H.opens shelf.old) }
    ensures unbroken { OnOk result (IsUnbroken (H.course shelf.old)
        → IsUnbroken (H.course shelf.new)) }
    ensures orderly { IsUnbroken (H.course shelf.old) → IsOrderly (H.course shelf.new) }
    ensures faults { H.faults shelf.old ≤ H.faults shelf.new }
    ensures cause { IsErrOf result OutFault.Failed →
        Rose (H.faults shelf.old) (H.faults shelf.new) }
{
    shelf.open(name)?;
    read_front(alloc, shelf, READ_LIMIT)
}

// Reads what is left of the open file to its end, or until `limit` bytes are taken.
#[tactic(auto, using(crate::proofs::Courses::courses))]
fn read_front<H: Shelf>(alloc: Global, shelf: &mut H, limit: usize) -> Result<Vec<u8>, OutFault>
    requires { H.is_open shelf.old }
    ensures content { IfOk result (λ bytes. IsFrontOf (H.left shelf.old) limit bytes.items) }
    ensures taken { IfOk result (λ bytes.
        Consumes (H.left shelf.old) (H.left shelf.new) bytes.items) }
    ensures limit { IfOk result (λ bytes. length bytes.items ≤ limit) }
    ensures turns { IfOk result (λ bytes.
        H.calls shelf.new ≤ H.calls shelf.old + length bytes.items + 1) }
    ensures calls { H.calls shelf.new ≤ H.calls shelf.old + limit }
    ensures held { H.holds shelf.new ≡ H.holds shelf.old }
    ensures opens { H.opens shelf.new ≡ H.opens shelf.old }
    ensures unbroken { OnOk result (IsUnbroken (H.course shelf.old)
        → IsUnbroken (H.course shelf.new)) }
    ensures orderly { IsUnbroken (H.course shelf.old) → IsOrderly (H.course shelf.new) }
    ensures faults { H.faults shelf.old ≤ H.faults shelf.new }
    ensures cause { IsErrOf result OutFault.Failed →
        Rose (H.faults shelf.old) (H.faults shelf.new) }
{
    let mut piece = zeros(alloc, PIECE)?;
    let mut bytes = Vec::new(alloc);
    while bytes.len() < limit {
        let room = (limit - bytes.len()).min(PIECE);
        let count = read_more(shelf, &mut piece[..room], &mut bytes)?;
        if count == 0 {
            return Ok(bytes);
        }
    }
    Ok(bytes)
}

// One turn: what the shelf puts into the piece is added to the bytes.
#[tactic(auto, using(crate::proofs::Courses::courses))]
fn read_more<H: Shelf>(
    shelf: &mut H,
    piece: &mut [u8],
    bytes: &mut Vec<u8>,
) -> Result<usize, OutFault>
    requires { H.is_open shelf.old }
    ensures open { H.is_open shelf.new }
    ensures bound { IfOk result (λ count. count ≤ length piece.old) }
    ensures bytes { IfOk result (λ count.
        AddsRead (H.left shelf.old) (H.left shelf.new) bytes.old.items bytes.new.items count) }
    ensures end { IfOk result (λ count.
        count ≡ 0 → 0 < length piece.old → IsAtEnd (H.left shelf.new)) }
    ensures held { H.holds shelf.new ≡ H.holds shelf.old }
    ensures opens { H.opens shelf.new ≡ H.opens shelf.old }
    ensures calls { H.calls shelf.new ≤ H.calls shelf.old + 1 }
    ensures unbroken { OnOk result (IsUnbroken (H.course shelf.old)
        → IsUnbroken (H.course shelf.new)) }
    ensures orderly { IsUnbroken (H.course shelf.old) → IsOrderly (H.course shelf.new) }
    ensures faults { H.faults shelf.old ≤ H.faults shelf.new }
    ensures cause { IsErrOf result OutFault.Failed →
        Rose (H.faults shelf.old) (H.faults shelf.new) }
{
    let count = shelf.read(piece)?;
    bytes.extend_from_slice(&piece[..count])?;
    Ok(count)
}

fn zeros(alloc: Global, count: usize) -> Result<Vec<u8>, AllocError>
    ensures { IfOk result (λ bytes. length bytes.items ≡ count) }
{
    vec![in alloc; 0u8; count]
}
