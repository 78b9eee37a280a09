//! Files that are read one after another.
//!
//! The refusals of a file are looked for in the order of its reading: it could not be read, it is
//! too long, it is none of its grammar, the files up to it have too many items. The first file that
//! is refused decides, and no further one is opened.
ghost use Rattle.std.specs.Prelude.{◌≡◌, ℕ, ◌+◌, ◌*◌, ◌≤◌, List, length, map, IfOk, OnOk, IsErrOf};
ghost use Rattle.std.specs.Prelude.{sum_by};
ghost use Rattle.outside.specs.Calls.{IsUnbroken, IsOrderly};
ghost use Rattle.outside.specs.Causes.{Rose, next_count};
ghost use Rattle.script_files.specs.Files.{OpensInTurn, opened};
ghost use Rattle.script_files.specs.InTurn.{AddsFile, AddsList, GathersFrom, Parse, StopsIn};
ghost use Rattle.script_files.specs.InTurn.{list_in};
ghost use Rattle.script_files.specs.Sorts.{Grammar};
ghost use Rattle.run_limits.specs.declared.TheConstants.{MOST_COMMANDS};

use crate::fault::Fault;
use outside::{OutFault, READ_LIMIT, Shelf, read_file};
use std::alloc::Global;

/// How many bytes a file has at most.
pub(crate) const LARGEST_FILE: usize = 1_048_576;

/// What is gathered from files that are read in turn: a list of each, and a note of its bytes.
pub(crate) trait Gathering {
    /// an item of a list
    type Each;
    /// what is noted of a file
    type Note;

    // what the files are read as
    ghost grammar: { Grammar };

    // how that reads the bytes of a file
    ghost parse: { Parse Self.Each };

    // what is noted of them
    ghost note: { List ℕ → Self.Note };

    // the lists that are gathered so far
    ghost lists: { Self → List (List Self.Each) };

    // and their notes
    ghost notes: { Self → List Self.Note };

    // what is so of all items besides
    ghost fits: { Self → Type 0 };

    /// Adds the list that the bytes of this file are, after so many items of the files before it,
    /// and tells how many it has.
    fn add(&mut self, alloc: Global, bytes: &[u8], file: u32, before: usize) -> Result<usize, Fault>
        requires before { before ≤ MOST_COMMANDS }
        requires fits { fits self.old }
        ensures added { AddsList grammar (list_in parse file before bytes.now) (note bytes.now)
            result (lists self.old) (lists self.new) (notes self.old) (notes self.new) }
        ensures few { IfOk result (λ count. before + count ≤ MOST_COMMANDS) }
        ensures fits { fits self.new };
}

/// Gathers from the files of these names. The first of them has this number, and so many items
/// stand in the files before it.
#[tactic(auto, using(crate::proofs::Gathered::in_turn, crate::proofs::Opens::openings, crate::proofs::Turns::turn_stopped))]
pub(crate) fn gather<H: Shelf, G: Gathering>(
    alloc: Global,
    names: &[&str],
    file: u32,
    before: usize,
    shelf: &mut H,
    gathered: &mut G,
) -> Result<(), Fault>
    requires few { file + length names.now ≤ 65 }
    requires before { before ≤ MOST_COMMANDS }
    requires all { sum_by length (G.lists gathered.old) ≡ before }
    requires fits { G.fits gathered.old }
    ensures lists { GathersFrom G.grammar G.parse G.note file before
        (map (H.holds shelf.old) (map (λ name. name.now) names.now)) result
        (G.lists gathered.old) (G.lists gathered.new)
        (G.notes gathered.old) (G.notes gathered.new) }
    ensures fits { G.fits gathered.new }
    ensures count { OnOk result (length (G.lists gathered.new)
        ≡ length (G.lists gathered.old) + length names.now) }
    ensures total { OnOk result (sum_by length (G.lists gathered.new) ≤ MOST_COMMANDS) }
    ensures read { (place : ℕ) → IsErrOf result (Fault.ReadFault place) →
        Rose (H.faults shelf.old) (H.faults shelf.new) }
    ensures read_file { (place : ℕ) → IsErrOf result (Fault.ReadFault place) → (more : ℕ)
        × (file + more ≡ place + 1) × (H.opens shelf.new ≡ opened (H.opens shelf.old) more) }
    ensures opens { OpensInTurn (H.opens shelf.old) (H.opens shelf.new) (length names.now) }
    ensures all_opened { OnOk result (H.opens shelf.new
        ≡ opened (H.opens shelf.old) (length names.now)) }
    ensures stops { StopsIn G.parse file before
        (map (H.holds shelf.old) (map (λ name. name.now) names.now))
        (H.opens shelf.old) (H.opens shelf.new) }
    ensures calls { H.calls shelf.new
        ≤ H.calls shelf.old + length names.now * (READ_LIMIT + 1) }
    ensures unbroken { OnOk result (IsUnbroken (H.course shelf.old)
        → IsUnbroken (H.course shelf.new)) }
    ensures orderly { IsUnbroken (H.course shelf.old) → IsOrderly (H.course shelf.new) }
    ensures faults { H.faults shelf.old ≤ H.faults shelf.new }
{
    let [name, others @ ..] = names else {
        return Ok(());
    };
    let count = match gather_file(alloc, name, file, before, shelf, gathered) {
        Ok(count) => count,
        Err(fault) => return Err(fault),
    };
    gather(alloc, others, file + 1, before + count, shelf, gathered)
}

// Gathers from the file of this name, and tells how many items it has.
#[tactic(auto, using(crate::proofs::Sessions::added_file))]
fn gather_file<H: Shelf, G: Gathering>(
    alloc: Global,
    name: &str,
    file: u32,
    before: usize,
    shelf: &mut H,
    gathered: &mut G,
) -> Result<usize, Fault>
    requires before { before ≤ MOST_COMMANDS }
    requires fits { G.fits gathered.old }
    ensures added { AddsFile G.grammar G.parse G.note file before (H.holds shelf.old name.now)
        result (G.lists gathered.old) (G.lists gathered.new)
        (G.notes gathered.old) (G.notes gathered.new) }
    ensures few { IfOk result (λ count. before + count ≤ MOST_COMMANDS) }
    ensures fits { G.fits gathered.new }
    ensures held { H.holds shelf.new ≡ H.holds shelf.old }
    ensures read { (place : ℕ) → IsErrOf result (Fault.ReadFault place) →
        Rose (H.faults shelf.old) (H.faults shelf.new) }
    ensures opens { H.opens shelf.new ≡ next_count (H.opens shelf.old) }
    ensures calls { H.calls shelf.new ≤ H.calls shelf.old + READ_LIMIT + 1 }
    ensures unbroken { OnOk result (IsUnbroken (H.course shelf.old)
        → IsUnbroken (H.course shelf.new)) }
    ensures orderly { IsUnbroken (H.course shelf.old) → IsOrderly (H.course shelf.new) }
    ensures faults { H.faults shelf.old ≤ H.faults shelf.new }
{
    match read_file(alloc, shelf, name) {
        Ok(bytes) => gathered.add(alloc, &bytes, file, before),
        Err(OutFault::Failed) => Err(Fault::ReadFault { file }),
        Err(OutFault::NoMemory) => Err(Fault::Memory),
    }
}
