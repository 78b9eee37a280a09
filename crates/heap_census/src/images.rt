//! A closed heap in numbers and as text.
//!
//! This module is public, since `census` and `Census` cannot both be names of the crate's root: the
//! toolchain refuses names of one module that differ only in case.
ghost use Rattle.core_machine.specs.State.{State};
ghost use Rattle.heap_census.specs.Census.{AddsUp, IsCensus, IsFaulty, IsSound};
ghost use Rattle.heap_census.specs.Heap.{heap_of};
ghost use Rattle.heap_census.specs.ImageText.{image_text};
ghost use Rattle.heap_table.specs.Images.{Shows};
ghost use Rattle.std.specs.Prelude.{IfOk, IfSome, MatchOption, ◌≡◌};

use crate::numbers::Census;
use crate::taking::census_of;
use crate::writing::text_of;
use heap_table::{Image, NoMemory};
use std::alloc::Global;

/// The census of a closed heap. There is none where a cell with a role is free or has not its
/// layout.
pub fn census(alloc: Global, image: &Image) -> Result<Option<Census>, NoMemory>
    ensures found { IfOk result (λ found. (s : State) → Shows image.now s
        → MatchOption found (IsFaulty (heap_of s)) (λ x. IsSound (heap_of s))) }
    ensures counts { IfOk result (λ found. (s : State) → Shows image.now s
        → IfSome found (IsCensus (heap_of s))) }
    ensures sum { IfOk result (λ found. (s : State) → Shows image.now s
        → IfSome found AddsUp) }
{
    let found = census_of(alloc, image)?;
    Ok(found)
}

/// The text of a closed heap: a head with the number of cells, a line for each cell in use, and an
/// end.
pub fn image_text(alloc: Global, image: &Image) -> Result<Vec<u8>, NoMemory>
    ensures { IfOk result (λ text. (s : State) → Shows image.now s
        → text.items ≡ image_text (heap_of s)) }
{
    let text = text_of(alloc, image)?;
    Ok(text)
}
