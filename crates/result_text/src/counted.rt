//! What is written of a census.
ghost use Rattle.std.specs.Prelude.{◌≡◌, IfOk};
ghost use Rattle.result_text.specs.Counted.{census_text_of};

use doc_model::NoMemory;
use heap_census::Census;
use std::alloc::Global;

/// The lines of a census.
#[tactic(auto, using(std::proofs::lemmas::List::append_assoc))]
pub fn census_text(alloc: Global, census: &Census) -> Result<Vec<u8>, NoMemory>
    ensures text { IfOk result (λ text. text.items ≡ census_text_of census.now) }
{
    let Census {
        cells,
        free,
        versions,
        nodes,
        entries,
        texts,
        shared,
        floating,
    } = *census;
    let mut text = format!(in alloc; "cells {cells}\n")?.into_bytes();
    text.extend_from_slice(format!(in alloc; "free {free}\n")?.as_bytes())?;
    text.extend_from_slice(format!(in alloc; "versions {versions}\n")?.as_bytes())?;
    text.extend_from_slice(format!(in alloc; "nodes {nodes}\n")?.as_bytes())?;
    text.extend_from_slice(format!(in alloc; "entries {entries}\n")?.as_bytes())?;
    text.extend_from_slice(format!(in alloc; "texts {texts}\n")?.as_bytes())?;
    text.extend_from_slice(format!(in alloc; "shared {shared}\n")?.as_bytes())?;
    text.extend_from_slice(format!(in alloc; "floating {floating}\n")?.as_bytes())?;
    Ok(text)
}
