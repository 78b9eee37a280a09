//! What is written of a dump that was loaded.
ghost use Rattle.std.specs.Prelude.{◌≡◌, IfOk};
ghost use Rattle.doc_tree.specs.Lawful.{IsLawful};
ghost use Rattle.result_text.specs.Loaded.{loaded_text_of};

use doc_model::NoMemory;
use doc_tree::Tree;
use std::alloc::Global;

/// The lines of a version and its tree.
#[tactic(auto, using(std::proofs::lemmas::List::append_assoc))]
pub fn loaded_text(alloc: Global, version: u64, tree: &Tree) -> Result<Vec<u8>, NoMemory>
    requires lawful { IsLawful tree.now }
    ensures text { IfOk result (λ text. text.items ≡ loaded_text_of version tree.now) }
{
    let nodes = tree.count();
    let height = tree.height();
    let mut text = format!(in alloc; "version {version}\n")?.into_bytes();
    text.extend_from_slice(format!(in alloc; "nodes {nodes}\n")?.as_bytes())?;
    text.extend_from_slice(format!(in alloc; "height {height}\n")?.as_bytes())?;
    Ok(text)
}
