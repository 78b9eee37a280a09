//! Deletion: down the path, and back up with a copy of each node on it.
ghost use Rattle.std.specs.Prelude.{◌≡◌, ◌+◌, ◌*◌, ◌≤◌, OnErr, length};
ghost use Rattle.std.specs.Result.{ForOk};
ghost use Rattle.doc_tree.specs.Edits.{answered, delete};
ghost use Rattle.doc_records.specs.Pool.{Later};
ghost use Rattle.doc_records.specs.Trees.{IsNodeAt, IsTreeNode, tree_of};
ghost use Rattle.doc_edits.specs.Tops.{IsTreeAt};

use crate::bounds::{EDIT_PLACES, EDIT_RECORDS, END_PLACES, LEVEL_PLACES, LEVEL_RECORDS};
use crate::nodes::{with_child, without_child};
use doc_records::{RecordPool, find_child};
use doc_tree::{EditFault, Name, Path};

fn delete_along<R: RecordPool>(
    records: &mut R,
    at: R::At,
    names: &[Name],
) -> Result<R::At, EditFault>
    requires root { IsTreeAt (R.shown records.old) at }
    requires places { (R.shown records.old).held + LEVEL_PLACES * length names.now + END_PLACES
        ≤ (R.shown records.old).room }
    requires records { LEVEL_RECORDS * length names.now ≤ (R.shown records.old).records }
    ensures tree { answered (λ a. tree_of ((R.shown records.new).term a)) result
        ≡ delete names.now (tree_of ((R.shown records.old).term at)) }
    ensures node { ForOk result (IsNodeAt (R.shown records.new)) }
    ensures later { Later (R.shown records.old) (R.shown records.new) }
    ensures held { (R.shown records.new).held
        ≤ (R.shown records.old).held + LEVEL_PLACES * length names.now }
    ensures records { (R.shown records.old).records
        ≤ (R.shown records.new).records + LEVEL_RECORDS * length names.now }
{
    let [name, rest @ ..] = names else {
        return Err(EditFault::Absent);
    };
    let Some(child) = find_child(records, at, name) else {
        return Err(EditFault::Absent);
    };
    if rest.is_empty() {
        return Ok(without_child(records, at, name, child));
    }
    let edited = delete_along(records, child, rest)?;
    Ok(with_child(records, Some(at), name, Some(child), edited))
}

/// Removes the node at the path, with all that is below it.
#[tactic(auto, using(doc_tree::proofs::Orderly::path_short, doc_records::proofs::Spellings::kept_back))]
pub fn delete<R: RecordPool>(records: &mut R, root: R::At, path: &Path) -> Result<R::At, EditFault>
    requires stands { (R.shown records.old).stands (R.shown records.old).held root }
    requires node { IsTreeNode ((R.shown records.old).term root) }
    requires places { (R.shown records.old).held + EDIT_PLACES ≤ (R.shown records.old).room }
    requires records { EDIT_RECORDS ≤ (R.shown records.old).records }
    ensures tree { answered (λ a. tree_of ((R.shown records.new).term a)) result
        ≡ delete path.now (tree_of ((R.shown records.old).term root)) }
    ensures node { ForOk result (IsTreeAt (R.shown records.new)) }
    ensures later { Later (R.shown records.old) (R.shown records.new) }
    ensures held { (R.shown records.new).held ≤ (R.shown records.old).held + EDIT_PLACES }
    ensures refused { OnErr result ((R.shown records.new).held ≡ (R.shown records.old).held) }
    ensures records { (R.shown records.old).records ≤ (R.shown records.new).records + EDIT_RECORDS }
{
    let held = records.held();
    match delete_along(records, root, path.names()) {
        Ok(node) => Ok(node),
        Err(fault) => {
            records.cut(held);
            Err(fault)
        }
    }
}
