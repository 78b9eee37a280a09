//! Why an edit of a tree is refused.
use crate::NoMemory;
use std::alloc::AllocFailed;

/// The first that applies, in this order; `NoMemory` alone may come at any time.
#[derive(Clone, Copy, Debug, Drop, PartialEq, Eq)]
pub enum EditFault {
    /// The path that is to be deleted is not there.
    Absent,
    /// A node on the way has as many children as a node may have, and not the next name.
    Many,
    /// The whole tree would be too high.
    Deep,
    /// The whole tree would have too many nodes.
    Big,
    NoMemory,
}

impl From<NoMemory> for EditFault {
    ghost use Rattle.std.specs.Prelude.{◌≡◌};
    ghost use Rattle.doc_tree.specs.declared.edit.EditFault.TheVariants.{NoMemory as memory};

    ghost from_gives = { λ _ fault. fault ≡ memory };

    fn from(_: NoMemory) -> EditFault {
        EditFault::NoMemory
    }
}

impl<T: Drop> From<AllocFailed<T>> for EditFault {
    ghost use Rattle.std.specs.Prelude.{◌≡◌};
    ghost use Rattle.doc_tree.specs.declared.edit.EditFault.TheVariants.{NoMemory as memory};

    ghost from_gives = { λ _ fault. fault ≡ memory };

    fn from(_: AllocFailed<T>) -> EditFault {
        EditFault::NoMemory
    }
}
