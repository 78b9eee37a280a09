//! Why there is no dump.
ghost use Rattle.std.specs.Prelude.{◌≡◌};
ghost use Rattle.doc_export.specs.declared.fault.DumpFault.TheVariants as faults;

use doc_tree::NoMemory;

/// Why a version was not dumped.
#[derive(Clone, Copy, Debug, PartialEq, Eq)]
pub(crate) enum DumpFault {
    /// the tree has so many nodes, which are more than a dump may have
    TooMany { count: u64 },
    NoMemory,
}

impl From<NoMemory> for DumpFault {
    ghost from_gives = { λ _ error. error ≡ faults.NoMemory };

    fn from(_: NoMemory) -> DumpFault {
        DumpFault::NoMemory
    }
}
