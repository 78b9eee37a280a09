ghost use Rattle.std.specs.Prelude.{◌≡◌};
ghost use Rattle.outside.specs.declared.fault.OutFault.TheVariants.{NoMemory};

use std::alloc::{AllocError, AllocFailed};

/// Why a call on a shelf or a sink gave nothing.
#[derive(Clone, Copy, Debug, PartialEq, Eq)]
pub enum OutFault {
    /// The object itself failed, which its count of faults shows.
    Failed,
    /// Memory ran out.
    NoMemory,
}

impl From<AllocError> for OutFault {
    ghost from_gives = { λ _ fault. fault ≡ NoMemory };

    fn from(_error: AllocError) -> OutFault {
        OutFault::NoMemory
    }
}

impl<T: Drop> From<AllocFailed<T>> for OutFault {
    ghost from_gives = { λ _ fault. fault ≡ NoMemory };

    fn from(_error: AllocFailed<T>) -> OutFault {
        OutFault::NoMemory
    }
}
