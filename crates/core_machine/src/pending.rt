//! Writes that a mutator has begun: it has read the field, and is to store it.
ghost use Rattle.core_machine.specs.Own.{pending_or_none};
ghost use Rattle.std.specs.Prelude.{◌≡◌};

use cell_words::Field;

/// A write that a mutator has begun and not ended: the place of the box and the field, and what was
/// read there.
#[derive(Clone, Copy, Debug, PartialEq, Eq)]
pub struct Pending {
    pub place: usize,
    pub f: usize,
    pub found: Field,
}

pub(crate) fn pending_or_none(pending: Option<Pending>) -> Pending
    ensures pending { result ≡ pending_or_none pending }
{
    match pending {
        None => Pending {
            place: 0,
            f: 0,
            found: Field::Null,
        },
        Some(begun) => begun,
    }
}
