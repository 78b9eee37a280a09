//! A mutator and a private heap, borrowed while trees are read and made.
ghost use Rattle.std.specs.Prelude.{◌≡◌, true};

use crate::seat::ClientSeat;
use minor_heap::MinorHeap;

/// A mutator that is in, and its private heap.
#[derive(Drop)]
pub struct ClientRecords<'a, M: ClientSeat> {
    pub(crate) mutator: &'a mut M,
    pub(crate) minor: &'a mut MinorHeap,
    ghost inside: { (M.bound mutator.now).seat.me.presence.inside ≡ true },
}

impl<'a, M: ClientSeat> ClientRecords<'a, M> {
    /// The records of a client.
    pub fn new(mutator: &'a mut M, minor: &'a mut MinorHeap) -> ClientRecords<'a, M>
        requires inside { (M.bound mutator.old).seat.me.presence.inside ≡ true }
        ensures mutator { result.mutator.ghost_name ≡ mutator.entry.ghost_name }
        ensures minor { result.minor.ghost_name ≡ minor.entry.ghost_name }
        ensures same { result.mutator.now ≡ mutator.old }
        ensures records { result.minor.now ≡ minor.old }
    {
        ClientRecords { mutator, minor }
    }
}
