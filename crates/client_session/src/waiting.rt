//! A client's wait after a lost try. Clients that try again at once take turn after turn from each
//! other, each with the cells that it promoted.
ghost use Rattle.std.specs.Prelude.{◌≡◌};
ghost use Rattle.client_session.specs.Handles.{Still};
ghost use Rattle.client_history.specs.State.{Rests};

use crate::heap::ClientHeap;
use thread_waits::{Backoff, wait_piece};
use version_rule::HeldVersion;

/// More than any client's number.
const CLIENTS: u64 = 128;

/// The waits of one command's tries, the first of them over this version: others than another
/// client's over the same version, and than this client's over another.
pub(crate) fn waits_over(client: u32, version: HeldVersion) -> Backoff {
    Backoff::new(version.number.wrapping_mul(CLIENTS) ^ u64::from(client))
}

/// Waits after a lost try, and answers a handshake after each piece of the wait.
pub(crate) fn back_off<H: ClientHeap>(heap: &mut H, backoff: &mut Backoff)
    ensures rests { Rests 0 (H.state heap.old) (H.state heap.new) }
    ensures still { Still (H.shown heap.old) (H.shown heap.new) }
    ensures lent { H.lent heap.new ≡ H.lent heap.old }
{
    let pieces = backoff.pieces();
    for piece in 0..pieces {
        wait_piece(piece);
        heap.safe_point();
    }
}
