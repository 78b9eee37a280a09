//! The guest's wait for the end of some script.
ghost use Rattle.std.specs.Prelude.{◌≡◌, ◌+◌, ◌≤◌, false, true};
ghost use Rattle.client_threads.specs.Going.{Waits};
ghost use Rattle.doc_export.specs.Looks.{looks};
ghost use Rattle.version_store.specs.Lasts.{marks};

use crate::ending::Ending;
use client_history::Documents;
use mutator_seat::Mutator;
use thread_waits::wait_piece;

/// How often the guest looks for the end of some script at most.
const LOOKS: u32 = 1_000_000;

/// Answers handshakes until some client has ended its script, or it looked for that often enough.
/// It says whether one has.
pub(crate) fn await_end<G: Ending>(ending: &G, m: &mut Mutator<'_, Documents>) -> bool
    requires inside { m.old.seat.me.presence.inside ≡ true }
    ensures waits { Waits m.old m.new }
    ensures looked { result ≡ false
        → looks (marks m.old) + 1_000_000 ≤ looks (marks m.new) }
{
    for look in 0..LOOKS {
        if ending.has_ended() {
            return true;
        }
        let _answered = m.answer();
        wait_piece(look);
    }
    false
}
