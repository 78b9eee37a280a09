//! A sender's lines on its mutator, one after the other.
ghost use Rattle.std.specs.Prelude.{◌≡◌, ◌≤◌, ◌<◌, ◌+◌, ◌^◌, All, ℕ, [], length, true};
ghost use Rattle.std.specs.Prelude.{vec_capacity};
ghost use Rattle.free_cells.specs.Hints.{queue_of};
ghost use Rattle.mail_threads.specs.Calls.{IsFresh, PostsOne, Posted};

use cell_mailbox::{MailPass, send};
use free_cells::Hints;
use mutator_seat::Mutator;
use run_limits::MOST_COMMANDS;
use std::sync::Wait;

/// Sends one line: its position, or none where the heap is full.
fn send_line<R: Wait>(
    rt: &R,
    hints: &mut Hints<'_>,
    m: &mut Mutator<'_, MailPass>,
    sender: u32,
    value: u64,
) -> Option<u64>
    requires inside { m.old.seat.me.presence.inside ≡ true }
    requires room { length m.old.seat.me.own.held + 8 ≤ m.old.seat.me.room }
    requires sender { sender ≡ m.old.seat.me.number + 1 }
    requires value { value < 2 ^ 32 }
    requires few { length m.old.seat.me.pass.sends < MOST_COMMANDS }
    ensures posts { PostsOne value result m.old m.new }
    ensures queue { queue_of hints.new ≡ queue_of hints.old }
{
    // What the trail shows begins with what the mutator has.
    let _held = m.held_len();
    match send(rt, hints, m, sender, value) {
        Ok(position) => Some(position),
        Err(_) => None,
    }
}

/// Sends the lines of a script by a mutator that has sent nothing, and keeps each line's answer.
/// The list has room for that.
pub(crate) fn send_all<R: Wait>(
    rt: &R,
    hints: &mut Hints<'_>,
    m: &mut Mutator<'_, MailPass>,
    sender: u32,
    script: &[u64],
    sent: &mut Vec<Option<u64>>,
)
    requires fresh { IsFresh m.old }
    requires sender { sender ≡ m.old.seat.me.number + 1 }
    requires small { All (λ (value : ℕ). value < 2 ^ 32) script.now }
    requires short { length script.now ≤ MOST_COMMANDS }
    requires empty { sent.old.items ≡ [] }
    requires room { length script.now ≤ vec_capacity sent.old }
    ensures posted { Posted script.now sent.new.items m.old m.new }
    ensures queue { queue_of hints.new ≡ queue_of hints.old }
{
    for index in 0..script.len() {
        let answer = send_line(rt, hints, m, sender, script[index]);
        sent.push_reserved(answer);
    }
}
