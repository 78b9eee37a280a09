//! Waits for another mutator: for an item, and after an exchange that was lost. Handshakes are
//! answered between two pieces of a wait, so no cycle waits for it.
ghost use Rattle.std.specs.Prelude.{◌≡◌, ◌<◌, ◌≤◌, ◌+◌, length, true};
ghost use Rattle.held_places.specs.Calls.{IsIn};
ghost use Rattle.cell_mailbox.specs.Ends.{LostTry, Rests};
ghost use Rattle.cell_mailbox.specs.Pacing.{Paces, Prompt};

use crate::reading::{read_latest, read_next};
use mail_rule::MailPass;
use mutator_seat::Mutator;
use thread_waits::{Backoff, wait_piece};

/// Waits until there is an item to take, for at most so many looks. Each look that finds none is
/// followed by some 4 microseconds of waiting, and after each fourth the processor is offered to
/// others. Without looks it does nothing. What it saw is not told, since another mutator may be
/// faster.
pub fn await_item(m: &mut Mutator<'_, MailPass>, looks: u32)
    requires inside { m.old.seat.me.presence.inside ≡ true }
    requires room { length m.old.seat.me.own.held + 8 ≤ m.old.seat.me.room }
    ensures rests { Rests m.old m.new }
    ensures prompt { Prompt m.old m.new }
{
    let held = m.held_len();
    for look in 0..looks {
        let _ = m.answer();
        let there = sees_item(m);
        m.cut(held);
        if there {
            return;
        }
        wait_piece(look);
    }
}

/// Whether an item follows the one that was taken last. The boxes that it read stay held.
fn sees_item(m: &mut Mutator<'_, MailPass>) -> bool
    requires inside { IsIn m.old }
    requires room { length m.old.seat.me.own.held + 2 < m.old.seat.me.room }
    ensures ends { LostTry m.old m.new }
    ensures pace { Paces 0 5 m.old m.new }
{
    let latest = read_latest(m);
    match read_next(m, latest) {
        Some(_) => true,
        None => false,
    }
}

/// Waits after an exchange that another mutator made first.
pub(crate) fn back_off(m: &mut Mutator<'_, MailPass>, backoff: &mut Backoff)
    requires inside { m.old.seat.me.presence.inside ≡ true }
    ensures rests { Rests m.old m.new }
    ensures prompt { Prompt m.old m.new }
{
    for piece in 0..backoff.pieces() {
        wait_piece(piece);
        let _answered = m.answer();
    }
}
