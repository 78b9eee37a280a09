//! The receiver's takes on its mutator, one after the other.
ghost use Rattle.std.specs.Prelude.{◌≡◌, ◌≤◌, ◌+◌, ◌++◌, [], ◌∷◌, length, true};
ghost use Rattle.std.specs.Bool.{OnTrue};
ghost use Rattle.mail_threads.specs.Calls.{Emptied, IsFresh, Received, TakesOne};
ghost use Rattle.cell_mailbox.specs.Ends.{Returns};

use cell_mailbox::{Item, MailPass, await_item, take};
use mutator_seat::Mutator;
use std::sync::Wait;

/// How many looks for an item come before a take at most: for some 4 milliseconds.
const LOOKS: u32 = 1_024;

/// By how many the looks get fewer after a take that found nothing.
const FEWER: u32 = 64;

/// How many looks come before each take at least, however many found nothing.
const LEAST: u32 = 1;

/// How many looks come before the next take. The longer nothing came, the fewer they are: where
/// lines were refused, the receiver has takes left when all senders are done, and should end
/// soon.
fn looks_after(looks: u32, found: bool) -> u32 {
    if found {
        LOOKS
    } else {
        looks.saturating_sub(FEWER).max(LEAST)
    }
}

/// Takes once.
fn take_one<R: Wait>(rt: &R, m: &mut Mutator<'_, MailPass>) -> Option<Item>
    requires inside { m.old.seat.me.presence.inside ≡ true }
    requires room { length m.old.seat.me.own.held + 8 ≤ m.old.seat.me.room }
    ensures takes { TakesOne result m.old m.new }
{
    // What the trail shows begins with what the mutator has.
    let _held = m.held_len();
    take(rt, m)
}

/// Takes once, when there is an item or so many looks found none. It stores in `looks` how many
/// come before the next take.
fn take_next<R: Wait>(rt: &R, m: &mut Mutator<'_, MailPass>, looks: &mut u32) -> Option<Item>
    requires inside { m.old.seat.me.presence.inside ≡ true }
    requires room { length m.old.seat.me.own.held + 8 ≤ m.old.seat.me.room }
    ensures takes { TakesOne result m.old m.new }
{
    await_item(m, *looks);
    let taken = take_one(rt, m);
    *looks = looks_after(*looks, taken.is_some());
    taken
}

/// Keeps an item, unless memory runs out.
fn keep(items: &mut Vec<Item>, item: Item) -> bool
    ensures kept { OnTrue result (items.new.items ≡ items.old.items ++ item ∷ []) }
{
    items.push(item).is_ok()
}

/// Takes so many times, each time when there is an item or it looked for one long enough, and keeps
/// what it takes, unless memory runs out.
pub(crate) fn take_turns<R: Wait>(
    rt: &R,
    m: &mut Mutator<'_, MailPass>,
    lines: u32,
    items: &mut Vec<Item>,
) -> bool
    requires fresh { IsFresh m.old }
    requires empty { items.old.items ≡ [] }
    ensures returns { Returns [] m.old m.new }
    ensures received { OnTrue result (Received lines items.new.items m.old m.new) }
{
    let mut looks = LOOKS;
    for _line in 0..lines {
        match take_next(rt, m, &mut looks) {
            Some(item) => {
                if !keep(items, item) {
                    return false;
                }
            }
            None => (),
        }
    }
    true
}

/// Takes until there is nothing more, and keeps what it takes, unless memory runs out.
pub(crate) fn take_rest<R: Wait>(
    rt: &R,
    m: &mut Mutator<'_, MailPass>,
    items: &mut Vec<Item>,
) -> bool
    requires inside { m.old.seat.me.presence.inside ≡ true }
    requires room { length m.old.seat.me.own.held + 8 ≤ m.old.seat.me.room }
    ensures returns { Returns [] m.old m.new }
    ensures emptied { OnTrue result (Emptied items.old.items items.new.items m.old m.new) }
{
    for _ in rt.forever() {
        match take_one(rt, m) {
            Some(item) => {
                if !keep(items, item) {
                    return false;
                }
            }
            None => return true,
        }
    }
    unreachable!()
}
