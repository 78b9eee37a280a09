//! Taking an item: the anchor moves on by one item.
ghost use Rattle.std.specs.Prelude.{◌≡◌, ◌<◌, ◌≤◌, ◌+◌, IfErr, IfNone, IfSome, OnOk, false, length};
ghost use Rattle.std.specs.Prelude.{true};
ghost use Rattle.cell_words.specs.declared.fields.Field.TheVariants as field;
ghost use Rattle.core_machine.specs.Words.{same_field};
ghost use Rattle.heap_rule.specs.Asks.{target};
ghost use Rattle.mail_rule.specs.Mail.{HoldsMail, is_fixed};
ghost use Rattle.mutator_events.specs.declared.values.Value.TheVariants as values;
ghost use Rattle.mutator_seat.specs.Writes.{MayUpdate, PicksUpdate, Updated};
ghost use Rattle.held_places.specs.Calls.{IsIn};
ghost use Rattle.cell_mailbox.specs.Ends.{FindsEmpty, Takes, TurnEnds};
ghost use Rattle.cell_mailbox.specs.Pacing.{Paces, Prompt};

use crate::reading::{read_item, read_latest, read_next};
use crate::turns::Turn;
use mail_rule::{Item, MailPass};
use mutator_seat::{Choice, Moved, Mutator, Value};
use std::marker::Brand;
use std::sync::Wait;

/// Takes the first item that nobody has taken, if there is one. Where another mutator takes it
/// first, it tries the next one.
pub fn take<R: Wait>(rt: &R, m: &mut Mutator<'_, MailPass>) -> Option<Item>
    requires inside { m.old.seat.me.presence.inside ≡ true }
    requires room { length m.old.seat.me.own.held + 8 ≤ m.old.seat.me.room }
    ensures took { IfSome result (λ item. Takes m.old m.new item) }
    ensures none { IfNone result (FindsEmpty m.old m.new) }
    ensures prompt { Prompt m.old m.new }
{
    let held = m.held_len();
    for _ in rt.forever() {
        let _ = m.answer();
        let turn = try_to_take(m);
        m.cut(held);
        match turn {
            Turn::Took(item) => return Some(item),
            Turn::Empty => return None,
            Turn::Lost => (),
        }
    }
    unreachable!()
}

/// Tries once to take the item after the one that was taken last.
fn try_to_take(m: &mut Mutator<'_, MailPass>) -> Turn
    requires inside { IsIn m.old }
    requires room { length m.old.seat.me.own.held + 2 < m.old.seat.me.room }
    ensures ends { TurnEnds m.old m.new result }
    ensures pace { Paces 0 5 m.old m.new }
{
    let latest = read_latest(m);
    match read_next(m, latest) {
        Some(next) => {
            let item = read_item(m, next);
            match go_on::<Brand>(m, latest, next, item) {
                Ok(()) => Turn::Took(item),
                Err(_) => Turn::Lost,
            }
        }
        None => Turn::Empty,
    }
}

/// Exchanges the anchor's field, from the box of one item to that of the item after it. The item
/// only serves the pass that the caller picks; at run time it does nothing.
fn go_on<C: Choice<MailPass>>(
    m: &mut Mutator<'_, MailPass>,
    latest: usize,
    next: usize,
    item: Item,
) -> Result<(), Moved>
    requires may { MayUpdate is_fixed m.old.seat.me 0 0 (values.Held latest) (values.Held next) }
    requires rule { PicksUpdate HoldsMail is_fixed C.next m.old 0 0 (values.Held latest)
        (values.Held next) }
    ensures made { OnOk result (Updated HoldsMail is_fixed C.next m.old 0 0 (values.Held latest)
        (values.Held next) (field.Cell (target m.old.seat.me latest)) m.new) }
    ensures moved { IfErr result (λ moved.
        (same_field moved.found (field.Cell (target m.old.seat.me latest)) ≡ false)
        × Updated HoldsMail is_fixed C.next m.old 0 0 (values.Held latest) (values.Held next)
        moved.found m.new) }
    ensures pace { Paces 5 5 m.old m.new }
{
    let _ = item;
    m.update::<C>(0, 0, Value::Held(latest), Value::Held(next))
}
