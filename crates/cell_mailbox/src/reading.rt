//! Reading the mailbox: the item that was taken last, the item after one, and what an item is.
ghost use Rattle.std.specs.Prelude.{ℕ, ◌≡◌, ◌<◌, ◌≤◌, IfNone, IfSome, length};
ghost use Rattle.held_places.specs.Calls.{IsIn};
ghost use Rattle.cell_mailbox.specs.Finds.{FindsItem, FindsLast, FindsNext, FindsPart, FindsWhole};
ghost use Rattle.cell_mailbox.specs.Pacing.{ReadsTimes};
ghost use Rattle.mail_rule.specs.Knowing.{KnowsItem};
ghost use Rattle.mail_rule.specs.declared.items.Item.{Item};

use mail_rule::{Item, MailPass};
use mutator_seat::{Mutator, Value};
use std::marker::Brand;

/// The place of the item that was taken last, or of the box before the first one.
pub(crate) fn read_latest(m: &mut Mutator<'_, MailPass>) -> usize
    requires inside { IsIn m.old }
    requires room { length m.old.seat.me.own.held < m.old.seat.me.room }
    ensures item { FindsItem m.old m.new 0 0 result }
    ensures pace { ReadsTimes 1 m.old m.new }
{
    match m.read::<Brand>(0, 0) {
        Value::Held(place) => place,
        Value::Null | Value::Num(_) => unreachable!(),
    }
}

/// The place of the item after the one at a place, if there is one.
pub(crate) fn read_next(m: &mut Mutator<'_, MailPass>, place: usize) -> Option<usize>
    requires inside { IsIn m.old }
    requires room { length m.old.seat.me.own.held < m.old.seat.me.room }
    requires item { (item : Item) × KnowsItem m.old.seat.me place item }
    ensures next { IfSome result (λ next. FindsNext m.old m.new place next) }
    ensures none { IfNone result (FindsLast m.old m.new place) }
    ensures pace { ReadsTimes 1 m.old m.new }
{
    match m.read::<Brand>(place, 3) {
        Value::Held(next) => Some(next),
        Value::Null => None,
        Value::Num(_) => unreachable!(),
    }
}

/// The position, the sender or the value of the item at a place.
pub(crate) fn read_part(m: &mut Mutator<'_, MailPass>, place: usize, part: usize) -> u64
    requires inside { IsIn m.old }
    requires room { length m.old.seat.me.own.held < m.old.seat.me.room }
    requires item { (item : Item) × KnowsItem m.old.seat.me place item }
    requires part { part ≤ 2 }
    ensures part { FindsPart m.old m.new place part result }
    ensures pace { ReadsTimes 1 m.old m.new }
{
    match m.read::<Brand>(place, part) {
        Value::Num(number) => number,
        Value::Null | Value::Held(_) => unreachable!(),
    }
}

/// The item at a place.
pub(crate) fn read_item(m: &mut Mutator<'_, MailPass>, place: usize) -> Item
    requires inside { IsIn m.old }
    requires room { length m.old.seat.me.own.held < m.old.seat.me.room }
    requires item { (item : Item) × KnowsItem m.old.seat.me place item }
    ensures item { FindsWhole m.old m.new place result }
    ensures pace { ReadsTimes 3 m.old m.new }
{
    let position = read_part(m, place, 0);
    let sender = read_part(m, place, 1);
    let value = read_part(m, place, 2);
    Item {
        position,
        sender: sender as u32,
        value,
    }
}
