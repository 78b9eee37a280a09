//! Sending an item: a new box, and one exchange of null in the last one.
ghost use Rattle.std.specs.Prelude.{ℕ, ◌≡◌, ◌<◌, ◌≤◌, ◌+◌, ◌^◌, IfErr, IfOk, OnOk, false, length};
ghost use Rattle.std.specs.Prelude.{true};
ghost use Rattle.cell_words.specs.declared.fields.Field.TheVariants as field;
ghost use Rattle.core_machine.specs.Words.{same_field};
ghost use Rattle.free_cells.specs.Hints.{queue_of};
ghost use Rattle.mail_rule.specs.Mail.{HoldsMail, is_fixed};
ghost use Rattle.mutator_events.specs.declared.values.Value.TheVariants as values;
ghost use Rattle.mutator_seat.specs.Stretches.{Calm};
ghost use Rattle.mutator_seat.specs.Writes.{MayUpdate, PicksUpdate, Updated};
ghost use Rattle.trails.specs.Claims.{FindsFull};
ghost use Rattle.cell_making.specs.Makes.{MakesBox};
ghost use Rattle.held_places.specs.Calls.{IsIn};
ghost use Rattle.cell_mailbox.specs.Ends.{FindsFullHeap, PostEnds, Sends};
ghost use Rattle.cell_mailbox.specs.Makes.{item_values};
ghost use Rattle.cell_mailbox.specs.Pacing.{Prompt};
ghost use Rattle.cell_mailbox.specs.Walks.{EndsAt, Walked};

use crate::reading::{read_latest, read_next, read_part};
use crate::turns::Post;
use crate::waiting::back_off;
use cell_making::fill_box;
use free_cells::Hints;
use mail_rule::{Item, MailPass, Sent};
use mutator_seat::{Choice, HeapFull, Moved, Mutator, Value};
use run_limits::{MOST_COMMANDS, MOST_VERSIONS};
use std::marker::Brand;
use std::sync::Wait;
use thread_waits::Backoff;

/// Sends a value, and tells its position. The box is claimed after a walk to the last item. Where
/// another mutator sends first, the box is dropped, and after a wait a new one is claimed for the
/// new position. The wait is at most some 128 microseconds, and from the second time on some 256.
pub fn send<R: Wait>(
    rt: &R,
    hints: &mut Hints<'_>,
    m: &mut Mutator<'_, MailPass>,
    sender: u32,
    value: u64,
) -> Result<u64, HeapFull>
    requires inside { m.old.seat.me.presence.inside ≡ true }
    requires room { length m.old.seat.me.own.held + 8 ≤ m.old.seat.me.room }
    requires sender { sender ≡ m.old.seat.me.number + 1 }
    requires value { value < 2 ^ 32 }
    requires few { length m.old.seat.me.pass.sends < MOST_COMMANDS }
    ensures sent { IfOk result (λ position. Sends m.old m.new
        (record { position = position; value = value })) }
    ensures full { IfErr result (λ full. FindsFullHeap m.old m.new full) }
    ensures walk { Walked m.old m.new }
    ensures queue { queue_of hints.new ≡ queue_of hints.old }
{
    let held = m.held_len();
    let mut backoff = Backoff::new(u64::from(sender));
    for _ in rt.forever() {
        let post = try_to_send(rt, hints, m, held, sender, value);
        m.cut(held);
        match post {
            Post::Sent(position) => return Ok(position),
            Post::Full(full) => return Err(full),
            Post::Lost => back_off(m, &mut backoff),
        }
    }
    unreachable!()
}

/// Tries once to put a new box after the last one.
fn try_to_send<R: Wait>(
    rt: &R,
    hints: &mut Hints<'_>,
    m: &mut Mutator<'_, MailPass>,
    held: usize,
    sender: u32,
    value: u64,
) -> Post
    requires inside { IsIn m.old }
    requires held { held ≡ length m.old.seat.me.own.held }
    requires room { length m.old.seat.me.own.held + 8 ≤ m.old.seat.me.room }
    requires sender { sender ≡ m.old.seat.me.number + 1 }
    requires value { value < 2 ^ 32 }
    requires few { length m.old.seat.me.pass.sends < MOST_COMMANDS }
    ensures ends { PostEnds m.old m.new value result }
    ensures walk { Walked m.old m.new }
    ensures queue { queue_of hints.new ≡ queue_of hints.old }
{
    let before = find_last(rt, m, held);
    let item = Item {
        position: before + 1,
        sender,
        value,
    };
    match make_item(rt, hints, m, item) {
        Ok(fresh) => {
            let sent = Sent {
                position: item.position,
                value,
            };
            match link::<Brand>(m, held, fresh, sent) {
                Ok(()) => Post::Sent(item.position),
                Err(_) => Post::Lost,
            }
        }
        Err(full) => Post::Full(full),
    }
}

/// Walks to the last item, which is then held after all that was held before. It tells the position
/// of that item.
fn find_last<R: Wait>(rt: &R, m: &mut Mutator<'_, MailPass>, held: usize) -> u64
    requires inside { IsIn m.old }
    requires held { held ≡ length m.old.seat.me.own.held }
    requires room { length m.old.seat.me.own.held + 1 < m.old.seat.me.room }
    ensures last { EndsAt m.old m.new held result }
    ensures prompt { Prompt m.old m.new }
{
    let _latest = read_latest(m);
    for _ in rt.forever() {
        let _ = m.answer();
        match read_next(m, held) {
            Some(next) => m.keep(held, next, 1),
            None => return read_part(m, held, 0),
        }
    }
    unreachable!()
}

/// Makes the box of an item, which nothing names yet. There may be
/// `MOST_VERSIONS` items before it.
fn make_item<R: Wait>(
    rt: &R,
    hints: &mut Hints<'_>,
    m: &mut Mutator<'_, MailPass>,
    item: Item,
) -> Result<usize, HeapFull>
    requires inside { m.old.seat.me.presence.inside ≡ true }
    requires room { length m.old.seat.me.own.held < m.old.seat.me.room }
    requires position { item.position ≤ MOST_VERSIONS + 1 }
    requires sender { item.sender < 2 ^ 32 }
    requires value { item.value < 2 ^ 32 }
    ensures made { IfOk result (λ fresh. MakesBox m.old fresh (item_values item) m.new) }
    ensures full { IfErr result (λ full.
        Calm (FindsFull m.old.seat.me.number m.old.seat.me.shape.cells
        full.off_duty full.began full.ended) m.old m.new) }
    ensures queue { queue_of hints.new ≡ queue_of hints.old }
{
    let fields = [
        Value::Num(item.position),
        Value::Num(item.sender as u64),
        Value::Num(item.value),
        Value::Null,
        Value::Null,
    ];
    fill_box(rt, hints, m, fields)
}

/// Exchanges null in the box of an item for the fresh box. What is sent only serves the pass that
/// the caller picks; at run time it does nothing.
fn link<C: Choice<MailPass>>(
    m: &mut Mutator<'_, MailPass>,
    last: usize,
    fresh: usize,
    sent: Sent,
) -> Result<(), Moved>
    requires may { MayUpdate is_fixed m.old.seat.me last 3 values.Null (values.Held fresh) }
    requires rule { PicksUpdate HoldsMail is_fixed C.next m.old last 3 values.Null
        (values.Held fresh) }
    ensures made { OnOk result (Updated HoldsMail is_fixed C.next m.old last 3 values.Null
        (values.Held fresh) field.Null m.new) }
    ensures moved { IfErr result (λ moved. (same_field moved.found field.Null ≡ false)
        × Updated HoldsMail is_fixed C.next m.old last 3 values.Null (values.Held fresh)
        moved.found m.new) }
{
    let _ = sent;
    m.update::<C>(last, 3, Value::Null, Value::Held(fresh))
}
