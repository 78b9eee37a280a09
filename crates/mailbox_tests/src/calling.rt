//! A send, a take and a wait of a mutator whose number is known, and how much it has sent.
ghost use Rattle.std.specs.Prelude.{◌≤◌, ◌+◌};
ghost use Rattle.mailbox_tests.specs.Ready.{IsReady};

use cell_mailbox::{HeapFull, Item, MailPass, await_item, send, take};
use free_cells::Hints;
use mutator_seat::Mutator;
use std::sync::Wait;

pub(crate) fn put<R: Wait>(
    rt: &R,
    hints: &mut Hints<'_>,
    m: &mut Mutator<'_, MailPass>,
    number: u32,
    before: u64,
    value: u64,
) -> Result<u64, HeapFull>
    requires ready { IsReady number before m.old }
    requires small { number ≤ 1 }
    requires few { before ≤ 10 }
    requires value { value ≤ 100 }
    ensures ready { IsReady number (before + 1) m.new }
{
    let _ = before;
    send(rt, hints, m, number + 1, value)
}

pub(crate) fn get<R: Wait>(
    rt: &R,
    m: &mut Mutator<'_, MailPass>,
    number: u32,
    before: u64,
) -> Option<Item>
    requires ready { IsReady number before m.old }
    ensures ready { IsReady number before m.new }
{
    let _ = (number, before);
    take(rt, m)
}

/// Looks three times at most.
pub(crate) fn wait(m: &mut Mutator<'_, MailPass>, number: u32, before: u64)
    requires ready { IsReady number before m.old }
    ensures ready { IsReady number before m.new }
{
    let _ = (number, before);
    await_item(m, 3);
}
