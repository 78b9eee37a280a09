ghost use Rattle.mail_rule.specs.Mail.{HoldsMail, is_fixed};
ghost use Rattle.mail_rule.specs.Passes.{opening_pass};
ghost use Rattle.mail_rule.specs.Shrinks.{mail_shrinks};

use crate::items::{Item, Sent};
use heap_rule::Keeping;
use std::collections::LinkedList;

/// What one mutator has sent and what it has taken, each in its order. No code makes a value of it.
#[derive(Drop)]
pub struct MailPass {
    pub sends: LinkedList<Sent>,
    pub takes: LinkedList<Item>,
}

impl Keeping for MailPass {
    ghost opening = { opening_pass };

    ghost holds = { HoldsMail };

    ghost fixed = { is_fixed };

    ghost shrinks = { mail_shrinks };
}
