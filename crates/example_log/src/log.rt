//! The rule: the log is one chain of boxes, an entry for each append, and the anchor names the
//! newest.
ghost use Rattle.example_log.specs.Logging.{KeepsLog, is_fixed, nothing_appended};
ghost use Rattle.example_log.specs.Shrinks.{log_shrinks};

use heap_rule::Keeping;

/// How many entries one mutator has appended: its pass.
#[derive(Clone, Copy, Drop)]
pub struct Appended {
    pub count: u64,
}

impl Keeping for Appended {
    ghost opening = { nothing_appended };

    ghost holds = { KeepsLog };

    ghost fixed = { is_fixed };

    ghost shrinks = { log_shrinks };
}
