//! The rule: the counter is the sum of what the mutators have added.
ghost use Rattle.heap_rule.specs.NoRule.{no_field_is_fixed};
ghost use Rattle.example_counter.specs.Counting.{Counts, counts_on, nothing_added};

use heap_rule::Keeping;

/// What one mutator has added to the counter: its pass.
#[derive(Clone, Copy, Drop)]
pub struct Added {
    pub sum: u64,
}

impl Keeping for Added {
    ghost opening = { nothing_added };

    ghost holds = { Counts };

    ghost fixed = { no_field_is_fixed };

    ghost shrinks = { counts_on };
}
