//! A counter in the anchor, and the rule that it is the sum of what the mutators have added.
ghost use Rattle.cell_tests.specs.Counting.{Counts, counts_on};
ghost use Rattle.heap_rule.specs.NoRule.{no_field_is_fixed};

use heap_rule::Keeping;

/// What one mutator has added to the counter.
#[derive(Clone, Copy, Drop)]
pub struct Added {
    pub sum: u64,
}

impl Keeping for Added {
    ghost opening = { λ number setting. record { sum = 0 } };

    ghost holds = { Counts };

    ghost fixed = { no_field_is_fixed };

    ghost shrinks = { counts_on };
}
