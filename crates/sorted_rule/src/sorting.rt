ghost use Rattle.heap_rule.specs.NoRule.{no_field_is_fixed};
ghost use Rattle.sorted_rule.specs.Sorted.{HoldsSorted, opening_pass, sorted_shrinks};

use heap_rule::Keeping;

/// How many fields of each box name boxes: the heap's setting. Every mutator has the same number as
/// its pass, from the opening on, and none ever changes it. No code makes a value of it.
#[derive(Clone, Copy, Drop)]
pub struct Sorting {
    pub boxes: u64,
}

impl Keeping for Sorting {
    ghost opening = { opening_pass };

    ghost holds = { HoldsSorted };

    ghost fixed = { no_field_is_fixed };

    ghost shrinks = { sorted_shrinks };
}
