//! The rule: a box that the anchor names has what the first mutator keeps.
ghost use Rattle.heap_rule.specs.NoRule.{no_field_is_fixed};
ghost use Rattle.example_root.specs.Rule.{HasKept, kept_shrinks, nothing_kept};

use heap_rule::Keeping;

/// The number whose record a mutator keeps, if it keeps one: its pass.
#[derive(Clone, Copy, Drop)]
pub struct Kept {
    pub number: Option<u64>,
}

impl Keeping for Kept {
    ghost opening = { nothing_kept };

    ghost holds = { HasKept };

    ghost fixed = { no_field_is_fixed };

    ghost shrinks = { kept_shrinks };
}
