ghost use Rattle.heap_rule.specs.Boxes.{Map, Smaller};
ghost use Rattle.heap_rule.specs.NoRule.{anything_holds, no_field_is_fixed, nothing_to_keep};
ghost use Rattle.std.specs.Prelude.{Bool, List, ℕ};

/// A client's rule over the boxes of a heap. A value of the type is a pass: what the rule knows of
/// one mutator. It takes no room at run time and changes at this mutator's steps alone.
pub trait Keeping {
    // the pass of a mutator at the start, by its number, in a heap with this setting
    ghost opening: { ℕ → ℕ → Self };

    // the rule, on the reachable boxes that are not fresh and on the passes by mutator
    ghost holds: { Map → List Self → Type 0 };

    // the payload fields that no write changes, but in the anchor
    ghost fixed: { ℕ → Bool };

    // the rule stands on every smaller map
    ghost shrinks: { (old new : Map) (passes : List Self) → Smaller old new → holds old passes
        → holds new passes };
}

/// The rule of a client that asks for nothing.
#[derive(Clone, Copy, Drop)]
pub struct NoRule;

impl Keeping for NoRule {
    ghost opening = { λ number setting. record {} };

    ghost holds = { anything_holds };

    ghost fixed = { no_field_is_fixed };

    ghost shrinks = { nothing_to_keep };
}
