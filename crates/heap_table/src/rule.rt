//! The rule that stands between any two steps on the table, for any client.
ghost use Rattle.heap_rule.specs.Opening.{opening_view};
ghost use Rattle.heap_rule.specs.Rule.{Kept};

use atomic_table::TableRule;
use heap_rule::{HeapShape, Keeping, View};
use std::marker::PhantomData;

/// The rule of the table under a client's rule.
pub struct HeapRule<P> {
    client: PhantomData<P>,
}

impl<P: Keeping> TableRule<(), View<P>, HeapShape> for HeapRule<P> {
    ghost holds = { λ h. Kept P.opening P.holds P.fixed h };

    ghost first = { opening_view P.opening };
}
