ghost use Rattle.core_machine.specs.declared.events.Found.{Found};
ghost use Rattle.heap_rule.specs.Steps.{same_pass};
ghost use Rattle.heap_rule.specs.declared.known.Learned.{Learned};

use std::marker::Brand;

/// Which pass a client picks at a read, a write or a fill: from what a read told, what was found,
/// and the pass before. A `Brand` leaves the pass as it is.
pub trait Choice<P> {
    ghost next: { Learned → Found → P → P };
}

impl<P> Choice<P> for Brand {
    ghost next = { same_pass };
}
