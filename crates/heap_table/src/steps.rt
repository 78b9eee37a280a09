//! What a seat's operation on a word means, and what it tells.
ghost use Rattle.std.specs.Prelude.{◌≡◌};
ghost use Rattle.core_machine.specs.declared.events.Event.{Event};
ghost use Rattle.core_machine.specs.declared.events.Event.TheVariants as event;
ghost use Rattle.core_machine.specs.declared.events.Found.{Found};
ghost use Rattle.heap_rule.specs.declared.known.Learned.{Learned};
ghost use Rattle.heap_rule.specs.Steps.{AtCollectorStep, AtStep, same_pass};
ghost use Rattle.heap_table.specs.Joined.{JoinedIsOver};

use atomic_table::Play;
use heap_rule::{Keeping, View};
use std::marker::{Brand, PhantomData};

/// What a call means by its operation. A seat's call picks it from its own arguments.
pub trait Intent<P> {
    // the event
    ghost event: { Event };

    // the pass that a mutator picks: from what a read told, what was found, and the pass before
    ghost next: { Learned → Found → P → P };
}

impl<P> Intent<P> for Brand {
    ghost event = { event.Begin 0 };

    ghost next = { same_pass };
}

/// A step of a mutator's seat.
pub struct MutatorStep<E> {
    intent: PhantomData<E>,
}

impl<P: Keeping, E: Intent<P>> Play<(), View<P>> for MutatorStep<E> {
    ghost then = { λ s m n after. AtStep P.holds P.fixed m.0 E.event E.next n after.0 × (after.1 ≡ m.1) };
}

/// A step of the collector's seat.
pub struct CollectorStep<E> {
    intent: PhantomData<E>,
}

impl<P: Keeping, E: Intent<P>> Play<(), View<P>> for CollectorStep<E> {
    ghost then = { λ s m n after. AtCollectorStep P.fixed m.0 E.event n after.0 × (after.1 ≡ m.1) };
}

/// A step of the collector's seat that gives the number found: of a joined mutator's status word it
/// says that this one is over.
pub struct CollectorLook<E> {
    intent: PhantomData<E>,
}

impl<P: Keeping, E: Intent<P>> Play<(), View<P>> for CollectorLook<E> {
    ghost then = { λ s m n after. AtCollectorStep P.fixed m.0 E.event n after.0
        × JoinedIsOver m.0 s.word n × (after.1 ≡ m.1) };
}
