//! What a client's records need of a mutator.
ghost use Rattle.std.specs.Prelude.{ℕ, ◌≡◌, ◌<◌, ◌≤◌, true, length};
ghost use Rattle.cell_words.specs.Term.{part};
ghost use Rattle.client_trees.specs.Records.{IsAmong, SharedRead, known_term, outside_of};
ghost use Rattle.client_trees.specs.Records.{part_held};
ghost use Rattle.core_machine.specs.declared.events.Event.TheVariants as event;
ghost use Rattle.core_machine.specs.declared.events.Found.TheVariants as finds;
ghost use Rattle.heap_rule.specs.Asks.{MayKeep};
ghost use Rattle.heap_rule.specs.Lore.{known_at};
ghost use Rattle.minor_heap.specs.Nursery.{IsOrdered, Nursery};
ghost use Rattle.mutator_seat.specs.Bound.{Bound, takes};

use crate::at::NodeAt;
use doc_records::Part;
use heap_rule::Keeping;
use mutator_seat::{Mutator, Value};
use std::marker::Brand;

/// A mutator, as one of a type that names no lifetime: the state of what is lent in a struct is
/// known again when the loan ends, if its type is a parameter.
pub trait ClientSeat {
    /// What the client's rule knows of the mutator.
    type Pass;

    ghost bound: { Self → Bound Self.Pass };

    /// How many places are held.
    fn held_count(&self) -> usize
        ensures len { result ≡ length (bound self.now).seat.me.own.held }
        ensures known { length (bound self.now).seat.me.known ≡ result }
        ensures some { (bound self.now).seat.me.presence.inside ≡ true → 1 ≤ result };

    /// A field of a shared record.
    fn read_part(&mut self, place: usize, index: usize) -> Part<NodeAt>
        requires inside { (bound self.old).seat.me.presence.inside ≡ true }
        requires fit { length (bound self.old).seat.me.known
            ≡ length (bound self.old).seat.me.own.held }
        requires known { IsAmong (bound self.old).seat.me.known
            (length (bound self.old).seat.me.own.held) place }
        requires range { index < 5 }
        requires room { length (bound self.old).seat.me.own.held < (bound self.old).seat.me.room }
        ensures inside { (bound self.new).seat.me.presence.inside ≡ true }
        ensures reads { (minor : Nursery) (names : ℕ × ℕ) → IsOrdered 0 minor.records
            → SharedRead minor (outside_of (bound self.old) names)
            (outside_of (bound self.new) names) (bound self.old).seat.me (bound self.new).seat.me
            (part index (known_term (known_at (bound self.old).seat.me.known place))) result };

    /// Keeps the first `n` places.
    fn cut_to(&mut self, n: usize)
        requires inside { (bound self.old).seat.me.presence.inside ≡ true }
        requires some { 1 ≤ n }
        requires kept { n ≤ length (bound self.old).seat.me.own.held }
        ensures told { bound self.new ≡ takes (bound self.old)
            (event.Keep (bound self.old).seat.me.number n 0 0)
            (finds.Presence (bound self.old).seat.me.presence) };

    /// Keeps the first `n` places, and after them the cell that stood at `place`.
    fn keep_one(&mut self, n: usize, place: usize)
        requires may { MayKeep (bound self.old).seat.me n place 1 }
        ensures told { bound self.new ≡ takes (bound self.old)
            (event.Keep (bound self.old).seat.me.number n place 1)
            (finds.Presence (bound self.old).seat.me.presence) };
}

impl<'h, P: Keeping> ClientSeat for Mutator<'h, P> {
    type Pass = P;

    ghost bound = { λ m. m };

    #[inline(always)]
    fn held_count(&self) -> usize {
        self.held_len()
    }

    #[inline(always)]
    fn read_part(&mut self, place: usize, index: usize) -> Part<NodeAt> {
        part_held(self.read::<Brand>(place, index))
    }

    #[inline(always)]
    fn cut_to(&mut self, n: usize) {
        self.cut(n);
    }

    #[inline(always)]
    fn keep_one(&mut self, n: usize, place: usize) {
        self.keep(n, place, 1);
    }
}

/// What a read of a held cell gave.
#[inline(always)]
fn part_held(value: Value) -> Part<NodeAt>
    ensures { result ≡ part_held value }
{
    match value {
        Value::Null => Part::Null,
        Value::Num(number) => Part::Num(number),
        Value::Held(place) => Part::Record(NodeAt::Shared(place)),
    }
}
