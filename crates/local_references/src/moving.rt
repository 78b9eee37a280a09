//! Roots that move: their records are taken out in order, and put back.
ghost use Rattle.std.specs.Prelude.{◌≡◌, ◌≤◌, ◌+◌, ◌++◌, ◌∷◌, [], length, vec_capacity};
ghost use Rattle.aged_nursery.specs.Survivors.{AreSurvivors, NameNoMore};
ghost use Rattle.local_references.specs.Roots.{AllStand, AreMoved, IsMoved, RootsKeep};
ghost use Rattle.local_references.specs.Roots.{private_of};

use crate::roots::Root;
use aged_nursery::AgedNursery;
use minor_heap::MinorRef;

/// The record of a private root, as one more.
fn take_one(root: Root, refs: &mut Vec<MinorRef>)
    requires room { length refs.old.items + 1 ≤ vec_capacity refs.old }
    ensures taken { refs.new.items ≡ refs.old.items ++ private_of (root ∷ []) }
    ensures capacity { vec_capacity refs.new ≡ vec_capacity refs.old }
{
    match root {
        Root::Private(r) => refs.push_reserved(r),
        Root::Null | Root::Num(_) | Root::Shared(_) => (),
    }
}

/// The private roots, in order, into an empty list that has room.
pub(crate) fn take_private(slots: &[Root], refs: &mut Vec<MinorRef>)
    requires empty { refs.old.items ≡ [] }
    requires room { length slots.now ≤ vec_capacity refs.old }
    ensures private { refs.new.items ≡ private_of slots.now }
    ensures capacity { vec_capacity refs.new ≡ vec_capacity refs.old }
{
    for i in 0..slots.len() {
        take_one(slots[i], refs);
    }
}

/// How many records a root takes: one or none.
fn records_of(root: Root) -> usize
    ensures count { result ≡ length (private_of (root ∷ [])) }
{
    match root {
        Root::Private(_) => 1,
        Root::Null | Root::Num(_) | Root::Shared(_) => 0,
    }
}

/// The root with this one of the records, if it is private.
fn moved(root: Root, refs: &[MinorRef], next: usize) -> Root
    requires there { next + length (private_of (root ∷ [])) ≤ length refs.now }
    ensures moved { IsMoved refs.now next root result }
{
    match root {
        Root::Private(_) => Root::Private(refs[next]),
        Root::Null | Root::Num(_) | Root::Shared(_) => root,
    }
}

/// Puts records in place of the private roots, in order.
fn put_private(slots: &mut [Root], refs: &[MinorRef])
    requires many { length refs.now ≡ length (private_of slots.old) }
    ensures moved { AreMoved slots.old refs.now slots.new }
{
    let mut next = 0;
    for i in 0..slots.len() {
        let root = slots[i];
        slots[i] = moved(root, refs, next);
        next += records_of(root);
    }
}

/// Lets all records go but those that some roots reach. The private ones are these records.
pub(crate) fn age_roots(nursery: &mut AgedNursery, slots: &mut [Root], refs: &mut [MinorRef])
    requires private { refs.old ≡ private_of slots.old }
    requires stand { AllStand nursery.old.heap.records slots.old }
    requires whole { nursery.old.heap.room ≡ nursery.old.records }
    ensures keep { RootsKeep nursery.old.heap.records slots.old nursery.new.heap.records slots.new }
    ensures survivors { AreSurvivors nursery.old.heap.records (private_of slots.old)
        nursery.new.heap.records (private_of slots.new) }
    ensures named { NameNoMore nursery.old.heap.records nursery.new.heap.records }
    ensures many { length slots.new ≡ length slots.old }
    ensures refs { length refs.new ≡ length refs.old }
    ensures room { nursery.new.heap.room ≡ nursery.old.heap.room }
    ensures records { nursery.new.records ≡ nursery.old.records }
    ensures aged { nursery.new.aged ≡ length nursery.new.heap.records }
{
    nursery.age(refs);
    put_private(slots, refs);
}
