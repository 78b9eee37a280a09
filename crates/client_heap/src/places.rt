//! Giving places of the held list back, comparing two, and answering handshakes, which leaves all
//! places.
ghost use Rattle.std.specs.Prelude.{ℕ, ◌≡◌, ◌<◌, ◌≤◌, ◌+◌, ◌==◌, length, true};
ghost use Rattle.client_heap.specs.Carries.{Carries};
ghost use Rattle.client_heap.specs.Shows.{node_term};
ghost use Rattle.client_trees.specs.declared.at.NodeAt.TheVariants as at;
ghost use Rattle.client_trees.specs.Nodes.{IsTreeAt};
ghost use Rattle.heap_rule.specs.Asks.{known_of, target};

use client_history::Documents;
use client_trees::ClientSeat;
use minor_heap::MinorHeap;
use mutator_seat::Mutator;

/// Gives back all places except the first so many.
pub(crate) fn cut_back<M: ClientSeat<Pass = Documents>>(m: &mut M, minor: &MinorHeap, places: usize)
    requires inside { (M.bound m.old).seat.me.presence.inside ≡ true }
    requires some { 1 ≤ places }
    requires kept { places ≤ length (M.bound m.old).seat.me.own.held }
    ensures carries { Carries places (M.bound m.old) (M.bound m.new) minor.now minor.now }
    ensures held { length (M.bound m.new).seat.me.own.held ≡ places }
    ensures pass { (M.bound m.new).seat.me.pass ≡ (M.bound m.old).seat.me.pass }
    ensures claims { (M.bound m.new).seat.me.own.claims ≡ (M.bound m.old).seat.me.own.claims }
{
    // As much is known as is held, and records name only older ones.
    let _held = m.held_count();
    let _records = minor.len();
    m.cut_to(places);
}

/// Whether the nodes at two places are in the same cell, and so have the same term.
pub(crate) fn is_same(
    m: &mut Mutator<'_, Documents>,
    minor: &MinorHeap,
    first: usize,
    second: usize,
) -> bool
    requires inside { m.old.seat.me.presence.inside ≡ true }
    requires first { IsTreeAt m.old minor.now (at.Shared first) }
    requires second { IsTreeAt m.old minor.now (at.Shared second) }
    ensures same { result ≡ (target m.old.seat.me first == target m.old.seat.me second) }
    ensures term { result ≡ true → node_term m.old minor.now (at.Shared first)
        ≡ node_term m.old minor.now (at.Shared second) }
    ensures carries { Carries (length m.old.seat.me.own.held) m.old m.new minor.now minor.now }
    ensures held { length m.new.seat.me.own.held ≡ length m.old.seat.me.own.held }
    ensures pass { m.new.seat.me.pass ≡ m.old.seat.me.pass }
    ensures claims { m.new.seat.me.own.claims ≡ m.old.seat.me.own.claims }
{
    let _held = m.held_len();
    let _records = minor.len();
    m.is_same(first, second)
}

/// Answers a handshake, if one is asked for.
pub(crate) fn safe_point(m: &mut Mutator<'_, Documents>, minor: &MinorHeap)
    requires inside { m.old.seat.me.presence.inside ≡ true }
    ensures carries { Carries (length m.old.seat.me.own.held) m.old m.new minor.now minor.now }
    ensures held { length m.new.seat.me.own.held ≡ length m.old.seat.me.own.held }
    ensures pass { m.new.seat.me.pass ≡ m.old.seat.me.pass }
    ensures claims { m.new.seat.me.own.claims ≡ m.old.seat.me.own.claims }
{
    let _records = minor.len();
    let _answered = m.answer();
}

/// Holds the cell of a place after the anchor, and nothing else.
pub(crate) fn keep_alone(m: &mut Mutator<'_, Documents>, minor: &MinorHeap, place: usize)
    requires inside { m.old.seat.me.presence.inside ≡ true }
    requires there { place < length m.old.seat.me.own.held }
    requires room { 2 ≤ m.old.seat.me.room }
    ensures carries { Carries 1 m.old m.new minor.now minor.now }
    ensures held { length m.new.seat.me.own.held ≡ 2 }
    ensures known { known_of m.new.seat.me 1 ≡ known_of m.old.seat.me place }
    ensures pass { m.new.seat.me.pass ≡ m.old.seat.me.pass }
{
    let _held = m.held_len();
    let _records = minor.len();
    m.keep(1, place, 1);
}

/// Holds the cell of a place once more, after all others.
fn hold_again(m: &mut Mutator<'_, Documents>, minor: &MinorHeap, place: usize)
    requires inside { m.old.seat.me.presence.inside ≡ true }
    requires there { place < length m.old.seat.me.own.held }
    requires room { length m.old.seat.me.own.held + 1 ≤ m.old.seat.me.room }
    ensures carries { Carries (length m.old.seat.me.own.held) m.old m.new minor.now minor.now }
    ensures held { length m.new.seat.me.own.held ≡ length m.old.seat.me.own.held + 1 }
    ensures known { known_of m.new.seat.me (length m.old.seat.me.own.held)
        ≡ known_of m.old.seat.me place }
    ensures still { (p : ℕ) → p < length m.old.seat.me.own.held
        → known_of m.new.seat.me p ≡ known_of m.old.seat.me p }
    ensures pass { m.new.seat.me.pass ≡ m.old.seat.me.pass }
{
    let held = m.held_len();
    let _records = minor.len();
    m.keep(held, place, 1);
}

/// Holds the cells of two consecutive places after the anchor, and nothing else.
fn keep_two(m: &mut Mutator<'_, Documents>, minor: &MinorHeap, place: usize)
    requires inside { m.old.seat.me.presence.inside ≡ true }
    requires there { place + 1 < length m.old.seat.me.own.held }
    requires room { 3 ≤ m.old.seat.me.room }
    ensures carries { Carries 1 m.old m.new minor.now minor.now }
    ensures held { length m.new.seat.me.own.held ≡ 3 }
    ensures first { known_of m.new.seat.me 1 ≡ known_of m.old.seat.me place }
    ensures second { known_of m.new.seat.me 2 ≡ known_of m.old.seat.me (place + 1) }
    ensures pass { m.new.seat.me.pass ≡ m.old.seat.me.pass }
{
    let _held = m.held_len();
    let _records = minor.len();
    m.keep(1, place, 2);
}

/// Holds the cells of two places after the anchor, and nothing else.
pub(crate) fn keep_pair(m: &mut Mutator<'_, Documents>, minor: &MinorHeap, x: usize, y: usize)
    requires inside { m.old.seat.me.presence.inside ≡ true }
    requires first { x < length m.old.seat.me.own.held }
    requires second { y < length m.old.seat.me.own.held }
    requires room { length m.old.seat.me.own.held + 2 ≤ m.old.seat.me.room }
    ensures carries { Carries 1 m.old m.new minor.now minor.now }
    ensures held { length m.new.seat.me.own.held ≡ 3 }
    ensures first { known_of m.new.seat.me 1 ≡ known_of m.old.seat.me x }
    ensures second { known_of m.new.seat.me 2 ≡ known_of m.old.seat.me y }
    ensures pass { m.new.seat.me.pass ≡ m.old.seat.me.pass }
{
    let held = m.held_len();
    hold_again(m, minor, x);
    hold_again(m, minor, y);
    keep_two(m, minor, held);
}
