//! Taking an entry out.
ghost use Rattle.std.specs.Prelude.{◌≡◌, ◌+◌, ◌≤◌, ◌<◌, ◌*◌};
ghost use Rattle.doc_tree.specs.Tree.{IsRising};
ghost use Rattle.kids_avl.specs.Entries.{entry, name_of, child_of, kids_of, height_of, IsBalanced};
ghost use Rattle.kids_avl.specs.Changes.{IsFirst, IsClosed, IsWithout};
ghost use Rattle.kids_avl.specs.Pool.{under, Stand, Later};

use crate::joining::joined;
use crate::pool::{KidPool, Opened, read_entry};
use doc_tree::Name;
use std::cmp::Ordering;

// The first entry of a tree, and what is left of it.
#[derive(Clone, Copy)]
pub(crate) struct First<At> {
    pub first: At,
    pub rest: Option<At>,
}

#[tactic(auto, using(crate::proofs::Steps::first_taken, crate::proofs::Turns::sides_rising))]
fn take_first<K: KidPool>(pool: &mut K, at: K::At) -> First<K::At>
    requires stands { K.stands pool.old at }
    requires balanced { IsBalanced (K.entries pool.old at) }
    requires rising { IsRising (kids_of (K.entries pool.old at)) }
    requires places { 12 * height_of (K.entries pool.old at) ≤ K.places pool.old }
    requires records { 3 * height_of (K.entries pool.old at) ≤ K.records pool.old }
    ensures first { IsFirst (K.entries pool.old at) (K.entries pool.new result.first)
        (under K.entries pool.new result.rest) }
    ensures stands { K.stands pool.new result.first }
    ensures rest { Stand K.stands pool.new result.rest }
    ensures later { Later K.stands K.entries K.is_child K.tree K.kept pool.old pool.new }
    ensures places { K.places pool.old ≤ K.places pool.new + 12 * height_of
        (K.entries pool.old at) }
    ensures records { K.records pool.old ≤ K.records pool.new + 3 * height_of
        (K.entries pool.old at) }
    ensures made { K.made pool.new ≤ K.made pool.old + 3 * height_of (K.entries pool.old at) }
{
    let entry = read_entry(pool, at);
    let Some(low) = entry.left else {
        return First {
            first: at,
            rest: entry.right,
        };
    };
    let taken = take_first(pool, low);
    let whole = joined(pool, at, entry.child, taken.rest, entry.right);
    First {
        first: taken.first,
        rest: Some(whole),
    }
}

// Both sides without the entry between them.
#[tactic(auto, using(crate::proofs::Steps::closing, crate::proofs::Turns::sides_rising))]
fn closed<K: KidPool>(pool: &mut K, at: K::At, sides: Opened<K::At, K::Child>) -> Option<K::At>
    requires left { Stand K.stands pool.old sides.left }
    requires right { Stand K.stands pool.old sides.right }
    requires balanced { IsBalanced (entry (name_of (K.entries pool.old at))
        (K.tree pool.old sides.child) (under K.entries pool.old sides.left)
        (under K.entries pool.old sides.right)) }
    requires rising { IsRising (kids_of (entry (name_of (K.entries pool.old at))
        (K.tree pool.old sides.child) (under K.entries pool.old sides.left)
        (under K.entries pool.old sides.right))) }
    requires places { 13 * height_of (under K.entries pool.old sides.right) + 9
        ≤ K.places pool.old }
    requires records { 3 * height_of (under K.entries pool.old sides.right) + 3
        ≤ K.records pool.old }
    ensures closed { IsClosed (entry (name_of (K.entries pool.old at))
        (K.tree pool.old sides.child) (under K.entries pool.old sides.left)
        (under K.entries pool.old sides.right)) (under K.entries pool.new result) }
    ensures stands { Stand K.stands pool.new result }
    ensures later { Later K.stands K.entries K.is_child K.tree K.kept pool.old pool.new }
    ensures places { K.places pool.old ≤ K.places pool.new + (13 * height_of
        (under K.entries pool.old sides.right) + 9) }
    ensures records { K.records pool.old ≤ K.records pool.new + (3 * height_of
        (under K.entries pool.old sides.right) + 3) }
    ensures made { K.made pool.new ≤ K.made pool.old + (3 * height_of
        (under K.entries pool.old sides.right) + 3) }
{
    let Some(low) = sides.right else {
        return sides.left;
    };
    let taken = take_first(pool, low);
    let child = pool.child(taken.first);
    Some(joined(pool, taken.first, child, sides.left, taken.rest))
}

#[tactic(auto, using(crate::proofs::Steps::removing, crate::proofs::Turns::sides_rising))]
pub(crate) fn remove_under<K: KidPool>(
    pool: &mut K,
    top: Option<K::At>,
    name: &Name,
) -> Option<K::At>
    requires stands { Stand K.stands pool.old top }
    requires balanced { IsBalanced (under K.entries pool.old top) }
    requires rising { IsRising (kids_of (under K.entries pool.old top)) }
    requires places { 16 * height_of (under K.entries pool.old top) ≤ K.places pool.old }
    requires records { 3 * height_of (under K.entries pool.old top) ≤ K.records pool.old }
    ensures without { IsWithout name.now (under K.entries pool.old top)
        (under K.entries pool.new result) }
    ensures stands { Stand K.stands pool.new result }
    ensures later { Later K.stands K.entries K.is_child K.tree K.kept pool.old pool.new }
    ensures places { K.places pool.old ≤ K.places pool.new + 16 * height_of
        (under K.entries pool.old top) }
    ensures records { K.records pool.old ≤ K.records pool.new + 3 * height_of
        (under K.entries pool.old top) }
    ensures made { K.made pool.new ≤ K.made pool.old + 3 * height_of
        (under K.entries pool.old top) }
{
    let Some(at) = top else {
        return None;
    };
    let order = pool.order(at, name);
    let entry = read_entry(pool, at);
    match order {
        Ordering::Less => {
            let new = remove_under(pool, entry.left, name);
            Some(joined(pool, at, entry.child, new, entry.right))
        }
        Ordering::Equal => closed(pool, at, entry),
        Ordering::Greater => {
            let new = remove_under(pool, entry.right, name);
            Some(joined(pool, at, entry.child, entry.left, new))
        }
    }
}
