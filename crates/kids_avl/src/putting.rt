//! Putting a child in its place.
ghost use Rattle.std.specs.Prelude.{◌≡◌, ◌+◌, ◌≤◌, ◌<◌, ◌*◌};
ghost use Rattle.doc_tree.specs.Tree.{IsRising};
ghost use Rattle.kids_avl.specs.Entries.{kids_of, height_of, IsBalanced};
ghost use Rattle.kids_avl.specs.Changes.{IsPut};
ghost use Rattle.kids_avl.specs.Pool.{under, Stand, Later};

use crate::joining::joined;
use crate::pool::{KidPool, read_entry};
use doc_tree::Name;
use std::cmp::Ordering;

#[tactic(auto, using(crate::proofs::Steps::putting, crate::proofs::Turns::sides_rising))]
pub(crate) fn put_under<K: KidPool>(
    pool: &mut K,
    top: Option<K::At>,
    name: &Name,
    child: K::Child,
) -> K::At
    requires stands { Stand K.stands pool.old top }
    requires child { K.is_child pool.old child }
    requires balanced { IsBalanced (under K.entries pool.old top) }
    requires rising { IsRising (kids_of (under K.entries pool.old top)) }
    requires places { 16 * height_of (under K.entries pool.old top) ≤ K.places pool.old }
    requires records { 3 * height_of (under K.entries pool.old top) + 5 ≤ K.records pool.old }
    ensures put { IsPut name.now (K.tree pool.old child) (under K.entries pool.old top)
        (K.entries pool.new result) }
    ensures stands { K.stands pool.new result }
    ensures later { Later K.stands K.entries K.is_child K.tree K.kept pool.old pool.new }
    ensures places { K.places pool.old ≤ K.places pool.new + 16 * height_of
        (under K.entries pool.old top) }
    ensures records { K.records pool.old ≤ K.records pool.new + (3 * height_of
        (under K.entries pool.old top) + 5) }
    ensures made { K.made pool.new ≤ K.made pool.old + (3 * height_of
        (under K.entries pool.old top) + 1) }
{
    let Some(at) = top else {
        return pool.make(name, child, None, None);
    };
    let order = pool.order(at, name);
    let entry = read_entry(pool, at);
    match order {
        Ordering::Less => {
            let new = put_under(pool, entry.left, name, child);
            joined(pool, at, entry.child, Some(new), entry.right)
        }
        Ordering::Equal => pool.make_like(at, child, entry.left, entry.right),
        Ordering::Greater => {
            let new = put_under(pool, entry.right, name, child);
            joined(pool, at, entry.child, entry.left, Some(new))
        }
    }
}
