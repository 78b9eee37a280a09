//! Descents that only read.
ghost use Rattle.std.specs.Prelude.{◌≡◌, ◌+◌, ◌≤◌, ◌<◌, ◌*◌, Option, Some};
ghost use Rattle.std.specs.Option.{ForSome, option_map};
ghost use Rattle.doc_tree.specs.Tree.{child, kid_count, IsRising};
ghost use Rattle.kids_avl.specs.Entries.{name_of, child_of, kids_of, height_of, kid_at};
ghost use Rattle.kids_avl.specs.Pool.{under, Stand, Later};
ghost use Rattle.kids_avl.specs.Spots.{kid_of, IsPast, StandsHere};

use crate::pool::KidPool;
use doc_tree::{Name, Tree};
use std::cmp::Ordering;

#[tactic(auto, using(crate::proofs::Lists::finding, crate::proofs::Heights::lower))]
pub(crate) fn find_under<K: KidPool>(
    pool: &mut K,
    top: Option<K::At>,
    name: &Name,
) -> Option<K::Child>
    requires stands { Stand K.stands pool.old top }
    requires rising { IsRising (kids_of (under K.entries pool.old top)) }
    requires places { 5 * height_of (under K.entries pool.old top) ≤ K.places pool.old }
    ensures child { option_map (K.tree pool.new) result
        ≡ child name.now (kids_of (under K.entries pool.old top)) }
    ensures stands { ForSome result (K.is_child pool.new) }
    ensures later { Later K.stands K.entries K.is_child K.tree K.kept pool.old pool.new }
    ensures places { K.places pool.old ≤ K.places pool.new + 5 * height_of
        (under K.entries pool.old top) }
    ensures records { K.records pool.new ≡ K.records pool.old }
    ensures made { K.made pool.new ≡ K.made pool.old }
{
    let Some(at) = top else {
        return None;
    };
    match pool.order(at, name) {
        Ordering::Less => {
            let left = pool.left(at);
            find_under(pool, left, name)
        }
        Ordering::Equal => Some(pool.child(at)),
        Ordering::Greater => {
            let right = pool.right(at);
            find_under(pool, right, name)
        }
    }
}

#[tactic(auto, using(crate::proofs::Lists::count_entry))]
pub(crate) fn count_under<K: KidPool>(pool: &mut K, top: Option<K::At>) -> u32
    requires stands { Stand K.stands pool.old top }
    requires few { kid_count (kids_of (under K.entries pool.old top)) ≤ Tree.MOST_CHILDREN }
    requires places { 2 * kid_count (kids_of (under K.entries pool.old top)) ≤ K.places pool.old }
    ensures count { result ≡ kid_count (kids_of (under K.entries pool.old top)) }
    ensures later { Later K.stands K.entries K.is_child K.tree K.kept pool.old pool.new }
    ensures places { K.places pool.old ≤ K.places pool.new + 2 * kid_count (kids_of
        (under K.entries pool.old top)) }
    ensures records { K.records pool.new ≡ K.records pool.old }
    ensures made { K.made pool.new ≡ K.made pool.old }
{
    let Some(at) = top else {
        return 0;
    };
    let left = pool.left(at);
    let before = count_under(pool, left);
    let right = pool.right(at);
    let after = count_under(pool, right);
    before + 1 + after
}

// Where an index of a row is: at an entry, or so far past the end.
#[derive(Clone, Copy)]
pub(crate) enum Spot<At> {
    Here(At),
    Past(u32),
}

#[tactic(auto, using(crate::proofs::Spots::spots, crate::proofs::Lists::count_entry))]
pub(crate) fn spot_under<K: KidPool>(pool: &mut K, top: Option<K::At>, index: u32) -> Spot<K::At>
    requires stands { Stand K.stands pool.old top }
    requires places { 2 * kid_count (kids_of (under K.entries pool.old top)) ≤ K.places pool.old }
    ensures kid { kid_of (K.entries pool.new) result
        ≡ kid_at index (kids_of (under K.entries pool.old top)) }
    ensures past { IsPast index (kid_count (kids_of (under K.entries pool.old top))) result }
    ensures stands { StandsHere (K.stands pool.new) result }
    ensures later { Later K.stands K.entries K.is_child K.tree K.kept pool.old pool.new }
    ensures places { K.places pool.old ≤ K.places pool.new + 2 * kid_count (kids_of
        (under K.entries pool.old top)) }
    ensures records { K.records pool.new ≡ K.records pool.old }
    ensures made { K.made pool.new ≡ K.made pool.old }
{
    let Some(at) = top else {
        return Spot::Past(index);
    };
    let left = pool.left(at);
    match spot_under(pool, left, index) {
        Spot::Here(found) => Spot::Here(found),
        Spot::Past(0) => Spot::Here(at),
        Spot::Past(more) => {
            let right = pool.right(at);
            spot_under(pool, right, more - 1)
        }
    }
}
