//! What a node's makers and readers call.
//!
//! A root is none, or the top of a tree that is balanced, has its names in rising order, and has at
//! most `Tree::MOST_CHILDREN` entries. How high it can be then, and what each call takes, is in
//! `bounds`.
ghost use Rattle.std.specs.Prelude.{◌≡◌, ◌+◌, ◌≤◌, ◌<◌, ◌*◌, ◌↔◌, Option, Some, None, IsSome};
ghost use Rattle.std.specs.Option.{ForSome, option_map};
ghost use Rattle.doc_tree.specs.Edits.{delete_child};
ghost use Rattle.doc_tree.specs.Tree.{no_kids, child as child_at, put_child, kid_count};
ghost use Rattle.doc_tree.specs.Tree.{IsRising};
ghost use Rattle.kids_avl.specs.Entries.{name_of, child_of, kids_of, height_of, kid_at};
ghost use Rattle.kids_avl.specs.Entries.{IsBalanced};
ghost use Rattle.kids_avl.specs.Pool.{under, Stand, Later};
ghost use Rattle.kids_avl.specs.Spots.{kid_under};

use crate::bounds::{
    CHANGE_PLACES, COUNT_PLACES, FIND_PLACES, MOST_LEVELS, PUT_ENTRIES, PUT_RECORDS, REMOVE_RECORDS,
};
use crate::pool::KidPool;
use crate::putting::put_under;
use crate::reading::{Spot, count_under, find_under, spot_under};
use crate::removing::remove_under;
use doc_tree::{Name, Tree};

/// The child of that name.
#[tactic(auto, using(crate::proofs::Heights::at_most_levels))]
pub fn find<K: KidPool>(pool: &mut K, root: Option<K::At>, name: &Name) -> Option<K::Child>
    requires stands { Stand K.stands pool.old root }
    requires balanced { IsBalanced (under K.entries pool.old root) }
    requires rising { IsRising (kids_of (under K.entries pool.old root)) }
    requires few { kid_count (kids_of (under K.entries pool.old root)) ≤ Tree.MOST_CHILDREN }
    requires places { FIND_PLACES ≤ K.places pool.old }
    ensures child { option_map (K.tree pool.new) result ≡ child_at name.now (kids_of
        (under K.entries pool.old root)) }
    ensures stands { ForSome result (K.is_child pool.new) }
    ensures later { Later K.stands K.entries K.is_child K.tree K.kept pool.old pool.new }
    ensures places { K.places pool.old ≤ K.places pool.new + FIND_PLACES }
    ensures records { K.records pool.new ≡ K.records pool.old }
    ensures made { K.made pool.new ≡ K.made pool.old }
{
    find_under(pool, root, name)
}

/// The children with this one as the child of that name.
#[tactic(auto, using(crate::proofs::Heights::at_most_levels, crate::proofs::Ends::puts))]
pub fn put<K: KidPool>(pool: &mut K, root: Option<K::At>, name: &Name, child: K::Child) -> K::At
    requires stands { Stand K.stands pool.old root }
    requires balanced { IsBalanced (under K.entries pool.old root) }
    requires rising { IsRising (kids_of (under K.entries pool.old root)) }
    requires few { kid_count (kids_of (under K.entries pool.old root)) ≤ Tree.MOST_CHILDREN }
    requires child { K.is_child pool.old child }
    requires room { child_at name.now (kids_of (under K.entries pool.old root)) ≡ None
        → kid_count (kids_of (under K.entries pool.old root)) < Tree.MOST_CHILDREN }
    requires places { CHANGE_PLACES ≤ K.places pool.old }
    requires records { PUT_RECORDS ≤ K.records pool.old }
    ensures kids { kids_of (K.entries pool.new result)
        ≡ put_child name.now (K.tree pool.old child) (kids_of (under K.entries pool.old root)) }
    ensures balanced { IsBalanced (K.entries pool.new result) }
    ensures rising { IsRising (kids_of (K.entries pool.new result)) }
    ensures few { kid_count (kids_of (K.entries pool.new result)) ≤ Tree.MOST_CHILDREN }
    ensures high { height_of (K.entries pool.new result) ≤ MOST_LEVELS }
    ensures stands { K.stands pool.new result }
    ensures later { Later K.stands K.entries K.is_child K.tree K.kept pool.old pool.new }
    ensures places { K.places pool.old ≤ K.places pool.new + CHANGE_PLACES }
    ensures records { K.records pool.old ≤ K.records pool.new + PUT_RECORDS }
    ensures made { K.made pool.new ≤ K.made pool.old + PUT_ENTRIES }
{
    put_under(pool, root, name, child)
}

/// The children without the one of that name.
#[tactic(auto, using(crate::proofs::Heights::at_most_levels, crate::proofs::Ends::withouts))]
pub fn remove<K: KidPool>(pool: &mut K, root: Option<K::At>, name: &Name) -> Option<K::At>
    requires stands { Stand K.stands pool.old root }
    requires balanced { IsBalanced (under K.entries pool.old root) }
    requires rising { IsRising (kids_of (under K.entries pool.old root)) }
    requires few { kid_count (kids_of (under K.entries pool.old root)) ≤ Tree.MOST_CHILDREN }
    requires listed { IsSome (child_at name.now (kids_of (under K.entries pool.old root))) }
    requires places { CHANGE_PLACES ≤ K.places pool.old }
    requires records { REMOVE_RECORDS ≤ K.records pool.old }
    ensures kids { kids_of (under K.entries pool.new result)
        ≡ delete_child name.now (kids_of (under K.entries pool.old root)) }
    ensures none { result ≡ None ↔ (delete_child name.now (kids_of (under K.entries pool.old root))
        ≡ no_kids) }
    ensures balanced { IsBalanced (under K.entries pool.new result) }
    ensures rising { IsRising (kids_of (under K.entries pool.new result)) }
    ensures few { kid_count (kids_of (under K.entries pool.new result)) ≤ Tree.MOST_CHILDREN }
    ensures high { height_of (under K.entries pool.new result) ≤ MOST_LEVELS }
    ensures stands { Stand K.stands pool.new result }
    ensures later { Later K.stands K.entries K.is_child K.tree K.kept pool.old pool.new }
    ensures places { K.places pool.old ≤ K.places pool.new + CHANGE_PLACES }
    ensures records { K.records pool.old ≤ K.records pool.new + REMOVE_RECORDS }
    ensures made { K.made pool.new ≤ K.made pool.old + REMOVE_RECORDS }
{
    remove_under(pool, root, name)
}

/// How many entries there are.
pub fn len<K: KidPool>(pool: &mut K, root: Option<K::At>) -> u32
    requires stands { Stand K.stands pool.old root }
    requires balanced { IsBalanced (under K.entries pool.old root) }
    requires rising { IsRising (kids_of (under K.entries pool.old root)) }
    requires few { kid_count (kids_of (under K.entries pool.old root)) ≤ Tree.MOST_CHILDREN }
    requires places { COUNT_PLACES ≤ K.places pool.old }
    ensures count { result ≡ kid_count (kids_of (under K.entries pool.old root)) }
    ensures later { Later K.stands K.entries K.is_child K.tree K.kept pool.old pool.new }
    ensures places { K.places pool.old ≤ K.places pool.new + COUNT_PLACES }
    ensures records { K.records pool.new ≡ K.records pool.old }
    ensures made { K.made pool.new ≡ K.made pool.old }
{
    count_under(pool, root)
}

/// The entry at an index in the order of names.
#[tactic(auto, using(crate::proofs::Ends::kid_low))]
pub fn kid_at<K: KidPool>(pool: &mut K, root: Option<K::At>, index: u32) -> Option<K::At>
    requires stands { Stand K.stands pool.old root }
    requires balanced { IsBalanced (under K.entries pool.old root) }
    requires rising { IsRising (kids_of (under K.entries pool.old root)) }
    requires few { kid_count (kids_of (under K.entries pool.old root)) ≤ Tree.MOST_CHILDREN }
    requires places { COUNT_PLACES ≤ K.places pool.old }
    ensures kid { kid_under (K.entries pool.new) result ≡ kid_at index (kids_of
        (under K.entries pool.old root)) }
    ensures none { result ≡ None ↔ (kid_count (kids_of (under K.entries pool.old root)) ≤ index) }
    ensures stands { Stand K.stands pool.new result }
    ensures later { Later K.stands K.entries K.is_child K.tree K.kept pool.old pool.new }
    ensures places { K.places pool.old ≤ K.places pool.new + COUNT_PLACES }
    ensures records { K.records pool.new ≡ K.records pool.old }
    ensures made { K.made pool.new ≡ K.made pool.old }
{
    match spot_under(pool, root, index) {
        Spot::Here(at) => Some(at),
        Spot::Past(_) => None,
    }
}
