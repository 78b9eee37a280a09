//! An entry between two trees whose heights differ by at most 2.
ghost use Rattle.std.specs.Prelude.{◌≡◌, ◌+◌, ◌≤◌, ◌<◌, ◌*◌, ◌↔◌, IsTrue};
ghost use Rattle.kids_avl.specs.Entries.{entry, name_of, height_of};
ghost use Rattle.kids_avl.specs.Changes.{IsNearly, IsEven};
ghost use Rattle.kids_avl.specs.Pool.{under, Stand, Later};

use crate::pool::{KidPool, height_under};
use crate::turning::{turned_left, turned_right};

// The one like `like`, with its child, between the entries of both sides.
#[tactic(auto, using(crate::proofs::Turns::keep_balanced, crate::proofs::Turns::keep_even))]
pub(crate) fn joined<K: KidPool>(
    pool: &mut K,
    like: K::At,
    child: K::Child,
    left: Option<K::At>,
    right: Option<K::At>,
) -> K::At
    requires like { K.stands pool.old like }
    requires child { K.is_child pool.old child }
    requires left { Stand K.stands pool.old left }
    requires right { Stand K.stands pool.old right }
    requires nearly { IsNearly (entry (name_of (K.entries pool.old like)) (K.tree pool.old child)
        (under K.entries pool.old left) (under K.entries pool.old right)) }
    requires places { 9 ≤ K.places pool.old }
    requires records { 3 ≤ K.records pool.old }
    ensures even { IsEven (entry (name_of (K.entries pool.old like)) (K.tree pool.old child)
        (under K.entries pool.old left) (under K.entries pool.old right))
        (K.entries pool.new result) }
    ensures stands { K.stands pool.new result }
    ensures later { Later K.stands K.entries K.is_child K.tree K.kept pool.old pool.new }
    ensures places { K.places pool.old ≤ K.places pool.new + 9 }
    ensures records { K.records pool.old ≤ K.records pool.new + 3 }
    ensures made { K.made pool.new ≤ K.made pool.old + 3 }
{
    let on_left = height_under(pool, left);
    let on_right = height_under(pool, right);
    if is_over(on_left, on_right) {
        return leaning_left(pool, like, child, left, right);
    }
    if is_over(on_right, on_left) {
        return leaning_right(pool, like, child, left, right);
    }
    pool.make_like(like, child, left, right)
}

// One height is above the other by 2 or more.
fn is_over(high: u64, low: u64) -> bool
    ensures { IsTrue result ↔ (low + 1 < high) }
{
    low < high && 1 < high - low
}

fn leaning_left<K: KidPool>(
    pool: &mut K,
    like: K::At,
    child: K::Child,
    left: Option<K::At>,
    right: Option<K::At>,
) -> K::At
    requires like { K.stands pool.old like }
    requires child { K.is_child pool.old child }
    requires left { Stand K.stands pool.old left }
    requires right { Stand K.stands pool.old right }
    requires nearly { IsNearly (entry (name_of (K.entries pool.old like)) (K.tree pool.old child)
        (under K.entries pool.old left) (under K.entries pool.old right)) }
    requires high { height_of (under K.entries pool.old right) + 1
        < height_of (under K.entries pool.old left) }
    requires places { 9 ≤ K.places pool.old }
    requires records { 3 ≤ K.records pool.old }
    ensures even { IsEven (entry (name_of (K.entries pool.old like)) (K.tree pool.old child)
        (under K.entries pool.old left) (under K.entries pool.old right))
        (K.entries pool.new result) }
    ensures stands { K.stands pool.new result }
    ensures later { Later K.stands K.entries K.is_child K.tree K.kept pool.old pool.new }
    ensures places { K.places pool.old ≤ K.places pool.new + 9 }
    ensures records { K.records pool.old ≤ K.records pool.new + 3 }
    ensures made { K.made pool.new ≤ K.made pool.old + 3 }
{
    let Some(top) = left else {
        return pool.make_like(like, child, left, right);
    };
    turned_right(pool, like, child, top, right)
}

fn leaning_right<K: KidPool>(
    pool: &mut K,
    like: K::At,
    child: K::Child,
    left: Option<K::At>,
    right: Option<K::At>,
) -> K::At
    requires like { K.stands pool.old like }
    requires child { K.is_child pool.old child }
    requires left { Stand K.stands pool.old left }
    requires right { Stand K.stands pool.old right }
    requires nearly { IsNearly (entry (name_of (K.entries pool.old like)) (K.tree pool.old child)
        (under K.entries pool.old left) (under K.entries pool.old right)) }
    requires high { height_of (under K.entries pool.old left) + 1
        < height_of (under K.entries pool.old right) }
    requires places { 9 ≤ K.places pool.old }
    requires records { 3 ≤ K.records pool.old }
    ensures even { IsEven (entry (name_of (K.entries pool.old like)) (K.tree pool.old child)
        (under K.entries pool.old left) (under K.entries pool.old right))
        (K.entries pool.new result) }
    ensures stands { K.stands pool.new result }
    ensures later { Later K.stands K.entries K.is_child K.tree K.kept pool.old pool.new }
    ensures places { K.places pool.old ≤ K.places pool.new + 9 }
    ensures records { K.records pool.old ≤ K.records pool.new + 3 }
    ensures made { K.made pool.new ≤ K.made pool.old + 3 }
{
    let Some(top) = right else {
        return pool.make_like(like, child, left, right);
    };
    turned_left(pool, like, child, left, top)
}
