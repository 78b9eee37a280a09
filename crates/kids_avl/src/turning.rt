//! Rotations: a side that is too high gives its top, or the middle under that, to the whole.
ghost use Rattle.std.specs.Prelude.{◌≡◌, ◌+◌, ◌≤◌, ◌<◌};
ghost use Rattle.kids_avl.specs.Entries.{entry, name_of, left_of, right_of, height_of};
ghost use Rattle.kids_avl.specs.Changes.{IsNearly, IsEven};
ghost use Rattle.kids_avl.specs.Pool.{under, Stand, Later};

use crate::pool::{KidPool, Opened, height_under, read_entry};

#[tactic(auto, using(crate::proofs::Turns::once_right))]
fn once_right<K: KidPool>(
    pool: &mut K,
    like: K::At,
    child: K::Child,
    top: K::At,
    side: Opened<K::At, K::Child>,
    right: Option<K::At>,
) -> K::At
    requires like { K.stands pool.old like }
    requires child { K.is_child pool.old child }
    requires top { K.stands pool.old top }
    requires top_child { K.is_child pool.old side.child }
    requires before { Stand K.stands pool.old side.left }
    requires after { Stand K.stands pool.old side.right }
    requires right { Stand K.stands pool.old right }
    requires nearly { IsNearly (entry (name_of (K.entries pool.old like)) (K.tree pool.old child)
        (entry (name_of (K.entries pool.old top)) (K.tree pool.old side.child)
        (under K.entries pool.old side.left) (under K.entries pool.old side.right))
        (under K.entries pool.old right)) }
    requires high { height_of (under K.entries pool.old right) + 1
        < height_of (entry (name_of (K.entries pool.old top)) (K.tree pool.old side.child)
        (under K.entries pool.old side.left) (under K.entries pool.old side.right)) }
    requires outer_high { height_of (under K.entries pool.old side.right)
        ≤ height_of (under K.entries pool.old side.left) }
    requires places { 2 ≤ K.places pool.old }
    requires records { 2 ≤ K.records pool.old }
    ensures even { IsEven (entry (name_of (K.entries pool.old like)) (K.tree pool.old child)
        (entry (name_of (K.entries pool.old top)) (K.tree pool.old side.child)
        (under K.entries pool.old side.left) (under K.entries pool.old side.right))
        (under K.entries pool.old right)) (K.entries pool.new result) }
    ensures stands { K.stands pool.new result }
    ensures later { Later K.stands K.entries K.is_child K.tree K.kept pool.old pool.new }
    ensures places { K.places pool.old ≤ K.places pool.new + 2 }
    ensures records { K.records pool.old ≤ K.records pool.new + 2 }
    ensures made { K.made pool.new ≤ K.made pool.old + 2 }
{
    let below = pool.make_like(like, child, side.right, right);
    pool.make_like(top, side.child, side.left, Some(below))
}

#[tactic(auto, using(crate::proofs::Turns::twice_right))]
fn twice_right<K: KidPool>(
    pool: &mut K,
    like: K::At,
    child: K::Child,
    top: K::At,
    side: Opened<K::At, K::Child>,
    middle: K::At,
    mid: Opened<K::At, K::Child>,
    right: Option<K::At>,
) -> K::At
    requires like { K.stands pool.old like }
    requires child { K.is_child pool.old child }
    requires top { K.stands pool.old top }
    requires top_child { K.is_child pool.old side.child }
    requires outer { Stand K.stands pool.old side.left }
    requires middle { K.stands pool.old middle }
    requires middle_child { K.is_child pool.old mid.child }
    requires before { Stand K.stands pool.old mid.left }
    requires after { Stand K.stands pool.old mid.right }
    requires right { Stand K.stands pool.old right }
    requires nearly { IsNearly (entry (name_of (K.entries pool.old like)) (K.tree pool.old child)
        (entry (name_of (K.entries pool.old top)) (K.tree pool.old side.child)
        (under K.entries pool.old side.left) (entry (name_of (K.entries pool.old middle))
        (K.tree pool.old mid.child) (under K.entries pool.old mid.left)
        (under K.entries pool.old mid.right)))
        (under K.entries pool.old right)) }
    requires high { height_of (under K.entries pool.old right) + 1
        < height_of (entry (name_of (K.entries pool.old top)) (K.tree pool.old side.child)
        (under K.entries pool.old side.left) (entry (name_of (K.entries pool.old middle))
        (K.tree pool.old mid.child) (under K.entries pool.old mid.left)
        (under K.entries pool.old mid.right))) }
    requires inner_high { height_of (under K.entries pool.old side.left)
        < height_of (entry (name_of (K.entries pool.old middle))
        (K.tree pool.old mid.child) (under K.entries pool.old mid.left)
        (under K.entries pool.old mid.right)) }
    requires places { 3 ≤ K.places pool.old }
    requires records { 3 ≤ K.records pool.old }
    ensures even { IsEven (entry (name_of (K.entries pool.old like)) (K.tree pool.old child)
        (entry (name_of (K.entries pool.old top)) (K.tree pool.old side.child)
        (under K.entries pool.old side.left) (entry (name_of (K.entries pool.old middle))
        (K.tree pool.old mid.child) (under K.entries pool.old mid.left)
        (under K.entries pool.old mid.right)))
        (under K.entries pool.old right)) (K.entries pool.new result) }
    ensures stands { K.stands pool.new result }
    ensures later { Later K.stands K.entries K.is_child K.tree K.kept pool.old pool.new }
    ensures places { K.places pool.old ≤ K.places pool.new + 3 }
    ensures records { K.records pool.old ≤ K.records pool.new + 3 }
    ensures made { K.made pool.new ≤ K.made pool.old + 3 }
{
    let low = pool.make_like(top, side.child, side.left, mid.left);
    let high = pool.make_like(like, child, mid.right, right);
    pool.make_like(middle, mid.child, Some(low), Some(high))
}

// The entries of `top`, the one like `like` with its child, and those of `right`, where `top` is
// higher by 2.
pub(crate) fn turned_right<K: KidPool>(
    pool: &mut K,
    like: K::At,
    child: K::Child,
    top: K::At,
    right: Option<K::At>,
) -> K::At
    requires like { K.stands pool.old like }
    requires child { K.is_child pool.old child }
    requires top { K.stands pool.old top }
    requires right { Stand K.stands pool.old right }
    requires nearly { IsNearly (entry (name_of (K.entries pool.old like)) (K.tree pool.old child)
        (K.entries pool.old top) (under K.entries pool.old right)) }
    requires high { height_of (under K.entries pool.old right) + 1 < height_of
        (K.entries pool.old top) }
    requires places { 9 ≤ K.places pool.old }
    requires records { 3 ≤ K.records pool.old }
    ensures even { IsEven (entry (name_of (K.entries pool.old like)) (K.tree pool.old child)
        (K.entries pool.old top) (under K.entries pool.old right)) (K.entries pool.new result) }
    ensures stands { K.stands pool.new result }
    ensures later { Later K.stands K.entries K.is_child K.tree K.kept pool.old pool.new }
    ensures places { K.places pool.old ≤ K.places pool.new + 9 }
    ensures records { K.records pool.old ≤ K.records pool.new + 3 }
    ensures made { K.made pool.new ≤ K.made pool.old + 3 }
{
    let side = read_entry(pool, top);
    let outer = height_under(pool, side.left);
    if let Some(middle) = side.right {
        if outer < pool.height(middle) {
            let mid = read_entry(pool, middle);
            return twice_right(pool, like, child, top, side, middle, mid, right);
        }
    }
    once_right(pool, like, child, top, side, right)
}

#[tactic(auto, using(crate::proofs::Turns::once_left))]
fn once_left<K: KidPool>(
    pool: &mut K,
    like: K::At,
    child: K::Child,
    left: Option<K::At>,
    top: K::At,
    side: Opened<K::At, K::Child>,
) -> K::At
    requires like { K.stands pool.old like }
    requires child { K.is_child pool.old child }
    requires top { K.stands pool.old top }
    requires top_child { K.is_child pool.old side.child }
    requires before { Stand K.stands pool.old side.left }
    requires after { Stand K.stands pool.old side.right }
    requires left { Stand K.stands pool.old left }
    requires nearly { IsNearly (entry (name_of (K.entries pool.old like)) (K.tree pool.old child)
        (under K.entries pool.old left) (entry (name_of (K.entries pool.old top))
        (K.tree pool.old side.child)
        (under K.entries pool.old side.left) (under K.entries pool.old side.right))) }
    requires high { height_of (under K.entries pool.old left) + 1
        < height_of (entry (name_of (K.entries pool.old top)) (K.tree pool.old side.child)
        (under K.entries pool.old side.left) (under K.entries pool.old side.right)) }
    requires outer_high { height_of (under K.entries pool.old side.left)
        ≤ height_of (under K.entries pool.old side.right) }
    requires places { 2 ≤ K.places pool.old }
    requires records { 2 ≤ K.records pool.old }
    ensures even { IsEven (entry (name_of (K.entries pool.old like)) (K.tree pool.old child)
        (under K.entries pool.old left) (entry (name_of (K.entries pool.old top))
        (K.tree pool.old side.child)
        (under K.entries pool.old side.left) (under K.entries pool.old side.right)))
        (K.entries pool.new result) }
    ensures stands { K.stands pool.new result }
    ensures later { Later K.stands K.entries K.is_child K.tree K.kept pool.old pool.new }
    ensures places { K.places pool.old ≤ K.places pool.new + 2 }
    ensures records { K.records pool.old ≤ K.records pool.new + 2 }
    ensures made { K.made pool.new ≤ K.made pool.old + 2 }
{
    let below = pool.make_like(like, child, left, side.left);
    pool.make_like(top, side.child, Some(below), side.right)
}

#[tactic(auto, using(crate::proofs::Turns::twice_left))]
fn twice_left<K: KidPool>(
    pool: &mut K,
    like: K::At,
    child: K::Child,
    left: Option<K::At>,
    top: K::At,
    side: Opened<K::At, K::Child>,
    middle: K::At,
    mid: Opened<K::At, K::Child>,
) -> K::At
    requires like { K.stands pool.old like }
    requires child { K.is_child pool.old child }
    requires top { K.stands pool.old top }
    requires top_child { K.is_child pool.old side.child }
    requires outer { Stand K.stands pool.old side.right }
    requires middle { K.stands pool.old middle }
    requires middle_child { K.is_child pool.old mid.child }
    requires before { Stand K.stands pool.old mid.left }
    requires after { Stand K.stands pool.old mid.right }
    requires left { Stand K.stands pool.old left }
    requires nearly { IsNearly (entry (name_of (K.entries pool.old like)) (K.tree pool.old child)
        (under K.entries pool.old left) (entry (name_of (K.entries pool.old top))
        (K.tree pool.old side.child)
        (entry (name_of (K.entries pool.old middle))
        (K.tree pool.old mid.child) (under K.entries pool.old mid.left)
        (under K.entries pool.old mid.right)) (under K.entries pool.old side.right))) }
    requires high { height_of (under K.entries pool.old left) + 1
        < height_of (entry (name_of (K.entries pool.old top)) (K.tree pool.old side.child)
        (entry (name_of (K.entries pool.old middle))
        (K.tree pool.old mid.child) (under K.entries pool.old mid.left)
        (under K.entries pool.old mid.right)) (under K.entries pool.old side.right)) }
    requires inner_high { height_of (under K.entries pool.old side.right)
        < height_of (entry (name_of (K.entries pool.old middle))
        (K.tree pool.old mid.child) (under K.entries pool.old mid.left)
        (under K.entries pool.old mid.right)) }
    requires places { 3 ≤ K.places pool.old }
    requires records { 3 ≤ K.records pool.old }
    ensures even { IsEven (entry (name_of (K.entries pool.old like)) (K.tree pool.old child)
        (under K.entries pool.old left) (entry (name_of (K.entries pool.old top))
        (K.tree pool.old side.child)
        (entry (name_of (K.entries pool.old middle))
        (K.tree pool.old mid.child) (under K.entries pool.old mid.left)
        (under K.entries pool.old mid.right)) (under K.entries pool.old side.right)))
        (K.entries pool.new result) }
    ensures stands { K.stands pool.new result }
    ensures later { Later K.stands K.entries K.is_child K.tree K.kept pool.old pool.new }
    ensures places { K.places pool.old ≤ K.places pool.new + 3 }
    ensures records { K.records pool.old ≤ K.records pool.new + 3 }
    ensures made { K.made pool.new ≤ K.made pool.old + 3 }
{
    let low = pool.make_like(like, child, left, mid.left);
    let high = pool.make_like(top, side.child, mid.right, side.right);
    pool.make_like(middle, mid.child, Some(low), Some(high))
}

pub(crate) fn turned_left<K: KidPool>(
    pool: &mut K,
    like: K::At,
    child: K::Child,
    left: Option<K::At>,
    top: K::At,
) -> K::At
    requires like { K.stands pool.old like }
    requires child { K.is_child pool.old child }
    requires top { K.stands pool.old top }
    requires left { Stand K.stands pool.old left }
    requires nearly { IsNearly (entry (name_of (K.entries pool.old like)) (K.tree pool.old child)
        (under K.entries pool.old left) (K.entries pool.old top)) }
    requires high { height_of (under K.entries pool.old left) + 1 < height_of
        (K.entries pool.old top) }
    requires places { 9 ≤ K.places pool.old }
    requires records { 3 ≤ K.records pool.old }
    ensures even { IsEven (entry (name_of (K.entries pool.old like)) (K.tree pool.old child)
        (under K.entries pool.old left) (K.entries pool.old top)) (K.entries pool.new result) }
    ensures stands { K.stands pool.new result }
    ensures later { Later K.stands K.entries K.is_child K.tree K.kept pool.old pool.new }
    ensures places { K.places pool.old ≤ K.places pool.new + 9 }
    ensures records { K.records pool.old ≤ K.records pool.new + 3 }
    ensures made { K.made pool.new ≤ K.made pool.old + 3 }
{
    let side = read_entry(pool, top);
    let outer = height_under(pool, side.right);
    if let Some(middle) = side.left {
        if outer < pool.height(middle) {
            let mid = read_entry(pool, middle);
            return twice_left(pool, like, child, left, top, side, middle, mid);
        }
    }
    once_left(pool, like, child, left, top, side)
}
