//! The children of a node, with one more, without one, and how many they are.
ghost use Rattle.std.specs.Prelude.{◌≡◌, ◌+◌, ◌≤◌, ◌<◌, ◌^◌, ◌↔◌, None, IsSome, IsTrue};
ghost use Rattle.doc_tree.specs.Edits.{delete_child};
ghost use Rattle.doc_tree.specs.Tree.{child as child_of_name, kid_count, put_child};
ghost use Rattle.doc_records.specs.Pool.{Later};
ghost use Rattle.doc_records.specs.Trees.{IsNodeAt, tree_of};
ghost use Rattle.doc_edits.specs.Entries.{IsKept};
ghost use Rattle.doc_edits.specs.Tops.{IsRowAt, row_of};

use crate::bounds::{FEW_LEVELS, LEN_PLACES, MOST_ENTRIES, PUT_PLACES, REMOVE_PLACES};
use crate::entries::{EntryPool, part_of, side_height, top_of};
use doc_records::{Part, RecordPool};
use doc_tree::{Name, Tree};
use kids_avl::{CHANGE_PLACES, PUT_RECORDS, REMOVE_RECORDS, len, put, remove};

// Puts a child in a pool of entries that was just made.
fn put_in<'a, R: RecordPool>(
    pool: &mut EntryPool<'a, R>,
    top: Part<R::At>,
    name: &Name,
    child: R::At,
) -> Part<R::At>
    requires fresh { pool.old.made ≡ 0 }
    requires few { (R.shown pool.old.records.now).records ≤ 2 ^ 32 }
    requires row { IsRowAt (R.shown pool.old.records.now) top }
    requires child { IsNodeAt (R.shown pool.old.records.now) child }
    requires room { child_of_name name.now (row_of (R.shown pool.old.records.now) top) ≡ None
        → kid_count (row_of (R.shown pool.old.records.now) top) < Tree.MOST_CHILDREN }
    requires places { (R.shown pool.old.records.now).held + PUT_PLACES
        ≤ (R.shown pool.old.records.now).room }
    requires records { PUT_RECORDS ≤ (R.shown pool.old.records.now).records }
    ensures kids { row_of (R.shown pool.new.records.now) result ≡ put_child name.now
        (tree_of ((R.shown pool.old.records.now).term child))
        (row_of (R.shown pool.old.records.now) top) }
    ensures row { IsRowAt (R.shown pool.new.records.now) result }
    ensures kept { IsKept (R.shown pool.old.records.now) (R.shown pool.new.records.now)
        pool.old.records.ghost_name pool.new.records.ghost_name }
    ensures held { (R.shown pool.new.records.now).held
        ≤ (R.shown pool.old.records.now).held + CHANGE_PLACES }
    ensures records { (R.shown pool.old.records.now).records
        ≤ (R.shown pool.new.records.now).records + PUT_RECORDS }
{
    Part::Record(put(pool, top_of(top), name, child))
}

/// The children with this node as the child of that name.
pub(crate) fn with_entry<R: RecordPool>(
    records: &mut R,
    top: Part<R::At>,
    name: &Name,
    child: R::At,
) -> Part<R::At>
    requires row { IsRowAt (R.shown records.old) top }
    requires child { IsNodeAt (R.shown records.old) child }
    requires room { child_of_name name.now (row_of (R.shown records.old) top) ≡ None
        → kid_count (row_of (R.shown records.old) top) < Tree.MOST_CHILDREN }
    requires places { (R.shown records.old).held + PUT_PLACES ≤ (R.shown records.old).room }
    requires records { PUT_RECORDS ≤ (R.shown records.old).records }
    ensures kids { row_of (R.shown records.new) result ≡ put_child name.now
        (tree_of ((R.shown records.old).term child)) (row_of (R.shown records.old) top) }
    ensures row { IsRowAt (R.shown records.new) result }
    ensures later { Later (R.shown records.old) (R.shown records.new) }
    ensures held { (R.shown records.new).held ≤ (R.shown records.old).held + CHANGE_PLACES }
    ensures records { (R.shown records.old).records ≤ (R.shown records.new).records + PUT_RECORDS }
{
    // There are few records, and so few entries.
    let _ = records.held();
    let mut pool = EntryPool { records, made: 0 };
    put_in(&mut pool, top, name, child)
}

// Takes a child out of a pool of entries that was just made.
fn remove_in<'a, R: RecordPool>(
    pool: &mut EntryPool<'a, R>,
    top: Part<R::At>,
    name: &Name,
) -> Part<R::At>
    requires fresh { pool.old.made ≡ 0 }
    requires few { (R.shown pool.old.records.now).records ≤ 2 ^ 32 }
    requires row { IsRowAt (R.shown pool.old.records.now) top }
    requires listed { IsSome (child_of_name name.now
        (row_of (R.shown pool.old.records.now) top)) }
    requires places { (R.shown pool.old.records.now).held + REMOVE_PLACES
        ≤ (R.shown pool.old.records.now).room }
    requires records { REMOVE_RECORDS ≤ (R.shown pool.old.records.now).records }
    ensures kids { row_of (R.shown pool.new.records.now) result ≡ delete_child name.now
        (row_of (R.shown pool.old.records.now) top) }
    ensures row { IsRowAt (R.shown pool.new.records.now) result }
    ensures kept { IsKept (R.shown pool.old.records.now) (R.shown pool.new.records.now)
        pool.old.records.ghost_name pool.new.records.ghost_name }
    ensures held { (R.shown pool.new.records.now).held
        ≤ (R.shown pool.old.records.now).held + CHANGE_PLACES }
    ensures records { (R.shown pool.old.records.now).records
        ≤ (R.shown pool.new.records.now).records + REMOVE_RECORDS }
{
    part_of(remove(pool, top_of(top), name))
}

/// The children without the one of that name.
pub(crate) fn without_entry<R: RecordPool>(
    records: &mut R,
    top: Part<R::At>,
    name: &Name,
) -> Part<R::At>
    requires row { IsRowAt (R.shown records.old) top }
    requires listed { IsSome (child_of_name name.now (row_of (R.shown records.old) top)) }
    requires places { (R.shown records.old).held + REMOVE_PLACES ≤ (R.shown records.old).room }
    requires records { REMOVE_RECORDS ≤ (R.shown records.old).records }
    ensures kids { row_of (R.shown records.new) result ≡ delete_child name.now
        (row_of (R.shown records.old) top) }
    ensures row { IsRowAt (R.shown records.new) result }
    ensures later { Later (R.shown records.old) (R.shown records.new) }
    ensures held { (R.shown records.new).held ≤ (R.shown records.old).held + CHANGE_PLACES }
    ensures records { (R.shown records.old).records
        ≤ (R.shown records.new).records + REMOVE_RECORDS }
{
    // There are few records, and so few entries.
    let _ = records.held();
    let mut pool = EntryPool { records, made: 0 };
    remove_in(&mut pool, top, name)
}

// How many children there are in a pool of entries that was just made.
fn count_in<'a, R: RecordPool>(pool: &mut EntryPool<'a, R>, top: Part<R::At>) -> u32
    requires fresh { pool.old.made ≡ 0 }
    requires few { (R.shown pool.old.records.now).records ≤ 2 ^ 32 }
    requires row { IsRowAt (R.shown pool.old.records.now) top }
    requires places { (R.shown pool.old.records.now).held + LEN_PLACES
        ≤ (R.shown pool.old.records.now).room }
    ensures count { result ≡ kid_count (row_of (R.shown pool.old.records.now) top) }
    ensures kept { IsKept (R.shown pool.old.records.now) (R.shown pool.new.records.now)
        pool.old.records.ghost_name pool.new.records.ghost_name }
    ensures records { (R.shown pool.new.records.now).records
        ≡ (R.shown pool.old.records.now).records }
{
    len(pool, top_of(top))
}

fn count_entries<R: RecordPool>(records: &mut R, top: Part<R::At>) -> u32
    requires few { (R.shown records.old).records ≤ 2 ^ 32 }
    requires row { IsRowAt (R.shown records.old) top }
    requires places { (R.shown records.old).held + LEN_PLACES ≤ (R.shown records.old).room }
    ensures count { result ≡ kid_count (row_of (R.shown records.old) top) }
    ensures later { Later (R.shown records.old) (R.shown records.new) }
    ensures records { (R.shown records.new).records ≡ (R.shown records.old).records }
{
    let mut pool = EntryPool { records, made: 0 };
    count_in(&mut pool, top)
}

// How many children there are. The places that were taken on the way are given back.
#[tactic(auto, using(doc_records::proofs::Spellings::kept_back))]
fn row_len<R: RecordPool>(records: &mut R, top: Part<R::At>) -> u32
    requires row { IsRowAt (R.shown records.old) top }
    requires places { (R.shown records.old).held + LEN_PLACES ≤ (R.shown records.old).room }
    ensures count { result ≡ kid_count (row_of (R.shown records.old) top) }
    ensures later { Later (R.shown records.old) (R.shown records.new) }
    ensures held { (R.shown records.new).held ≡ (R.shown records.old).held }
    ensures records { (R.shown records.new).records ≡ (R.shown records.old).records }
{
    let held = records.held();
    let count = count_entries(records, top);
    records.cut(held);
    count
}

/// There is room for one more child. Only entries of more than `FEW_LEVELS` levels are counted.
#[tactic(auto, using(crate::proofs::Counted::rooms))]
pub(crate) fn has_room<R: RecordPool>(records: &mut R, top: Part<R::At>) -> bool
    requires row { IsRowAt (R.shown records.old) top }
    requires places { (R.shown records.old).held + LEN_PLACES ≤ (R.shown records.old).room }
    ensures room { IsTrue result
        ↔ (kid_count (row_of (R.shown records.old) top) < Tree.MOST_CHILDREN) }
    ensures later { Later (R.shown records.old) (R.shown records.new) }
    ensures held { (R.shown records.new).held ≡ (R.shown records.old).held }
    ensures records { (R.shown records.new).records ≡ (R.shown records.old).records }
{
    if side_height(records, top) <= FEW_LEVELS {
        return true;
    }
    row_len(records, top) < MOST_ENTRIES
}
