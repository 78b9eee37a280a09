//! The stack of roots for C: each function tests what it is given, and answers why it did nothing.
ghost use Rattle.std.specs.Prelude.{◌≡◌, IfSome, MatchOption};
ghost use Rattle.heap_c.specs.Holding.{IsOwned, owned_by};
ghost use Rattle.heap_c.specs.Records.{IsRootVal, PopsRoots, PushesRoot, RootMeans, SetsRoot};
ghost use Rattle.heap_c.specs.Records.{TellsRoot};
ghost use Rattle.local_records.specs.Local.{IsRootBelow};
ghost use Rattle.local_references.specs.Roots.{RootStands};
ghost use Rattle.local_references.specs.declared.roots.Root.{Root};
ghost use Rattle.local_references.specs.declared.roots.Root.TheVariants as root;

use crate::codes::Code;
use crate::records::{find, val_of_record};
use crate::rule::Rule;
use crate::turns::Turns;
use crate::values::{HeapVal, NULL, NUM, REC, REF, value_of};
use heap_table::CellHeap;
use local_records::LocalRecords;
use local_references::Root;
use mutator_events::MutSeat;
use mutator_seat::Value;
use sorted_boxes::Sorts;

/// The root that this is, where so many places are held.
fn root_of(
    local: &LocalRecords,
    sorts: &Sorts,
    turns: Turns,
    val: HeapVal,
    held: usize,
) -> Option<Root>
    ensures means { MatchOption result
        ((r : Root) → RootMeans turns held sorts.now local.now val.tag val.n r → ⊥)
        (λ r. RootMeans turns held sorts.now local.now val.tag val.n r) }
    ensures stands { IfSome result (RootStands local.now.records) }
    ensures below { IfSome result (IsRootBelow held) }
    ensures apart { IfSome result (λ r. r ≡ root.Shared 0 → ⊥) }
{
    let _ = sorts;
    if val.tag == REC {
        return match find(local, val.tag, val.n) {
            Some(r) => Some(Root::Private(r)),
            None => None,
        };
    }
    match value_of(turns, val, held) {
        Some(Value::Null) => Some(Root::Null),
        Some(Value::Num(n)) => Some(Root::Num(n)),
        Some(Value::Held(place)) => Some(Root::Shared(place)),
        None => None,
    }
}

/// A root as C has it.
fn val_of_root(local: &LocalRecords, turns: Turns, root: Root) -> HeapVal
    ensures val { IsRootVal turns local.now result root }
{
    match root {
        Root::Null => HeapVal { tag: NULL, n: 0 },
        Root::Num(n) => HeapVal { tag: NUM, n },
        Root::Private(r) => val_of_record(local, r),
        Root::Shared(place) => HeapVal {
            tag: REF,
            n: turns.number(place),
        },
    }
}

/// One more root.
pub(crate) fn push(
    heap: &CellHeap<Rule>,
    seat: &MutSeat<Rule>,
    sorts: &Sorts,
    local: &mut LocalRecords,
    turns: Turns,
    val: HeapVal,
) -> Code
    requires owned { IsOwned heap.now seat.now sorts.now local.old }
    ensures owned { IsOwned heap.now seat.now sorts.now local.new }
    ensures pushed { PushesRoot turns (owned_by heap.now seat.now sorts.now local.old) local.new val
        result }
{
    let _ = heap;
    if !seat.is_in() {
        return Code::NotIn;
    }
    let held = seat.held_len();
    let Some(root) = root_of(local, sorts, turns, val, held) else {
        return Code::BadValue;
    };
    match local.push(root, held) {
        Ok(()) => Code::Ok,
        Err(_) => Code::NoRoom,
    }
}

/// Lets the newest n roots go.
pub(crate) fn pop(
    heap: &CellHeap<Rule>,
    seat: &MutSeat<Rule>,
    sorts: &Sorts,
    local: &mut LocalRecords,
    n: usize,
) -> Code
    requires owned { IsOwned heap.now seat.now sorts.now local.old }
    ensures owned { IsOwned heap.now seat.now sorts.now local.new }
    ensures popped { PopsRoots (owned_by heap.now seat.now sorts.now local.old) local.new n result }
{
    let _ = heap;
    let _ = sorts;
    if !seat.is_in() {
        return Code::NotIn;
    }
    let many = local.roots_len();
    if many < n {
        return Code::BadPlace;
    }
    local.keep_roots(many - n);
    Code::Ok
}

/// A root, counted from the oldest.
pub(crate) fn root(
    heap: &CellHeap<Rule>,
    seat: &MutSeat<Rule>,
    sorts: &Sorts,
    local: &LocalRecords,
    turns: Turns,
    i: usize,
) -> Result<HeapVal, Code>
    ensures told { TellsRoot turns (owned_by heap.now seat.now sorts.now local.now) i result }
{
    let _ = heap;
    let _ = sorts;
    if !seat.is_in() {
        return Err(Code::NotIn);
    }
    if local.roots_len() <= i {
        return Err(Code::BadPlace);
    }
    Ok(val_of_root(local, turns, local.root(i)))
}

/// Another root in place of one.
pub(crate) fn set(
    heap: &CellHeap<Rule>,
    seat: &MutSeat<Rule>,
    sorts: &Sorts,
    local: &mut LocalRecords,
    turns: Turns,
    i: usize,
    val: HeapVal,
) -> Code
    requires owned { IsOwned heap.now seat.now sorts.now local.old }
    ensures owned { IsOwned heap.now seat.now sorts.now local.new }
    ensures set { SetsRoot turns (owned_by heap.now seat.now sorts.now local.old) local.new i val
        result }
{
    let _ = heap;
    if !seat.is_in() {
        return Code::NotIn;
    }
    if local.roots_len() <= i {
        return Code::BadPlace;
    }
    let held = seat.held_len();
    let Some(root) = root_of(local, sorts, turns, val, held) else {
        return Code::BadValue;
    };
    local.set(i, root, held);
    Code::Ok
}
