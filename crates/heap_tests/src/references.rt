ghost use Rattle.std.specs.Prelude.{◌≡◌, ◌≤◌, [], List, OnOk, length};
ghost use Rattle.minor_heap.specs.declared.fields.MinorField.{MinorField};
ghost use Rattle.local_references.specs.Roots.{AllStand};

use aged_nursery::AgedNursery;
use local_references::{LocalRef, NoMemory, Root, RootStack, Spent, StackFull, Turns};
use minor_heap::MinorField::{Minor, Null, Num};
use minor_heap::{MinorField, MinorFull, MinorHeap, MinorRef};
use std::alloc::Global;
use std::test::Fail;

/// What a reference finds before a move and after it, and what one of the new turn finds.
fn find_three(alloc: Global) -> Result<[Option<MinorRef>; 3], NoMemory> {
    let mut minor = MinorHeap::with_room(alloc, 1)?;
    let _made = minor.make([Num(5), Null, Null, Null, Null]);
    let mut turns = Turns::new();
    let first = MinorRef { number: 0 };
    let old = turns.give(first);
    let before = turns.find(old, &minor);
    let _moved = turns.advance();
    let stale = turns.find(old, &minor);
    Ok([before, stale, turns.find(turns.give(first), &minor)])
}

#[test]
fn a_reference_of_an_earlier_turn_is_refused(rt: HostRuntime) -> Result<(), Fail> {
    let first = Some(MinorRef { number: 0 });
    assert_eq!(rt; find_three(rt.alloc())?, [first, None, first]);
    Ok(())
}

#[test]
fn a_reference_without_a_record_is_refused(rt: HostRuntime) -> Result<(), Fail> {
    let minor = MinorHeap::with_room(rt.alloc(), 1)?;
    let none = LocalRef { turn: 0, number: 0 };
    assert_eq!(rt; Turns::new().find(none, &minor), None);
    Ok(())
}

/// A stack with room for two roots: what three pushes answer, its roots with the older one set, and
/// what three pops give back.
#[derive(Clone, Copy, Debug, PartialEq, Eq)]
struct Stacked {
    pushed: [Result<(), StackFull>; 3],
    len: usize,
    roots: Option<[Root; 2]>,
    popped: [Option<Root>; 3],
}

/// The two roots of a stack, with another one in place of the older.
fn set_older(stack: &mut RootStack, root: Root) -> Option<[Root; 2]> {
    if stack.len() != 2 {
        return None;
    }
    stack.set(0, root);
    Some([stack.root(0), stack.root(1)])
}

fn fill_stack(alloc: Global) -> Result<Stacked, NoMemory> {
    let mut stack = RootStack::with_room(alloc, 2)?;
    let first = stack.push(Root::Shared(4));
    let second = stack.push(Root::Private(MinorRef { number: 6 }));
    let third = stack.push(Root::Shared(5));
    let len = stack.len();
    let roots = set_older(&mut stack, Root::Shared(9));
    Ok(Stacked {
        pushed: [first, second, third],
        len,
        roots,
        popped: [stack.pop(), stack.pop(), stack.pop()],
    })
}

#[test]
fn the_newest_root_goes_first(rt: HostRuntime) -> Result<(), Fail> {
    let older = Root::Shared(9);
    let newer = Root::Private(MinorRef { number: 6 });
    let wanted = Stacked {
        pushed: [Ok(()), Ok(()), Err(StackFull)],
        len: 2,
        roots: Some([older, newer]),
        popped: [Some(newer), Some(older), None],
    };
    assert_eq!(rt; fill_stack(rt.alloc())?, wanted);
    Ok(())
}

/// Four records, of which the third names the first.
fn make_four(heap: &mut MinorHeap) -> Result<MinorRef, MinorFull>
    ensures room { heap.new.room ≡ heap.old.room }
{
    let r0 = heap.make([Num(7), Null, Null, Null, Null])?;
    heap.make([Num(8), Null, Null, Null, Null])?;
    heap.make([Minor(r0), Null, Null, Null, Null])?;
    heap.make([Num(9), Null, Null, Null, Null])
}

/// A place, the third record and the first one.
fn push_three(stack: &mut RootStack) -> Result<(), StackFull>
    requires empty { stack.old.roots ≡ [] }
    ensures stand { OnOk result ((records : List (List MinorField)) → 3 ≤ length records
        → AllStand records stack.new.roots) }
{
    stack.push(Root::Shared(5))?;
    stack.push(Root::Private(MinorRef { number: 2 }))?;
    stack.push(Root::Private(MinorRef { number: 0 }))?;
    Ok(())
}

/// What an ageing answers and leaves: the roots, how many records, the first field of the second
/// one, and what a reference to the third finds before and after it.
#[derive(Clone, Copy, Debug, PartialEq, Eq)]
struct Moved {
    before: Option<MinorRef>,
    aged: Result<(), Spent>,
    roots: Option<[Root; 3]>,
    len: u32,
    field: Option<MinorField>,
    after: Option<MinorRef>,
}

fn roots_of(stack: &RootStack) -> Option<[Root; 3]> {
    if stack.len() != 3 {
        return None;
    }
    Some([stack.root(0), stack.root(1), stack.root(2)])
}

fn second(heap: &MinorHeap) -> Option<MinorField> {
    if heap.len() != 2 {
        return None;
    }
    Some(heap.field(MinorRef { number: 1 }, 0))
}

/// What an ageing of three roots leaves, if there are four records.
fn age_three(stack: &mut RootStack, nursery: &mut AgedNursery) -> Option<Moved>
    requires empty { stack.old.roots ≡ [] }
    requires whole { nursery.old.heap.room ≡ nursery.old.records }
{
    if nursery.heap().len() != 4 || push_three(stack).is_err() {
        return None;
    }
    let mut turns = Turns::new();
    let third = turns.give(MinorRef { number: 2 });
    let before = turns.find(third, nursery.heap());
    let aged = stack.age(nursery, &mut turns);
    Some(Moved {
        before,
        aged,
        roots: roots_of(stack),
        len: nursery.heap().len(),
        field: second(nursery.heap()),
        after: turns.find(third, nursery.heap()),
    })
}

fn four_aged(alloc: Global) -> Result<Option<Moved>, NoMemory> {
    let mut nursery = AgedNursery::with_room(alloc, 4)?;
    let _made = make_four(nursery.heap_mut());
    let mut stack = RootStack::with_room(alloc, 3)?;
    Ok(age_three(&mut stack, &mut nursery))
}

#[test]
fn a_root_moves_with_its_record(rt: HostRuntime) -> Result<(), Fail> {
    let r0 = MinorRef { number: 0 };
    let r1 = MinorRef { number: 1 };
    let wanted = Moved {
        before: Some(MinorRef { number: 2 }),
        aged: Ok(()),
        roots: Some([Root::Shared(5), Root::Private(r1), Root::Private(r0)]),
        len: 2,
        field: Some(Minor(r0)),
        after: None,
    };
    assert_eq!(rt; four_aged(rt.alloc())?, Some(wanted));
    Ok(())
}
