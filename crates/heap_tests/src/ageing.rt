ghost use Rattle.std.specs.Prelude.{◌≡◌, ◌<◌, ◌≤◌, length};

use aged_nursery::AgedNursery;
use minor_heap::MinorField::{Minor, Null, Num, Shared};
use minor_heap::{MinorField, MinorFull, MinorHeap, MinorRef, NoMemory};
use std::alloc::Global;
use std::test::Fail;

/// So many records that nothing names.
fn make_loose(heap: &mut MinorHeap, count: u32) -> Result<(), MinorFull>
    ensures room { heap.new.room ≡ heap.old.room }
    ensures more { length heap.old.records ≤ length heap.new.records }
{
    for _ in 0..count {
        heap.make([Num(1), Null, Null, Null, Shared(0)])?;
    }
    Ok(())
}

/// A hundred records: one with a number and a shared place, and two that name it, among others.
fn make_hundred(heap: &mut MinorHeap) -> Result<[MinorRef; 3], MinorFull>
    ensures room { heap.new.room ≡ heap.old.room }
{
    make_loose(heap, 10)?;
    let shared = heap.make([Num(7), Shared(5), Null, Null, Null])?;
    make_loose(heap, 40)?;
    let first = heap.make([Minor(shared), Null, Null, Null, Num(8)])?;
    make_loose(heap, 47)?;
    let second = heap.make([Null, Minor(shared), Shared(9), Minor(shared), Null])?;
    Ok([shared, first, second])
}

fn fields(heap: &MinorHeap, r: MinorRef) -> [MinorField; 5]
    requires { r.number < length heap.now.records }
{
    [
        heap.field(r, 0),
        heap.field(r, 1),
        heap.field(r, 2),
        heap.field(r, 3),
        heap.field(r, 4),
    ]
}

/// The fields of three records, if no more nor less stand.
fn three(heap: &MinorHeap) -> Option<[[MinorField; 5]; 3]> {
    if heap.len() != 3 {
        return None;
    }
    Some([
        fields(heap, MinorRef { number: 0 }),
        fields(heap, MinorRef { number: 1 }),
        fields(heap, MinorRef { number: 2 }),
    ])
}

/// What an ageing left.
#[derive(Clone, Copy, Debug, PartialEq, Eq)]
struct Aged {
    roots: [MinorRef; 2],
    records: Option<[[MinorField; 5]; 3]>,
    len: u32,
    spare: u32,
    aged_len: u32,
}

/// What an ageing of the newest of a hundred records and of the fifty-second leaves.
fn age_two(nursery: &mut AgedNursery) -> Option<Aged>
    requires { nursery.old.heap.room ≡ nursery.old.records }
{
    if nursery.heap().len() != 100 {
        return None;
    }
    let mut roots = [MinorRef { number: 99 }, MinorRef { number: 51 }];
    nursery.age(&mut roots);
    Some(Aged {
        roots,
        records: three(nursery.heap()),
        len: nursery.heap().len(),
        spare: nursery.heap().spare(),
        aged_len: nursery.aged_len(),
    })
}

fn hundred_aged(
    alloc: Global,
) -> Result<(Result<[MinorRef; 3], MinorFull>, Option<Aged>), NoMemory> {
    let mut nursery = AgedNursery::with_room(alloc, 100)?;
    let made = make_hundred(nursery.heap_mut());
    Ok((made, age_two(&mut nursery)))
}

#[test]
fn what_two_roots_share_is_left_once(rt: HostRuntime) -> Result<(), Fail> {
    let shared = MinorRef { number: 0 };
    let made = [
        MinorRef { number: 10 },
        MinorRef { number: 51 },
        MinorRef { number: 99 },
    ];
    let aged = Aged {
        roots: [MinorRef { number: 2 }, MinorRef { number: 1 }],
        records: Some([
            [Num(7), Shared(5), Null, Null, Null],
            [Minor(shared), Null, Null, Null, Num(8)],
            [Null, Minor(shared), Shared(9), Minor(shared), Null],
        ]),
        len: 3,
        spare: 97,
        aged_len: 3,
    };
    assert_eq!(rt; hundred_aged(rt.alloc())?, (Ok(made), Some(aged)));
    Ok(())
}

/// Four records, each but the first with the one before it.
fn make_chain(heap: &mut MinorHeap) -> Result<MinorRef, MinorFull>
    ensures room { heap.new.room ≡ heap.old.room }
{
    let r0 = heap.make([Num(0), Null, Null, Null, Null])?;
    let r1 = heap.make([Minor(r0), Null, Null, Null, Null])?;
    let r2 = heap.make([Null, Minor(r1), Null, Null, Null])?;
    heap.make([Null, Null, Null, Null, Minor(r2)])
}

/// How many records stand after an ageing of one, and how many are counted as aged.
fn age_one(nursery: &mut AgedNursery, number: u32) -> Option<(u32, u32)>
    requires { nursery.old.heap.room ≡ nursery.old.records }
    ensures records { nursery.new.records ≡ nursery.old.records }
    ensures room { nursery.new.heap.room ≡ nursery.old.heap.room }
{
    if nursery.heap().len() <= number {
        return None;
    }
    nursery.age(&mut [MinorRef { number }]);
    Some(lengths(nursery))
}

fn lengths(nursery: &AgedNursery) -> (u32, u32) {
    (nursery.heap().len(), nursery.aged_len())
}

/// How many records of a chain of four stand and how many are counted as aged: when they are made,
/// when the third has aged, then the second, then when the heap is cleared, and when they are
/// promoted.
#[derive(Clone, Copy, Debug, PartialEq, Eq)]
struct Chain {
    newest: Result<MinorRef, MinorFull>,
    made: (u32, u32),
    third: Option<(u32, u32)>,
    second: Option<(u32, u32)>,
    cleared: (u32, u32),
    promoted: (u32, u32),
}

fn age_chain(alloc: Global) -> Result<Chain, NoMemory> {
    let mut nursery = AgedNursery::with_room(alloc, 4)?;
    let newest = make_chain(nursery.heap_mut());
    let made = lengths(&nursery);
    let third = age_one(&mut nursery, 2);
    let second = age_one(&mut nursery, 1);
    nursery.heap_mut().clear();
    let cleared = lengths(&nursery);
    nursery.promoted();
    Ok(Chain {
        newest,
        made,
        third,
        second,
        cleared,
        promoted: lengths(&nursery),
    })
}

#[test]
fn what_ages_is_counted_until_it_is_promoted(rt: HostRuntime) -> Result<(), Fail> {
    let wanted = Chain {
        newest: Ok(MinorRef { number: 3 }),
        made: (4, 0),
        third: Some((3, 3)),
        second: Some((2, 2)),
        cleared: (0, 2),
        promoted: (0, 0),
    };
    assert_eq!(rt; age_chain(rt.alloc())?, wanted);
    Ok(())
}

/// How many records of a chain of four stand and how many are counted as aged: when the third has
/// aged, when one more is made, when this one is cut off, when one that aged is too, when one more
/// is made in its place, and when none is left.
#[derive(Clone, Copy, Debug, PartialEq, Eq)]
struct Cut {
    newest: Result<MinorRef, MinorFull>,
    third: Option<(u32, u32)>,
    fourth: Result<MinorRef, MinorFull>,
    more: (u32, u32),
    as_aged: (u32, u32),
    fewer: (u32, u32),
    next: Result<MinorRef, MinorFull>,
    in_place: (u32, u32),
    none: (u32, u32),
}

fn cut_chain(alloc: Global) -> Result<Cut, NoMemory> {
    let mut nursery = AgedNursery::with_room(alloc, 4)?;
    let newest = make_chain(nursery.heap_mut());
    let third = age_one(&mut nursery, 2);
    let fourth = nursery.heap_mut().make([Num(9), Null, Null, Null, Null]);
    let more = lengths(&nursery);
    nursery.cut_back(3);
    let as_aged = lengths(&nursery);
    nursery.cut_back(2);
    let fewer = lengths(&nursery);
    let next = nursery.heap_mut().make([Num(9), Null, Null, Null, Null]);
    let in_place = lengths(&nursery);
    nursery.cut_back(0);
    Ok(Cut {
        newest,
        third,
        fourth,
        more,
        as_aged,
        fewer,
        next,
        in_place,
        none: lengths(&nursery),
    })
}

#[test]
fn what_is_made_behind_a_cut_has_not_aged(rt: HostRuntime) -> Result<(), Fail> {
    let wanted = Cut {
        newest: Ok(MinorRef { number: 3 }),
        third: Some((3, 3)),
        fourth: Ok(MinorRef { number: 3 }),
        more: (4, 3),
        as_aged: (3, 3),
        fewer: (2, 2),
        next: Ok(MinorRef { number: 2 }),
        in_place: (3, 2),
        none: (0, 0),
    };
    assert_eq!(rt; cut_chain(rt.alloc())?, wanted);
    Ok(())
}
