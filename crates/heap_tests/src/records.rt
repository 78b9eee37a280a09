use minor_heap::MinorField::{Minor, Null, Num, Shared};
use minor_heap::{FieldKind, MinorField, MinorFull, MinorHeap, MinorRef, NoMemory, RecordSpan};
use std::alloc::Global;
use std::test::Fail;

/// A record, and one that names it twice.
fn make_two(heap: &mut MinorHeap) -> Result<(MinorRef, MinorRef), MinorFull> {
    let r0 = heap.make([Num(5), Null, Null, Null, Null])?;
    let r1 = heap.make([Minor(r0), Minor(r0), Null, Null, Null])?;
    Ok((r0, r1))
}

/// The two records that the second of two reaches.
fn two_reached(alloc: Global, heap: &MinorHeap) -> Result<Option<[MinorRef; 2]>, NoMemory> {
    if heap.len() != 2 {
        return Ok(None);
    }
    let reached = heap.reached(alloc, &[MinorRef { number: 1 }])?;
    Ok(match reached.as_slice() {
        [first, second] => Some([*first, *second]),
        _ => None,
    })
}

/// What a heap with room for two records shows, when two are made and a third is asked for.
#[derive(Clone, Copy, Debug, PartialEq, Eq)]
struct Full {
    made: Result<(MinorRef, MinorRef), MinorFull>,
    third: Result<MinorRef, MinorFull>,
    len: u32,
    spare: u32,
    reached: Option<[MinorRef; 2]>,
}

fn fill_up(alloc: Global) -> Result<Full, NoMemory> {
    let mut heap = MinorHeap::with_room(alloc, 2)?;
    let made = make_two(&mut heap);
    let third = heap.make([Null, Null, Null, Null, Null]);
    let reached = two_reached(alloc, &heap)?;
    Ok(Full {
        made,
        third,
        len: heap.len(),
        spare: heap.spare(),
        reached,
    })
}

#[test]
fn a_full_heap_refuses_a_record_and_reaches_the_others(rt: HostRuntime) -> Result<(), Fail> {
    let r0 = MinorRef { number: 0 };
    let r1 = MinorRef { number: 1 };
    let wanted = Full {
        made: Ok((r0, r1)),
        third: Err(MinorFull),
        len: 2,
        spare: 0,
        reached: Some([r0, r1]),
    };
    assert_eq!(rt; fill_up(rt.alloc())?, wanted);
    Ok(())
}

/// Five records, of which the fifth names the third, and this one the first.
fn make_chain(heap: &mut MinorHeap) -> Result<[MinorRef; 3], MinorFull> {
    let r0 = heap.make([Null, Null, Null, Null, Null])?;
    let r1 = heap.make([Num(1), Null, Null, Null, Null])?;
    let r2 = heap.make([Null, Null, Null, Null, Minor(r0)])?;
    heap.make([Minor(r1), Null, Null, Null, Null])?;
    let r4 = heap.make([Null, Null, Minor(r2), Minor(r2), Shared(1)])?;
    Ok([r0, r2, r4])
}

/// The three records that the fifth and the third of five reach.
fn three_reached(alloc: Global, heap: &MinorHeap) -> Result<Option<[MinorRef; 3]>, NoMemory> {
    if heap.len() != 5 {
        return Ok(None);
    }
    let r2 = MinorRef { number: 2 };
    let r4 = MinorRef { number: 4 };
    let reached = heap.reached(alloc, &[r4, r4, r2])?;
    Ok(match reached.as_slice() {
        [first, second, third] => Some([*first, *second, *third]),
        _ => None,
    })
}

/// The marks of what the fourth of five records reaches.
fn marked_from_fourth(heap: &MinorHeap) -> Option<[bool; 5]> {
    if heap.len() != 5 {
        return None;
    }
    let mut marks = [false, false, false, true, false];
    heap.mark(&mut marks);
    Some(marks)
}

/// The records of a chain, those that are reached, and the marks.
#[derive(Clone, Copy, Debug, PartialEq, Eq)]
struct Chain {
    made: Result<[MinorRef; 3], MinorFull>,
    reached: Option<[MinorRef; 3]>,
    marks: Option<[bool; 5]>,
}

fn reach_in_chain(alloc: Global) -> Result<Chain, NoMemory> {
    let mut heap = MinorHeap::with_room(alloc, 6)?;
    let made = make_chain(&mut heap);
    Ok(Chain {
        made,
        reached: three_reached(alloc, &heap)?,
        marks: marked_from_fourth(&heap),
    })
}

#[test]
fn what_no_chain_leads_to_is_not_reached(rt: HostRuntime) -> Result<(), Fail> {
    let chain = [
        MinorRef { number: 0 },
        MinorRef { number: 2 },
        MinorRef { number: 4 },
    ];
    let wanted = Chain {
        made: Ok(chain),
        reached: Some(chain),
        marks: Some([false, true, false, true, false]),
    };
    assert_eq!(rt; reach_in_chain(rt.alloc())?, wanted);
    Ok(())
}

/// Five records, of which the fourth names the second. Gives the fourth.
fn make_five(heap: &mut MinorHeap) -> Result<MinorRef, MinorFull> {
    heap.make([Num(1), Null, Null, Null, Null])?;
    let r1 = heap.make([Num(2), Null, Null, Null, Null])?;
    heap.make([Minor(r1), Null, Null, Null, Null])?;
    let r3 = heap.make([Null, Null, Minor(r1), Null, Null])?;
    heap.make([Minor(r3), Null, Null, Null, Null])?;
    Ok(r3)
}

/// The span of what the fourth of five records reaches, the marks, and the marks that are left when
/// those of the span are taken back.
fn marks_of_span(heap: &MinorHeap) -> Option<(RecordSpan, [bool; 5], [bool; 5])> {
    if heap.len() != 5 {
        return None;
    }
    let r3 = MinorRef { number: 3 };
    let mut marks = [false, false, false, false, false];
    let span = heap.mark_span(&[r3, r3], &mut marks);
    let set = marks;
    span.unmark(&mut marks);
    Some((span, set, marks))
}

/// The fourth of five records, and what `marks_of_span` tells of it.
#[derive(Clone, Copy, Debug, PartialEq, Eq)]
struct Spanned {
    fourth: Result<MinorRef, MinorFull>,
    marks: Option<(RecordSpan, [bool; 5], [bool; 5])>,
}

fn mark_and_unmark(alloc: Global) -> Result<Spanned, NoMemory> {
    let mut heap = MinorHeap::with_room(alloc, 5)?;
    let fourth = make_five(&mut heap);
    Ok(Spanned {
        fourth,
        marks: marks_of_span(&heap),
    })
}

#[test]
fn marks_lie_in_a_span_and_are_taken_back(rt: HostRuntime) -> Result<(), Fail> {
    let span = RecordSpan { first: 1, end: 4 };
    let set = [false, true, false, true, false];
    let none = [false, false, false, false, false];
    let wanted = Spanned {
        fourth: Ok(MinorRef { number: 3 }),
        marks: Some((span, set, none)),
    };
    assert_eq!(rt; mark_and_unmark(rt.alloc())?, wanted);
    Ok(())
}

/// The last field of the third of three records.
fn last_of_three(heap: &MinorHeap) -> Option<MinorField> {
    if heap.len() != 3 {
        return None;
    }
    Some(heap.field(MinorRef { number: 2 }, 4))
}

/// What a heap with room for six records shows when five are made and all go but three, when one
/// more is made then, and when five are to stay of those four.
#[derive(Clone, Copy, Debug, PartialEq, Eq)]
struct Truncated {
    made: Result<[MinorRef; 3], MinorFull>,
    len: u32,
    spare: u32,
    third: Option<MinorField>,
    next: Result<MinorRef, MinorFull>,
    all: u32,
}

fn truncate_chain(alloc: Global) -> Result<Truncated, NoMemory> {
    let mut heap = MinorHeap::with_room(alloc, 6)?;
    let made = make_chain(&mut heap);
    heap.truncate(3);
    let (len, spare) = (heap.len(), heap.spare());
    let third = last_of_three(&heap);
    let next = heap.make([Num(9), Null, Null, Null, Null]);
    heap.truncate(5);
    Ok(Truncated {
        made,
        len,
        spare,
        third,
        next,
        all: heap.len(),
    })
}

#[test]
fn the_first_records_stay_and_the_next_one_follows_them(rt: HostRuntime) -> Result<(), Fail> {
    let r0 = MinorRef { number: 0 };
    let r2 = MinorRef { number: 2 };
    let r4 = MinorRef { number: 4 };
    let wanted = Truncated {
        made: Ok([r0, r2, r4]),
        len: 3,
        spare: 3,
        third: Some(Minor(r0)),
        next: Ok(MinorRef { number: 3 }),
        all: 4,
    };
    assert_eq!(rt; truncate_chain(rt.alloc())?, wanted);
    Ok(())
}

/// The fields of a record that was made of kinds and words, and whether a record may name itself, a
/// place that is not held, or a number of 63 bits.
#[derive(Clone, Copy, Debug, PartialEq, Eq)]
struct OfWords {
    may: bool,
    fields: Option<[MinorField; 5]>,
    names_itself: bool,
    unheld: bool,
    too_great: bool,
}

const KINDS: [FieldKind; 5] = [
    FieldKind::Null,
    FieldKind::Num,
    FieldKind::Minor,
    FieldKind::Shared,
    FieldKind::Num,
];

/// Makes a record of these words, which names the first record and the last of three places.
fn make_of(heap: &mut MinorHeap, words: [u64; 5]) -> Option<[MinorField; 5]> {
    if !heap.may_make(&KINDS, &words, 3) {
        return None;
    }
    match heap.make_of_words(KINDS, words) {
        Ok(r) => Some([
            heap.field(r, 0),
            heap.field(r, 1),
            heap.field(r, 2),
            heap.field(r, 3),
            heap.field(r, 4),
        ]),
        Err(MinorFull) => None,
    }
}

fn of_words(alloc: Global) -> Result<OfWords, NoMemory> {
    let mut heap = MinorHeap::with_room(alloc, 2)?;
    let _first = heap.make([Null, Null, Null, Null, Null]);
    let words = [9, 7, 0, 2, (1 << 62) - 1];
    Ok(OfWords {
        may: heap.may_make(&KINDS, &words, 3),
        names_itself: heap.may_make(&KINDS, &[0, 7, 1, 2, 0], 3),
        unheld: heap.may_make(&KINDS, &[0, 7, 0, 3, 0], 3),
        too_great: heap.may_make(&KINDS, &[0, 7, 0, 2, 1 << 62], 3),
        fields: make_of(&mut heap, words),
    })
}

#[test]
fn a_record_of_words_has_the_fields_that_they_are(rt: HostRuntime) -> Result<(), Fail> {
    let first = MinorRef { number: 0 };
    let wanted = OfWords {
        may: true,
        fields: Some([Null, Num(7), Minor(first), Shared(2), Num((1 << 62) - 1)]),
        names_itself: false,
        unheld: false,
        too_great: false,
    };
    assert_eq!(rt; of_words(rt.alloc())?, wanted);
    Ok(())
}
