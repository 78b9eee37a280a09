//! Rows, worked out by hand. Hints come in order, so that record 0 is copied to cell 1 and record 1
//! to cell 2, where no row says otherwise; and nobody else claims.
use crate::promoting::{collected, made, promoted};
use crate::shown::{ANCHOR, FIRST, FREE, SECOND};
use cell_words::Field::{Cell, Null, Num};
use mutator_seat::{HeapFull, Value};
use std::test::Fail;

/// What a claim answers at once where each cell is used and the collector has never been on duty.
const FULL: HeapFull = HeapFull {
    off_duty: true,
    began: 0,
    ended: 0,
};

#[test]
fn a_record_that_is_named_twice_is_copied_once(rt: HostRuntime) -> Result<(), Fail> {
    let wanted = ((Ok(1), 2, 2, 2), [ANCHOR, FIRST, SECOND, FREE]);
    assert_eq!(rt; promoted(rt.alloc(), &rt, 4, 1)?, wanted);
    Ok(())
}

// The only hint names the last cell, and the record after it takes the first cell that is free.
#[test]
fn a_record_without_a_hint_finds_a_cell(rt: HostRuntime) -> Result<(), Fail> {
    let second = Some([Cell(3), Cell(3), Null, Null, Null, Num(1)]);
    let wanted = ((Ok(1), 2, 2, 2), [ANCHOR, second, FREE, FIRST]);
    assert_eq!(rt; promoted(rt.alloc(), &rt, 4, 3)?, wanted);
    Ok(())
}

#[test]
fn roots_stand_in_order_and_equal_ones_share_a_cell(rt: HostRuntime) -> Result<(), Fail> {
    // only cell 2 names a cell
    let fields = [
        Some(Value::Held(4)),
        Some(Value::Num(5)),
        Some(Value::Held(5)),
    ];
    let cells = [ANCHOR, FIRST, SECOND, FREE];
    let wanted = ((Ok(1), 2, 4, 0), fields, cells);
    assert_eq!(rt; collected(rt.alloc(), &rt, 4)?, wanted);
    Ok(())
}

#[test]
fn a_full_heap_refuses_and_all_is_as_before(rt: HostRuntime) -> Result<(), Fail> {
    let wanted = ((Err(FULL), 0, 1, 2), [ANCHOR, None, None, None]);
    assert_eq!(rt; promoted(rt.alloc(), &rt, 1, 1)?, wanted);
    Ok(())
}

#[test]
fn a_collection_without_a_free_cell_claims_nothing(rt: HostRuntime) -> Result<(), Fail> {
    let cells = [ANCHOR, None, None, None];
    let wanted = ((Err(FULL), 0, 1, 2), [None, None, None], cells);
    assert_eq!(rt; collected(rt.alloc(), &rt, 1)?, wanted);
    Ok(())
}

#[test]
fn a_box_names_the_record_that_was_made_before(rt: HostRuntime) -> Result<(), Fail> {
    let named = Some([Num(7), Cell(1), Null, Null, Null, Num(2)]);
    let wanted = ((Ok(2), 2, 3, 0), [ANCHOR, FIRST, named, FREE]);
    assert_eq!(rt; made(rt.alloc(), &rt, 4)?, wanted);
    Ok(())
}
