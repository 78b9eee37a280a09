//! Rows of copies a part at a time, worked out by hand. Cells are claimed in order from cell 1 on,
//! and nobody else claims.
use crate::locals::{aged, promoted, shared};
use crate::shown::{ANCHOR, FIRST, FREE, SECOND};
use crate::slices::{copied, forgotten};
use local_records::NotMade::{Full, Unfit};
use local_references::{LocalRef, Root};
use minor_heap::{MinorField, MinorRef};
use record_copying::Progress::{Done, NoCell, Part};
use std::test::Fail;

#[test]
fn a_copy_goes_on_where_it_was(rt: HostRuntime) -> Result<(), Fail> {
    let steps = [(NoCell, 0), (Part, 1), (NoCell, 1), (Done, 2), (Done, 2)];
    let wanted = (steps, [Some(1), Some(2)], [ANCHOR, FIRST, SECOND, FREE]);
    assert_eq!(rt; copied(rt.alloc())?, wanted);
    Ok(())
}

#[test]
fn a_table_that_forgot_has_no_copy(rt: HostRuntime) -> Result<(), Fail> {
    assert_eq!(rt; forgotten(rt.alloc())?, None);
    Ok(())
}

#[test]
fn roots_become_places_in_order(rt: HostRuntime) -> Result<(), Fail> {
    let first = LocalRef { turn: 0, number: 0 };
    let second = LocalRef { turn: 0, number: 1 };
    let made = [Ok(first), Err(Unfit), Ok(second), Err(Full)];
    let private = Some(Root::Private(MinorRef { number: 1 }));
    let before = [private, Some(Root::Num(9)), Some(Root::Shared(0))];
    let after = [
        Some(Root::Shared(1)),
        Some(Root::Num(9)),
        Some(Root::Shared(2)),
    ];
    let cells = [ANCHOR, FIRST, SECOND, FREE];
    let wanted = (made, [NoCell, Part, Done], before, after, false, cells);
    assert_eq!(rt; shared(rt.alloc())?, wanted);
    Ok(())
}

#[test]
fn a_record_ages_with_its_root(rt: HostRuntime) -> Result<(), Fail> {
    let moved = Some(Root::Private(MinorRef { number: 0 }));
    let wanted = (moved, Some(MinorField::Num(7)), 1, true, false);
    assert_eq!(rt; aged(rt.alloc())?, wanted);
    Ok(())
}

#[test]
fn a_promotion_goes_on_where_it_was(rt: HostRuntime) -> Result<(), Fail> {
    let wanted = (Some([Err(Part), Ok(2)]), 0);
    assert_eq!(rt; promoted(rt.alloc())?, wanted);
    Ok(())
}
