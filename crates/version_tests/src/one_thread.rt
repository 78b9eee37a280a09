//! Two mutators on one thread, with the collector off duty.
ghost use Rattle.std.specs.Prelude.{◌≤◌};
ghost use Rattle.version_tests.specs.Grows.{Works};

use crate::bare::Store;
use crate::opening::{Served, come_in, open_served};
use crate::working::{back, commit_one, look, prune_latest, put};
use cell_heap::NoMemory;
use free_cells::{FreeQueue, Hints};
use mutator_seat::Mutator;
use std::alloc::Global;
use std::sync::Wait;
use std::test::Fail;
use version_store::{CommitFault, Cut};

const CELLS: u32 = 40;

/// How many versions these stores keep.
const KEEP: u64 = 2;

/// What two mutators that are in do on a store of their own, and what they find.
trait Row: Copy {
    type Found: Copy;

    fn work<R: Wait>(
        self,
        rt: &R,
        hints: &mut Hints<'_>,
        first: &mut Mutator<'_, Store>,
        second: &mut Mutator<'_, Store>,
    ) -> Self::Found
        requires first { Works 1 0 KEEP first.old }
        requires second { Works 1 0 KEEP second.old };
}

/// What is found on a new store of so many cells.
fn worked<T: Row, R: Wait>(alloc: Global, rt: &R, row: T, cells: u32) -> Result<T::Found, NoMemory>
    requires some { 3 ≤ cells }
    requires few { cells ≤ 1000000 }
{
    let (queue, pass) = FreeQueue::open(alloc, rt, cells, 3)?;
    let Served {
        heap,
        first,
        second,
        ..
    } = open_served(alloc, cells, KEEP)?;
    let mut hints = queue.hints(pass);
    let mut first = come_in(&heap, first, KEEP);
    let mut second = come_in(&heap, second, KEEP);
    Ok(row.work(rt, &mut hints, &mut first, &mut second))
}

/// Both look, and commit over what they found.
#[derive(Clone, Copy)]
struct CommitBoth;

impl Row for CommitBoth {
    type Found = (
        (u64, u64),
        Result<u64, CommitFault>,
        Result<u64, CommitFault>,
    );

    fn work<R: Wait>(
        self,
        rt: &R,
        hints: &mut Hints<'_>,
        first: &mut Mutator<'_, Store>,
        second: &mut Mutator<'_, Store>,
    ) -> (
        (u64, u64),
        Result<u64, CommitFault>,
        Result<u64, CommitFault>,
    ) {
        let zero = look(first);
        let other = look(second);
        let made = put(rt, hints, second, other, 100);
        let refused = put(rt, hints, first, zero, 100);
        ((zero.number, other.number), made, refused)
    }
}

#[test]
fn a_commit_over_an_older_version_is_refused(rt: HostRuntime) -> Result<(), Fail> {
    let found = worked(rt.alloc(), &rt, CommitBoth, CELLS)?;
    let refused = Err(CommitFault::Moved { newer: 1 });
    assert_eq!(rt; found, ((0, 0), Ok(1), refused));
    Ok(())
}

/// What went before a version was cut off: the two commits, the version that the first mutator then
/// holds, the third commit, and the latest version, up to which what is no longer kept is cut off.
type Cutting = (
    Result<u64, CommitFault>,
    Result<u64, CommitFault>,
    u64,
    Result<u64, CommitFault>,
    u64,
);

/// Goes back from a version whose older one is cut off meanwhile.
#[derive(Clone, Copy)]
struct GoBack;

impl Row for GoBack {
    type Found = (Cutting, Option<Result<u64, Cut>>);

    fn work<R: Wait>(
        self,
        rt: &R,
        hints: &mut Hints<'_>,
        first: &mut Mutator<'_, Store>,
        second: &mut Mutator<'_, Store>,
    ) -> (Cutting, Option<Result<u64, Cut>>) {
        let one = commit_one(rt, hints, second, KEEP, 0, 100);
        let two = commit_one(rt, hints, second, KEEP, 1, 100);
        let held = look(first);
        let three = commit_one(rt, hints, second, KEEP, 2, 100);
        let latest = prune_latest(second, KEEP, 3);
        let older = match back(first, held, 1, KEEP) {
            Some(Ok(older)) => Some(Ok(older.number)),
            Some(Err(cut)) => Some(Err(cut)),
            None => None,
        };
        ((one, two, held.number, three, latest), older)
    }
}

#[test]
fn a_version_that_is_cut_off_is_not_given(rt: HostRuntime) -> Result<(), Fail> {
    let found = worked(rt.alloc(), &rt, GoBack, CELLS)?;
    let cutting = (Ok(1), Ok(2), 2, Ok(3), 3);
    assert_eq!(rt; found, (cutting, Some(Err(Cut { newer: 3 }))));
    Ok(())
}

/// Commits three times, where two versions may be made.
#[derive(Clone, Copy)]
struct CommitThree;

impl Row for CommitThree {
    type Found = [Result<u64, CommitFault>; 3];

    fn work<R: Wait>(
        self,
        rt: &R,
        hints: &mut Hints<'_>,
        first: &mut Mutator<'_, Store>,
        _second: &mut Mutator<'_, Store>,
    ) -> [Result<u64, CommitFault>; 3] {
        let one = commit_one(rt, hints, first, KEEP, 0, 2);
        let two = commit_one(rt, hints, first, KEEP, 1, 2);
        let three = commit_one(rt, hints, first, KEEP, 2, 2);
        [one, two, three]
    }
}

#[test]
fn no_commit_goes_past_the_last_version(rt: HostRuntime) -> Result<(), Fail> {
    let made = worked(rt.alloc(), &rt, CommitThree, CELLS)?;
    assert_eq!(rt; made, [Ok(1), Ok(2), Err(CommitFault::Worn)]);
    Ok(())
}

/// Commits over the version that a store opens with.
#[derive(Clone, Copy)]
struct CommitFirst;

impl Row for CommitFirst {
    type Found = Result<u64, CommitFault>;

    fn work<R: Wait>(
        self,
        rt: &R,
        hints: &mut Hints<'_>,
        first: &mut Mutator<'_, Store>,
        _second: &mut Mutator<'_, Store>,
    ) -> Result<u64, CommitFault> {
        let zero = look(first);
        put(rt, hints, first, zero, 2)
    }
}

#[test]
fn a_heap_without_a_free_cell_is_full(rt: HostRuntime) -> Result<(), Fail> {
    let full = worked(rt.alloc(), &rt, CommitFirst, 3)?;
    assert!(rt; matches!(full, Err(CommitFault::Full(cause)) if cause.off_duty));
    Ok(())
}
