//! Batches: several edits that make one version together, or none. What they do is shown by the
//! rows of examples/rows; here stands what a history may not have.
use crate::made::{Change, Unmade, batch, get, put, val};
use doc_model::{Command, Entry, PlainStore, Reply, is_legal};
use std::alloc::Global;
use std::test::Fail;

fn ok(shown: u64) -> Reply {
    Reply::Committed { shown }
}

// Adds an entry of client 1, copied on the way.
fn add(all: &mut Vec<Entry>, command: Command, reply: Reply, place: u64) -> Result<(), Unmade> {
    let entry = Entry {
        client: 1,
        number: 1,
        command,
        reply,
        place,
    };
    all.push(entry.copy()?)?;
    Ok(())
}

// Whether these are a history of one client.
fn is_history(alloc: Global, all: &[Entry]) -> Result<bool, Unmade> {
    Ok(all.len() <= 100 && is_legal(alloc, all, 1, 8, 100)?)
}

/// The replies to an empty batch, and to one of two edits after it.
fn answered(alloc: Global) -> Result<(bool, bool), Unmade> {
    let empty = batch(alloc, &[])?;
    let two = batch(alloc, &[Change::Put("a", "x\ty"), Change::Copy("a", "b")])?;
    let mut store = PlainStore::new(alloc, 1, 8, 100)?;
    let first = store.answer(alloc, 1, &empty)?;
    let second = store.answer_owned(alloc, 1, two)?;
    Ok((
        first.reply == ok(1) && first.place == 1,
        second.reply == ok(2) && second.place == 2,
    ))
}

#[test]
fn a_batch_makes_one_version_and_an_empty_one_too(rt: HostRuntime) -> Result<(), Fail> {
    assert_eq!(rt; answered(rt.alloc())?, (true, true));
    Ok(())
}

/// Whether a put and a deletion of what is not there may be answered so, and leave nothing.
fn may_be_refused(alloc: Global, reply: &Reply, place: u64) -> Result<bool, Unmade> {
    let mut all = Vec::new(alloc);
    let edits = [Change::Put("a", "1"), Change::Del("b"), Change::Del("c")];
    add(&mut all, batch(alloc, &edits)?, reply.copy()?, place)?;
    add(&mut all, get(alloc, "a")?, Reply::Absent { shown: 0 }, 0)?;
    is_history(alloc, &all)
}

#[test]
fn a_refused_edit_refuses_the_whole_batch(rt: HostRuntime) -> Result<(), Fail> {
    let absent = may_be_refused(rt.alloc(), &Reply::Absent { shown: 0 }, 0)?;
    let made = may_be_refused(rt.alloc(), &ok(1), 1)?;
    assert_eq!(rt; (absent, made), (true, false));
    Ok(())
}

/// Whether a full heap may refuse a batch at this place, which leaves nothing.
fn may_be_full(alloc: Global, shown: u64, place: u64) -> Result<bool, Unmade> {
    let mut all = Vec::new(alloc);
    add(&mut all, put(alloc, "a", "x\ny")?, ok(1), 1)?;
    let edits = [Change::Put("a", "1")];
    add(
        &mut all,
        batch(alloc, &edits)?,
        Reply::Full { shown },
        place,
    )?;
    add(&mut all, get(alloc, "a")?, val(alloc, 1, "x\ny")?, 1)?;
    is_history(alloc, &all)
}

#[test]
fn a_full_heap_may_refuse_a_batch(rt: HostRuntime) -> Result<(), Fail> {
    for (shown, place, legal) in [(1, 1, true), (0, 1, false), (0, 0, false), (2, 2, false)] {
        assert_eq!(rt;
            may_be_full(rt.alloc(), shown, place)?,
            legal,
            "{shown} at {place}"
        );
    }
    Ok(())
}
