//! What no clause says: each call on its happy path, and histories that are wrong in one place.
use crate::made::{Unmade, get, put, val};
use doc_model::{Command, Entry, Log, PlainStore, Reply, is_legal, merge};
use std::alloc::Global;
use std::test::Fail;

/// What stands in an entry besides its command.
#[derive(Clone, Copy, Debug, PartialEq, Eq)]
struct Outcome {
    client: u32,
    number: u32,
    reply: Answer,
    place: u64,
}

#[derive(Clone, Copy, Debug, PartialEq, Eq)]
enum Answer {
    Committed(u64),
    /// with the text that is wanted
    Val(u64),
    Worn(u64),
    Other,
}

fn answer_of(reply: &Reply, wanted: &str) -> Answer {
    match reply {
        Reply::Committed { shown } => Answer::Committed(*shown),
        Reply::Val { shown, text } if text.as_str() == wanted => Answer::Val(*shown),
        Reply::Worn { shown } => Answer::Worn(*shown),
        _ => Answer::Other,
    }
}

fn outcome_of(entry: &Entry, wanted: &str) -> Outcome {
    Outcome {
        client: entry.client,
        number: entry.number,
        reply: answer_of(&entry.reply, wanted),
        place: entry.place,
    }
}

/// The entries of a put of a text and of a get of it.
fn put_and_got(alloc: Global) -> Result<(Outcome, Outcome), Unmade> {
    let put = put(alloc, "a", "hello")?;
    let get = get(alloc, "a")?;
    let mut store = PlainStore::new(alloc, 1, 8, 1_000_000)?;
    let first = store.answer(alloc, 1, &put)?;
    let second = store.answer_owned(alloc, 1, get)?;
    Ok((outcome_of(&first, "hello"), outcome_of(&second, "hello")))
}

#[test]
fn a_text_that_was_put_is_got_back(rt: HostRuntime) -> Result<(), Fail> {
    let first = Outcome {
        client: 1,
        number: 1,
        reply: Answer::Committed(1),
        place: 1,
    };
    let second = Outcome {
        client: 1,
        number: 2,
        reply: Answer::Val(1),
        place: 1,
    };
    assert_eq!(rt; put_and_got(rt.alloc())?, (first, second));
    Ok(())
}

/// The entries of one put by two clients, of which the first makes the last version.
fn put_by_two(alloc: Global) -> Result<(Outcome, Outcome), Unmade> {
    let put = put(alloc, "a", "x")?;
    let mut store = PlainStore::new(alloc, 2, 1, 1)?;
    let first = store.answer(alloc, 1, &put)?;
    let worn = store.answer(alloc, 2, &put)?;
    Ok((outcome_of(&first, "x"), outcome_of(&worn, "x")))
}

#[test]
fn the_last_version_is_the_limit(rt: HostRuntime) -> Result<(), Fail> {
    let first = Outcome {
        client: 1,
        number: 1,
        reply: Answer::Committed(1),
        place: 1,
    };
    let worn = Outcome {
        client: 2,
        number: 1,
        reply: Answer::Worn(1),
        place: 1,
    };
    assert_eq!(rt; put_by_two(rt.alloc())?, (first, worn));
    Ok(())
}

fn entry(client: u32, number: u32, command: Command, reply: Reply, place: u64) -> Entry {
    Entry {
        client,
        number,
        command,
        reply,
        place,
    }
}

// The log of a client that was answered one command, at place 1.
fn log_of(alloc: Global, client: u32, text: Option<&str>) -> Result<Log, Unmade> {
    let mut log = Log::new(alloc, client);
    log.reserve(1)?;
    log.push(match text {
        Some(word) => {
            let reply = Reply::Committed { shown: 1 };
            entry(client, 1, put(alloc, "a", word)?, reply, 1)
        }
        None => entry(client, 1, get(alloc, "b")?, Reply::Absent { shown: 1 }, 1),
    });
    Ok(log)
}

/// Whether a log of one entry has room for two more, its client, and how many entries it has.
fn log_with_room(alloc: Global) -> Result<(bool, u32, usize), Unmade> {
    let mut log = log_of(alloc, 3, None)?;
    log.reserve(2)?;
    Ok((log.spare() >= 2, log.client(), log.entries().len()))
}

#[test]
fn a_log_takes_what_there_is_room_for(rt: HostRuntime) -> Result<(), Fail> {
    assert_eq!(rt; log_with_room(rt.alloc())?, (true, 3, 1));
    Ok(())
}

/// The clients of two entries at one place, of which that of client 2 made the version.
fn merged(alloc: Global) -> Result<Option<(u32, u32)>, Unmade> {
    let mut logs = Vec::new(alloc);
    logs.push(log_of(alloc, 1, None)?)?;
    logs.push(log_of(alloc, 2, Some("x"))?)?;
    let merged = merge(alloc, &logs)?;
    Ok(match merged.as_slice() {
        [first, second] => Some((first.client, second.client)),
        _ => None,
    })
}

#[test]
fn the_entry_that_made_a_version_comes_first(rt: HostRuntime) -> Result<(), Fail> {
    assert_eq!(rt; merged(rt.alloc())?, Some((2, 1)));
    Ok(())
}

// Adds an entry of client 1, copied on the way.
fn add(
    all: &mut Vec<Entry>,
    number: u32,
    command: Command,
    reply: Reply,
    place: u64,
) -> Result<(), Unmade> {
    let entry = entry(1, number, command, reply, place);
    all.push(entry.copy()?)?;
    Ok(())
}

// Whether the entry may follow a put of client 1.
fn may_follow(alloc: Global, last: &Entry) -> Result<bool, Unmade> {
    let mut all = Vec::new(alloc);
    add(
        &mut all,
        1,
        put(alloc, "a", "x")?,
        Reply::Committed { shown: 1 },
        1,
    )?;
    all.push(last.copy()?)?;
    Ok(all.len() == 2 && is_legal(alloc, &all, 2, 8, 100)?)
}

fn may_be_got(alloc: Global, client: u32, reply: Reply, place: u64) -> Result<bool, Unmade> {
    may_follow(alloc, &entry(client, 1, get(alloc, "a")?, reply, place))
}

fn may_be_val(alloc: Global, client: u32, place: u64) -> Result<bool, Unmade> {
    may_be_got(alloc, client, val(alloc, 1, "x")?, place)
}

fn may_be_full(alloc: Global, shown: u64, place: u64) -> Result<bool, Unmade> {
    let command = put(alloc, "a", "y")?;
    may_follow(alloc, &entry(2, 1, command, Reply::Full { shown }, place))
}

#[test]
fn a_history_that_is_wrong_in_one_place_is_not_legal(rt: HostRuntime) -> Result<(), Fail> {
    let alloc = rt.alloc();
    for (client, place, legal, wrong) in [
        (2, 1, true, "nothing"),
        (2, 0, false, "a place"),
        (3, 1, false, "no client"),
        (0, 1, false, "no client"),
    ] {
        assert_eq!(rt; may_be_val(alloc, client, place)?, legal, "{wrong}");
    }
    let absent = may_be_got(alloc, 2, Reply::Absent { shown: 1 }, 1)?;
    assert!(rt; !absent, "a reply");
    let full = may_be_got(alloc, 2, Reply::Full { shown: 1 }, 1)?;
    assert!(rt; !full, "a get needs no cells");
    Ok(())
}

#[test]
fn a_full_heap_may_refuse_at_the_right_place(rt: HostRuntime) -> Result<(), Fail> {
    for (shown, place, legal) in [(1, 1, true), (0, 1, false), (0, 0, false)] {
        assert_eq!(rt;
            may_be_full(rt.alloc(), shown, place)?,
            legal,
            "{shown} at {place}"
        );
    }
    Ok(())
}

/// Whether a get before the put that it finds is legal.
fn is_got_before_put(alloc: Global) -> Result<Option<bool>, Unmade> {
    let mut all = Vec::new(alloc);
    add(&mut all, 2, get(alloc, "a")?, val(alloc, 1, "x")?, 1)?;
    add(
        &mut all,
        1,
        put(alloc, "a", "x")?,
        Reply::Committed { shown: 1 },
        1,
    )?;
    if all.len() != 2 {
        return Ok(None);
    }
    Ok(Some(is_legal(alloc, &all, 1, 8, 100)?))
}

#[test]
fn one_client_in_the_wrong_order_is_not_legal(rt: HostRuntime) -> Result<(), Fail> {
    assert_eq!(rt; is_got_before_put(rt.alloc())?, Some(false));
    Ok(())
}
