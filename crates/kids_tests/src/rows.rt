//! What no clause says: each call on its happy path, and a whole row, whose heights and numbers of
//! entries another program worked out.
use crate::row::{Refused, Row};
use doc_tree::{Name, NoMemory};
use std::alloc::Global;
use std::test::Fail;

/// Why a row is not made.
#[derive(Clone, Copy, Debug)]
enum Unmade {
    NoMemory,
    NoName,
    Refused,
}

impl From<NoMemory> for Unmade {
    fn from(_: NoMemory) -> Unmade {
        Unmade::NoMemory
    }
}

impl From<Refused> for Unmade {
    fn from(_: Refused) -> Unmade {
        Unmade::Refused
    }
}

fn name(alloc: Global, word: &str) -> Result<Name, Unmade> {
    Name::read(alloc, word.as_bytes())?.ok_or(Unmade::NoName)
}

fn numbered(alloc: Global, number: u64) -> Result<Name, Unmade> {
    let word = format!(in alloc; "{number:03}")?;
    name(alloc, &word)
}

/// Puts the second name, the first, and the second with another child.
fn put_three(row: &mut Row, first: &Name, second: &Name) -> Result<(), Refused> {
    row.put(second, 1)?;
    row.put(first, 2)?;
    row.put(second, 3)
}

/// How many children there are, and those of the two names.
type Found = (u32, Option<u64>, Option<u64>);

fn found(row: &mut Row, first: &Name, second: &Name) -> Found {
    (row.len(), row.find(first), row.find(second))
}

/// Whether the name at the index is this one.
fn is_name_at(row: &mut Row, index: u32, word: &[u8]) -> Option<bool> {
    Some(row.name_at(index)? == word)
}

/// What is found of two names that were put, whether the first name of the row and the third are
/// `a`, and what is found when the first of the two was taken out.
fn put_and_removed(alloc: Global) -> Result<(Found, [Option<bool>; 2], Found), Unmade> {
    let (a, b) = (name(alloc, "a")?, name(alloc, "b")?);
    let mut row = Row::empty(alloc)?;
    put_three(&mut row, &a, &b)?;
    let put = found(&mut row, &a, &b);
    let names = [is_name_at(&mut row, 0, b"a"), is_name_at(&mut row, 2, b"a")];
    row.remove(&a)?;
    Ok((put, names, found(&mut row, &a, &b)))
}

#[test]
fn a_child_is_found_replaced_and_taken_out(rt: HostRuntime) -> Result<(), Fail> {
    let put = (2, Some(2), Some(3));
    let removed = (1, None, Some(3));
    assert_eq!(rt;
        put_and_removed(rt.alloc())?,
        (put, [Some(true), None], removed)
    );
    Ok(())
}

/// Puts the names 000 to 255.
fn put_all(row: &mut Row, alloc: Global) -> Result<(), Unmade> {
    for i in 0u64..256 {
        row.put(&numbered(alloc, i)?, i)?;
    }
    Ok(())
}

/// Takes them out.
fn remove_all(row: &mut Row, alloc: Global) -> Result<(), Unmade> {
    for i in 0u64..256 {
        row.remove(&numbered(alloc, i)?)?;
    }
    Ok(())
}

fn find_numbered(row: &mut Row, alloc: Global, number: u64) -> Result<Option<u64>, Unmade> {
    let name = numbered(alloc, number)?;
    Ok(row.find(&name))
}

/// What a row of 256 names shows: how many there are, its height, how many entries were made, the
/// child of the name 256, and whether the last name is 255. Then, when all were taken out, whether
/// it is empty and how many entries were made.
#[derive(Clone, Copy, Debug, PartialEq, Eq)]
struct Whole {
    sizes: (u32, u64, usize),
    absent: Option<u64>,
    is_last: Option<bool>,
    emptied: (bool, usize),
}

fn filled_and_emptied(alloc: Global) -> Result<Whole, Unmade> {
    let mut row = Row::empty(alloc)?;
    put_all(&mut row, alloc)?;
    let sizes = (row.len(), row.height(), row.made());
    let absent = find_numbered(&mut row, alloc, 256)?;
    let is_last = is_name_at(&mut row, 255, b"255");
    remove_all(&mut row, alloc)?;
    Ok(Whole {
        sizes,
        absent,
        is_last,
        emptied: (row.is_empty(), row.made()),
    })
}

#[test]
fn a_row_of_256_names_is_nine_high(rt: HostRuntime) -> Result<(), Fail> {
    let wanted = Whole {
        sizes: (256, 9, 2296),
        absent: None,
        is_last: Some(true),
        emptied: (true, 3698),
    };
    assert_eq!(rt; filled_and_emptied(rt.alloc())?, wanted);
    Ok(())
}
