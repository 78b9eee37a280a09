//! Edits on the pool in memory: rows that were worked out by hand.
use crate::document::Document;
use doc_tree::{EditFault, NoMemory, Path, Text};
use std::alloc::Global;
use std::test::Fail;

/// Why an edit of a test was not made.
#[derive(Clone, Copy, Debug, PartialEq, Eq)]
enum Unmade {
    NoMemory,
    NoPath,
    NoText,
    Refused(EditFault),
}

impl From<NoMemory> for Unmade {
    fn from(_: NoMemory) -> Unmade {
        Unmade::NoMemory
    }
}

impl From<EditFault> for Unmade {
    fn from(fault: EditFault) -> Unmade {
        Unmade::Refused(fault)
    }
}

fn path(alloc: Global, names: &str) -> Result<Path, Unmade> {
    Path::read(alloc, names.as_bytes())?.ok_or(Unmade::NoPath)
}

fn text(alloc: Global, letters: &str) -> Result<Text, Unmade> {
    Text::read(alloc, letters.as_bytes())?.ok_or(Unmade::NoText)
}

fn put(document: &mut Document, alloc: Global, names: &str, letters: &str) -> Result<(), Unmade> {
    let path = path(alloc, names)?;
    let text = text(alloc, letters)?;
    document.put(&path, &text)?;
    Ok(())
}

fn delete(document: &mut Document, alloc: Global, names: &str) -> Result<(), Unmade> {
    let path = path(alloc, names)?;
    document.delete(&path)?;
    Ok(())
}

fn copy(document: &mut Document, alloc: Global, from: &str, to: &str) -> Result<(), Unmade> {
    let from = path(alloc, from)?;
    let to = path(alloc, to)?;
    document.copy(&from, &to)?;
    Ok(())
}

/// Whether the node has this text, if there is one.
fn has_text(
    document: &mut Document,
    alloc: Global,
    names: &str,
    letters: &str,
) -> Result<Option<bool>, Unmade> {
    let path = path(alloc, names)?;
    Ok(match document.text(alloc, &path)? {
        Some(found) => Some(found.as_str() == letters),
        None => None,
    })
}

/// How many children the node has, if there is one.
fn children(document: &mut Document, alloc: Global, names: &str) -> Result<Option<usize>, Unmade> {
    let path = path(alloc, names)?;
    Ok(match document.names(alloc, &path)? {
        Some(found) => Some(found.names().len()),
        None => None,
    })
}

type Sizes = (u64, u32);

/// The sizes after a put at `a/b`, and whether both texts are found after one at `a`.
fn put_two(document: &mut Document, alloc: Global) -> Result<(Sizes, [Option<bool>; 2]), Unmade> {
    put(document, alloc, "a/b", "x")?;
    let sizes = document.sizes();
    put(document, alloc, "a", "hello")?;
    let hello = has_text(document, alloc, "a", "hello")?;
    Ok((sizes, [hello, has_text(document, alloc, "a/b", "x")?]))
}

/// What is found of `a/b` when it was deleted, what deleting it again meets, and the sizes.
fn delete_one(
    document: &mut Document,
    alloc: Global,
) -> Result<(Option<bool>, Result<(), Unmade>, Sizes), Unmade> {
    delete(document, alloc, "a/b")?;
    let found = has_text(document, alloc, "a/b", "x")?;
    let again = delete(document, alloc, "a/b");
    Ok((found, again, document.sizes()))
}

fn put_and_deleted(
    alloc: Global,
) -> Result<
    (
        Result<(Sizes, [Option<bool>; 2]), Unmade>,
        Result<(Option<bool>, Result<(), Unmade>, Sizes), Unmade>,
    ),
    NoMemory,
> {
    let mut document = Document::empty(alloc, 2000)?;
    let put = put_two(&mut document, alloc);
    Ok((put, delete_one(&mut document, alloc)))
}

#[test]
fn what_is_put_is_found_and_what_is_deleted_is_gone(rt: HostRuntime) -> Result<(), Fail> {
    let put = ((3, 2), [Some(true), Some(true)]);
    let deleted = (None, Err(Unmade::Refused(EditFault::Absent)), (2, 1));
    assert_eq!(rt; put_and_deleted(rt.alloc())?, (Ok(put), Ok(deleted)));
    Ok(())
}

/// The sizes when `a` stands at `a/b` too, how many children `a` has, and whether the copy has its
/// text.
fn copy_below(
    document: &mut Document,
    alloc: Global,
) -> Result<(Sizes, Option<usize>, Option<bool>), Unmade> {
    put(document, alloc, "a", "x")?;
    copy(document, alloc, "a", "a/b")?;
    let children = children(document, alloc, "a")?;
    let found = has_text(document, alloc, "a/b", "x")?;
    Ok((document.sizes(), children, found))
}

fn copied(alloc: Global) -> Result<(Sizes, Option<usize>, Option<bool>), Unmade> {
    let mut document = Document::empty(alloc, 2000)?;
    copy_below(&mut document, alloc)
}

#[test]
fn a_copy_stands_in_both_places(rt: HostRuntime) -> Result<(), Fail> {
    assert_eq!(rt; copied(rt.alloc())?, ((3, 2), Some(1), Some(true)));
    Ok(())
}

/// Puts a text at `d/000` to `d/255`.
fn put_all(document: &mut Document, alloc: Global) -> Result<(), Unmade> {
    for i in 0u32..256 {
        let names = format!(in alloc; "d/{i:03}")?;
        put(document, alloc, &names, "x")?;
    }
    Ok(())
}

/// What a put of a 257th name meets, the sizes before it, and after it how many records a put at
/// the first name makes, and the sizes.
fn put_many(
    document: &mut Document,
    alloc: Global,
) -> Result<(Sizes, Result<(), Unmade>, u64, Sizes), Unmade> {
    put_all(document, alloc)?;
    let sizes = document.sizes();
    let more = put(document, alloc, "d/256", "x");
    let before = u64::from(document.made());
    put(document, alloc, "d/000", "y")?;
    let made = u64::from(document.made()).abs_diff(before);
    Ok((sizes, more, made, document.sizes()))
}

fn put_too_many(alloc: Global) -> Result<(Sizes, Result<(), Unmade>, u64, Sizes), Unmade> {
    let mut document = Document::empty(alloc, 20_000)?;
    put_many(&mut document, alloc)
}

// The path to the entry of 000 has eight entries, and there are two nodes, an entry of d, and the
// new node with its text.
#[test]
fn a_257th_name_is_one_too_many(rt: HostRuntime) -> Result<(), Fail> {
    let many = Err(Unmade::Refused(EditFault::Many));
    assert_eq!(rt; put_too_many(rt.alloc())?, ((258, 2), many, 13, (258, 2)));
    Ok(())
}
