//! What no clause says of trees: each call on its happy path, and what is a name, a text and a
//! path.
//!
//! The limits of a tree are shown by the rows of examples/rows.
use crate::tree_words::{name, path, text};
use doc_tree::{EditFault, Name, Names, NoMemory, Path, Text, Tree};
use std::alloc::Global;
use std::test::Fail;

/// Whether these bytes are a name, a text and a path.
fn reads(alloc: Global, bytes: &[u8]) -> Result<[bool; 3], NoMemory> {
    let is_name = Name::read(alloc, bytes)?.is_some();
    let is_text = Text::read(alloc, bytes)?.is_some();
    Ok([is_name, is_text, Path::read(alloc, bytes)?.is_some()])
}

/// The first of these rows whose bytes read otherwise than it says.
fn first_wrong(alloc: Global, rows: &[(&[u8], [bool; 3])]) -> Result<Option<usize>, NoMemory> {
    for (row, (bytes, wanted)) in rows.iter().enumerate() {
        if reads(alloc, bytes)? != *wanted {
            return Ok(Some(row));
        }
    }
    Ok(None)
}

#[test]
fn names_texts_and_paths_are_read_at_their_limits(rt: HostRuntime) -> Result<(), Fail> {
    let long = [b'a'; 4097];
    let rows = [
        (&long[..64], [true, true, true]),
        (&long[..65], [false, true, false]),
        (&long[..4096], [false, true, false]),
        (&long[..], [false, false, false]),
        (b"".as_slice(), [false, true, false]),
        (b"aZ09-_".as_slice(), [true, true, true]),
        (b" ~".as_slice(), [false, true, false]),
        (b"\t\n".as_slice(), [false, true, false]),
        (b"\x08".as_slice(), [false, false, false]),
        (b"\x0b".as_slice(), [false, false, false]),
        (b"\r".as_slice(), [false, false, false]),
        (b"\x1f".as_slice(), [false, false, false]),
        (b"\x7f".as_slice(), [false, false, false]),
        (b"a\tb".as_slice(), [false, true, false]),
        (b"a\n/b".as_slice(), [false, true, false]),
        (b"a/b".as_slice(), [false, true, true]),
        (b"a//b".as_slice(), [false, true, false]),
        (b"/a".as_slice(), [false, true, false]),
        (b"a/".as_slice(), [false, true, false]),
        (b"a/b/c/d/e/f/g/h".as_slice(), [false, true, true]),
        (b"a/b/c/d/e/f/g/h/i".as_slice(), [false, true, false]),
    ];
    assert_eq!(rt; first_wrong(rt.alloc(), &rows)?, None);
    Ok(())
}

/// Whether a copy of the path site/index has these two names.
fn has_its_names(alloc: Global) -> Result<bool, Fail> {
    let path = path(alloc, "site/index")?.copy()?;
    match path.names() {
        [first, second] => Ok(first.as_str() == "site" && second.bytes() == b"index".as_slice()),
        _ => Ok(false),
    }
}

/// The first of these words that the path site/index takes for its bytes, or does not, otherwise
/// than it should.
fn first_mistaken<'a>(alloc: Global, rows: &[(&'a str, bool)]) -> Result<Option<&'a str>, Fail> {
    let path = path(alloc, "site/index")?;
    for (word, wanted) in rows {
        if path.is_of(word.as_bytes()) != *wanted {
            return Ok(Some(*word));
        }
    }
    Ok(None)
}

#[test]
fn a_path_knows_its_bytes(rt: HostRuntime) -> Result<(), Fail> {
    let rows = [
        ("site/index", true),
        ("site/indey", false),
        ("site", false),
        ("site/index/", false),
        ("site/index/a", false),
        ("", false),
    ];
    assert_eq!(rt; first_mistaken(rt.alloc(), &rows)?, None);
    Ok(())
}

/// How many names a copy of names has to which one was added.
fn names_with_one(alloc: Global) -> Result<usize, Fail> {
    let mut names = Names::new(alloc);
    names.push(name(alloc, "b")?.copy()?)?;
    Ok(names.copy()?.names().len())
}

/// Whether a copy of the text of this word is the word.
fn is_kept(alloc: Global, word: &str) -> Result<bool, Fail> {
    Ok(text(alloc, word)?.copy()?.as_str() == word)
}

#[test]
fn a_path_holds_its_names(rt: HostRuntime) -> Result<(), Fail> {
    let alloc = rt.alloc();
    let is_kept = is_kept(alloc, "Hello, reader.")?;
    assert_eq!(rt;
        (has_its_names(alloc)?, names_with_one(alloc)?, is_kept),
        (true, 1, true)
    );
    Ok(())
}

/// Whether the path of the first name of a/b/c is a.
fn begins_with_a(alloc: Global) -> Result<bool, Fail> {
    let first = path(alloc, "a/b/c")?.first(alloc)?;
    Ok(first.is_of(b"a".as_slice()))
}

#[test]
fn a_path_has_a_first_name(rt: HostRuntime) -> Result<(), Fail> {
    assert_eq!(rt; begins_with_a(rt.alloc())?, true);
    Ok(())
}

fn made(edited: Result<Tree, EditFault>) -> Result<Tree, Fail> {
    Ok(edited.ok().ok_or("an edit that is not refused")?)
}

fn site(alloc: Global) -> Result<Tree, Fail> {
    let mut tree = Tree::empty(alloc)?;
    for to in ["site/index/title", "site/about", "a", "site/index"] {
        tree = made(tree.set_text(alloc, &path(alloc, to)?, &text(alloc, to)?))?;
    }
    Ok(tree)
}

/// The nodes and the height.
type Size = (u64, u32);

fn size(tree: &Tree) -> Size {
    (tree.count(), tree.height())
}

fn size_at(alloc: Global, tree: &Tree, at: &str) -> Result<Option<Size>, Fail> {
    match tree.node(&path(alloc, at)?) {
        Some(node) => Ok(Some(size(node))),
        None => Ok(None),
    }
}

fn has_text(alloc: Global, tree: &Tree, at: &str, word: &str) -> Result<bool, Fail> {
    match tree.node(&path(alloc, at)?) {
        Some(node) => Ok(node.text().as_str() == word),
        None => Ok(false),
    }
}

/// The site, its index and a node that it has not; and whether the index has its text.
fn counts(alloc: Global) -> Result<([Option<Size>; 3], bool), Fail> {
    let tree = site(alloc)?;
    let index = size_at(alloc, &tree, "site/index")?;
    let other = size_at(alloc, &tree, "site/b")?;
    let has_text = has_text(alloc, &tree, "site/index", "site/index")?;
    Ok(([Some(size(&tree)), index, other], has_text))
}

#[test]
fn a_tree_counts_its_nodes(rt: HostRuntime) -> Result<(), Fail> {
    assert_eq!(rt;
        counts(rt.alloc())?,
        ([Some((6, 3)), Some((2, 1)), None], true)
    );
    Ok(())
}

/// What a site without its index has, and has not; then a node of the site as it was.
fn left_and_kept(alloc: Global) -> Result<([Option<Size>; 3], Option<EditFault>), Fail> {
    let tree = site(alloc)?;
    let left = made(tree.delete(alloc, &path(alloc, "site/index")?))?;
    let about = size_at(alloc, &left, "site/about")?;
    let gone = "site/index/title";
    let fault = left.delete(alloc, &path(alloc, gone)?).err();
    let kept = size_at(alloc, &tree, gone)?;
    Ok(([Some(size(&left)), about, kept], fault))
}

#[test]
fn a_deleted_node_is_gone_with_all_below_it(rt: HostRuntime) -> Result<(), Fail> {
    assert_eq!(rt;
        left_and_kept(rt.alloc())?,
        (
            [Some((4, 2)), Some((1, 0)), Some((1, 0))],
            Some(EditFault::Absent)
        )
    );
    Ok(())
}

/// A site with itself in place of its index: its size, what is gone, and a text inside.
fn attached(alloc: Global) -> Result<(Size, Option<Size>, bool), Fail> {
    let tree = site(alloc)?;
    let whole = made(tree.attach(alloc, &path(alloc, "site/index")?, &tree))?;
    let gone = size_at(alloc, &whole, "site/index/title")?;
    let has_text = has_text(alloc, &whole, "site/index/site/index", "site/index")?;
    Ok((size(&whole), gone, has_text))
}

#[test]
fn an_attached_tree_stands_in_place_of_what_was_there(rt: HostRuntime) -> Result<(), Fail> {
    assert_eq!(rt; attached(rt.alloc())?, ((10, 5), None, true));
    Ok(())
}

/// Whether a site has these two names, in this order.
fn is_in_order(alloc: Global) -> Result<bool, Fail> {
    match site(alloc)?.names(alloc)?.names() {
        [first, second] => Ok(first.as_str() == "a" && second.as_str() == "site"),
        _ => Ok(false),
    }
}

#[test]
fn names_come_in_the_order_of_their_bytes(rt: HostRuntime) -> Result<(), Fail> {
    assert!(rt; is_in_order(rt.alloc())?);
    Ok(())
}
