//! The dumps of small stores.
use doc_tree::Path;
use dump_text::{LoadError, load};
use std::alloc::Global;
use std::test::Fail;

/// The dump of version 2 of a store after `put a x` and `put a/b y`.
const SMALL: &str = "docs-dump 1 2\n. \"\"\na \"x\"\na/b \"y\"\nend 3\n";

/// A dump with a text at the root, with escapes, with a node whose name is `end`, and in the order
/// of lists of names.
const EVERY: &str =
    "docs-dump 1 1000000\n. \"\\n\"\na \"\\\"\\\\\"\na/b \"\\t\"\na- \"\"\nend \"5\"\n\
    end 5\n";

/// The number, the nodes and the height of what was loaded.
fn sizes_of(alloc: Global, dump: &str) -> Result<(u64, u64, u32), LoadError> {
    let loaded = load(alloc, dump.as_bytes())?;
    Ok((loaded.version, loaded.tree.count(), loaded.tree.height()))
}

/// Whether the node at the path has this text, in what was loaded.
fn has_text(alloc: Global, dump: &str, path: &str, text: &str) -> Result<bool, LoadError> {
    let loaded = load(alloc, dump.as_bytes())?;
    let Some(path) = Path::read(alloc, path.as_bytes())? else {
        return Ok(false);
    };
    Ok(match loaded.tree.node(&path) {
        Some(node) => node.text().as_str() == text,
        None => false,
    })
}

fn has_root_text(alloc: Global, dump: &str, text: &str) -> Result<bool, LoadError> {
    let loaded = load(alloc, dump.as_bytes())?;
    Ok(loaded.tree.text().as_str() == text)
}

/// Dumps with the text of one of their nodes.
const TEXTS: [(&str, &str, &str); 6] = [
    (SMALL, "a", "x"),
    (SMALL, "a/b", "y"),
    (EVERY, "a", "\"\\"),
    (EVERY, "a/b", "\t"),
    (EVERY, "a-", ""),
    (EVERY, "end", "5"),
];

/// The first path that has another text.
fn first_other_text(alloc: Global) -> Result<Option<&'static str>, LoadError> {
    for (dump, path, text) in &TEXTS {
        if !has_text(alloc, dump, path, text)? {
            return Ok(Some(*path));
        }
    }
    Ok(None)
}

#[test]
fn a_dump_is_loaded(rt: HostRuntime) -> Result<(), Fail> {
    assert_eq!(rt; sizes_of(rt.alloc(), SMALL)?, (2, 3, 2));
    assert_eq!(rt; sizes_of(rt.alloc(), EVERY)?, (1_000_000, 5, 2));
    Ok(())
}

#[test]
fn every_text_is_loaded(rt: HostRuntime) -> Result<(), Fail> {
    assert_eq!(rt; first_other_text(rt.alloc())?, None);
    assert!(rt; has_root_text(rt.alloc(), EVERY, "\n")?);
    Ok(())
}
