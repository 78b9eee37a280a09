//! Each call on its happy path, at a private place and then at a shared one.
ghost use Rattle.client_tests.specs.Works.{Works};

use crate::calls::{begin_tree, copy, names_at, put, remove, share, sizes, text_at};
use crate::heaps::{Row, worked};
use client_trees::NodeAt;
use doc_tree::EditFault;
use heap_rule::NoRule;
use minor_heap::MinorHeap;
use mutator_seat::Mutator;
use std::alloc::Global;
use std::sync::Wait;
use std::test::Fail;

/// The text at a path is this.
fn reads(
    alloc: Global,
    m: &mut Mutator<'_, NoRule>,
    minor: &mut MinorHeap,
    root: NodeAt,
    at: &str,
    letters: &str,
) -> Result<bool, EditFault>
    requires works { Works m.old minor.old root }
    ensures works { Works m.new minor.new root }
{
    let found = text_at(alloc, m, minor, root, at)?;
    Ok(found.as_str() == letters)
}

/// Below a path there are these two names and no others.
fn lists(
    alloc: Global,
    m: &mut Mutator<'_, NoRule>,
    minor: &mut MinorHeap,
    root: NodeAt,
    at: &str,
    two: (&str, &str),
) -> Result<bool, EditFault>
    requires works { Works m.old minor.old root }
    ensures works { Works m.new minor.new root }
{
    let found = names_at(alloc, m, minor, root, at)?;
    match found.names() {
        [first, second] => Ok(first.as_str() == two.0 && second.as_str() == two.1),
        _ => Ok(false),
    }
}

/// What stands of a tree with hello at a, x at a/b and y at a/c.
#[derive(Clone, Copy, Debug, PartialEq, Eq)]
struct Seen {
    hello: bool,
    names: bool,
    missing: bool,
    sizes: (u64, u32),
}

/// All of it stands.
const ALL: Seen = Seen {
    hello: true,
    names: true,
    missing: true,
    sizes: (4, 2),
};

/// Each reading of that tree.
fn see(
    alloc: Global,
    m: &mut Mutator<'_, NoRule>,
    minor: &mut MinorHeap,
    root: NodeAt,
) -> Result<Seen, EditFault>
    requires works { Works m.old minor.old root }
    ensures works { Works m.new minor.new root }
{
    let hello = reads(alloc, m, minor, root, "a", "hello")?;
    let names = lists(alloc, m, minor, root, "a", ("b", "c"))?;
    let missing = reads(alloc, m, minor, root, "a/d", "") == Err(EditFault::Absent);
    let sizes = sizes(m, minor, root);
    Ok(Seen {
        hello,
        names,
        missing,
        sizes,
    })
}

/// Makes that tree from the empty one, by an edit of each kind.
fn make(
    alloc: Global,
    m: &mut Mutator<'_, NoRule>,
    minor: &mut MinorHeap,
    root: &mut NodeAt,
) -> Result<(), EditFault>
    requires works { Works m.old minor.old root.old }
    ensures works { Works m.new minor.new root.new }
{
    put(alloc, m, minor, root, "z/c", "y")?;
    copy(alloc, m, minor, root, "z", "a")?;
    put(alloc, m, minor, root, "a/b", "x")?;
    put(alloc, m, minor, root, "a", "hello")?;
    remove(alloc, m, minor, root, "z")
}

/// What is seen of a private tree, of its copy in the shared heap, and of an edit of that.
#[derive(Clone, Copy)]
struct SeeThree;

impl Row for SeeThree {
    type Found = [Seen; 3];

    fn work<R: Wait>(
        self,
        alloc: Global,
        rt: &R,
        m: &mut Mutator<'_, NoRule>,
        minor: &mut MinorHeap,
    ) -> Result<[Seen; 3], EditFault> {
        let mut root = begin_tree(m, minor);
        make(alloc, m, minor, &mut root)?;
        let private = see(alloc, m, minor, root)?;
        share(alloc, rt, m, minor, &mut root)?;
        let shared = see(alloc, m, minor, root)?;
        make(alloc, m, minor, &mut root)?;
        let edited = see(alloc, m, minor, root)?;
        Ok([private, shared, edited])
    }
}

#[test]
fn a_tree_is_read_and_edited_at_private_and_shared_places(rt: HostRuntime) -> Result<(), Fail> {
    let seen = worked(rt.alloc(), &rt, SeeThree, 3000)?;
    assert_eq!(rt; seen, [ALL, ALL, ALL]);
    Ok(())
}
