//! What an edit makes, worked out by hand.
ghost use Rattle.client_tests.specs.Works.{Works};

use crate::calls::{begin_tree, put, share};
use crate::heaps::{Row, worked};
use client_trees::NodeAt;
use doc_tree::EditFault;
use heap_rule::NoRule;
use minor_heap::MinorField::{Null, Num};
use minor_heap::{MinorField, MinorHeap, MinorRef};
use mutator_seat::Mutator;
use std::alloc::Global;
use std::sync::Wait;
use std::test::Fail;

/// Puts x at d/000 to d/255.
fn fill_folder(
    alloc: Global,
    m: &mut Mutator<'_, NoRule>,
    minor: &mut MinorHeap,
    root: &mut NodeAt,
) -> Result<(), EditFault>
    requires works { Works m.old minor.old root.old }
    ensures works { Works m.new minor.new root.new }
{
    for i in 0u32..256 {
        put(
            alloc,
            m,
            minor,
            root,
            format!(in alloc; "d/{i:03}")?.as_str(),
            "x",
        )?;
    }
    Ok(())
}

/// How many records a put into a shared folder of 256 children makes.
#[derive(Clone, Copy)]
struct PutIntoShared;

impl Row for PutIntoShared {
    type Found = u32;

    fn work<R: Wait>(
        self,
        alloc: Global,
        rt: &R,
        m: &mut Mutator<'_, NoRule>,
        minor: &mut MinorHeap,
    ) -> Result<u32, EditFault> {
        let mut root = begin_tree(m, minor);
        fill_folder(alloc, m, minor, &mut root)?;
        share(alloc, rt, m, minor, &mut root)?;
        put(alloc, m, minor, &mut root, "d/000", "y")?;
        Ok(minor.len())
    }
}

// The path to the entry of 000 has eight entries, and there are two nodes, an entry of d, and the
// new node with its text.
#[test]
fn a_put_into_a_shared_folder_makes_thirteen_records(rt: HostRuntime) -> Result<(), Fail> {
    let made = worked(rt.alloc(), &rt, PutIntoShared, 10_000)?;
    assert_eq!(rt; made, 13);
    Ok(())
}

/// The fields of a private record, if it stands.
fn fields_of(minor: &MinorHeap, number: u32) -> Option<[MinorField; 5]> {
    if number >= minor.len() {
        return None;
    }
    let r = MinorRef { number };
    Some([
        minor.field(r, 0),
        minor.field(r, 1),
        minor.field(r, 2),
        minor.field(r, 3),
        minor.field(r, 4),
    ])
}

/// The record of the text hello at a, which is made first after the empty tree.
#[derive(Clone, Copy)]
struct RecordOfHello;

impl Row for RecordOfHello {
    type Found = Option<[MinorField; 5]>;

    fn work<R: Wait>(
        self,
        alloc: Global,
        rt: &R,
        m: &mut Mutator<'_, NoRule>,
        minor: &mut MinorHeap,
    ) -> Result<Option<[MinorField; 5]>, EditFault> {
        let mut root = begin_tree(m, minor);
        put(alloc, m, minor, &mut root, "a", "hello")?;
        Ok(fields_of(minor, 1))
    }
}

#[test]
fn the_record_of_hello_has_these_fields(rt: HostRuntime) -> Result<(), Fail> {
    let found = worked(rt.alloc(), &rt, RecordOfHello, 3000)?;
    let fields = [Num(5), Num(478_560_413_032), Num(0), Num(0), Null];
    assert_eq!(rt; found, Some(fields));
    Ok(())
}
