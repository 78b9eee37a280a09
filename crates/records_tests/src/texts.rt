//! Texts and nodes on the pool in memory.
use crate::memory::MemoryPool;
use doc_records::{NoMemory, child, count, empty_node, height, names, text_of, with_text};
use doc_tree::{Name, Text};
use minor_heap::MinorField::{Minor, Null, Num};
use minor_heap::{MinorField, MinorRef};
use std::alloc::Global;
use std::test::Fail;

// A text of so many letters.
fn letters(alloc: Global, count: usize) -> Result<Option<Text>, NoMemory> {
    let mut bytes = Vec::new(alloc);
    for i in 0..count {
        bytes.push(b'a' + (i % 26) as u8)?;
    }
    Text::read(alloc, &bytes)
}

/// How many nodes an empty one is, whether it has no text, and how many records stand.
fn empty_text(alloc: Global) -> Result<(u64, bool, u32), NoMemory> {
    let mut pool = MemoryPool::with_room(alloc, 1)?;
    let node = empty_node(&mut pool);
    let nodes = count(&mut pool, node);
    let text = text_of(alloc, &mut pool, node)?;
    Ok((nodes, text.as_str() == "", pool.heap.len()))
}

#[test]
fn an_empty_node_has_no_text(rt: HostRuntime) -> Result<(), Fail> {
    assert_eq!(rt; empty_text(rt.alloc())?, (1, true, 1));
    Ok(())
}

/// The height of an empty node, and whether it has no children.
fn empty_names(alloc: Global) -> Result<(u32, bool), NoMemory> {
    let mut pool = MemoryPool::with_room(alloc, 1)?;
    let node = empty_node(&mut pool);
    let levels = height(&mut pool, node);
    let names = names(alloc, &mut pool, node)?;
    Ok((levels, names.names().is_empty()))
}

#[test]
fn an_empty_node_has_no_children(rt: HostRuntime) -> Result<(), Fail> {
    assert_eq!(rt; empty_names(rt.alloc())?, (0, true));
    Ok(())
}

/// Whether an empty node has no child of this name.
fn has_no_child(alloc: Global, name: &Name) -> Result<bool, NoMemory> {
    let mut pool = MemoryPool::with_room(alloc, 1)?;
    let node = empty_node(&mut pool);
    Ok(child(&mut pool, node, name).is_none())
}

fn has_no_child_a(alloc: Global) -> Result<Option<bool>, NoMemory> {
    match Name::read(alloc, b"a")? {
        Some(name) => Ok(Some(has_no_child(alloc, &name)?)),
        None => Ok(None),
    }
}

#[test]
fn an_empty_node_has_no_child_of_a_name(rt: HostRuntime) -> Result<(), Fail> {
    assert_eq!(rt; has_no_child_a(rt.alloc())?, Some(true));
    Ok(())
}

/// Of three records: the fields of the second, and the first field of the third.
fn fields(pool: &MemoryPool) -> Option<([MinorField; 5], MinorField)> {
    if pool.heap.len() != 3 {
        return None;
    }
    let cell = MinorRef { number: 1 };
    let node = MinorRef { number: 2 };
    let fields = [
        pool.heap.field(cell, 0),
        pool.heap.field(cell, 1),
        pool.heap.field(cell, 2),
        pool.heap.field(cell, 3),
        pool.heap.field(cell, 4),
    ];
    Some((fields, pool.heap.field(node, 0)))
}

/// What a node with a text shows: itself, the fields of its three records, whether its text is
/// found, and how many nodes it is.
#[derive(Clone, Copy, Debug, PartialEq, Eq)]
struct Shown {
    node: MinorRef,
    fields: Option<([MinorField; 5], MinorField)>,
    is_found: bool,
    nodes: u64,
}

fn shown_of(alloc: Global, text: &Text) -> Result<Shown, NoMemory> {
    let wanted = text.as_str();
    let mut pool = MemoryPool::with_room(alloc, 199)?;
    let empty = empty_node(&mut pool);
    let node = with_text(&mut pool, empty, text);
    let fields = fields(&pool);
    let nodes = count(&mut pool, node);
    let found = text_of(alloc, &mut pool, node)?;
    Ok(Shown {
        node,
        fields,
        is_found: found.as_str() == wanted,
        nodes,
    })
}

fn shown_of_hello(alloc: Global) -> Result<Option<Shown>, NoMemory> {
    match Text::read(alloc, b"hello")? {
        Some(hello) => Ok(Some(shown_of(alloc, &hello)?)),
        None => Ok(None),
    }
}

#[test]
fn the_cell_of_hello_has_these_fields(rt: HostRuntime) -> Result<(), Fail> {
    let cell = MinorRef { number: 1 };
    let fields = [Num(5), Num(478_560_413_032), Num(0), Num(0), Null];
    let wanted = Shown {
        node: MinorRef { number: 2 },
        fields: Some((fields, Minor(cell))),
        is_found: true,
        nodes: 1,
    };
    assert_eq!(rt; shown_of_hello(rt.alloc())?, Some(wanted));
    Ok(())
}

/// How many records a node with this text takes, whether the text comes back, and whether none does
/// when it is replaced by none.
fn come_back(alloc: Global, text: &Text) -> Result<(u32, bool, bool), NoMemory> {
    let wanted = text.as_str();
    let mut pool = MemoryPool::with_room(alloc, 199)?;
    let empty = empty_node(&mut pool);
    let node = with_text(&mut pool, empty, text);
    let records = pool.heap.len();
    let back = text_of(alloc, &mut pool, node)?;
    let shorter = with_text(&mut pool, node, &Text::empty());
    let none = text_of(alloc, &mut pool, shorter)?;
    Ok((records, back.as_str() == wanted, none.as_str() == ""))
}

fn letters_come_back(alloc: Global, length: usize) -> Result<Option<(u32, bool, bool)>, NoMemory> {
    match letters(alloc, length)? {
        Some(text) => Ok(Some(come_back(alloc, &text)?)),
        None => Ok(None),
    }
}

/// Lengths of texts, with the records that a node with such a text takes.
const LENGTHS: [(usize, u32); 12] = [
    (0, 2),
    (1, 3),
    (7, 3),
    (8, 3),
    (14, 3),
    (20, 3),
    (21, 3),
    (22, 4),
    (42, 4),
    (43, 5),
    (4095, 197),
    (4096, 198),
];

#[test]
fn texts_of_all_lengths_come_back(rt: HostRuntime) -> Result<(), Fail> {
    for (length, records) in &LENGTHS {
        assert_eq!(rt;
            letters_come_back(rt.alloc(), *length)?,
            Some((*records, true, true)),
            "length {length}"
        );
    }
    Ok(())
}
