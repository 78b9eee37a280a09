//! Down a tree: the lines of a node, then those of its children.
ghost use Rattle.std.specs.Prelude.{◌≡◌, ◌+◌, ◌++◌, ◌≤◌, MatchOption, OnOk, length, true};
ghost use Rattle.std.specs.Option.{ForSome, option_map};
ghost use Rattle.client_trees.specs.declared.at.NodeAt.TheVariants as at;
ghost use Rattle.client_trees.specs.Nodes.{IsTreeAt, tree_at};
ghost use Rattle.doc_tree.specs.Tree.{child as child_of_name, count, height};
ghost use Rattle.doc_export.specs.Lines.{line_of, tree_lines};
ghost use Rattle.doc_export.specs.Looks.{looks};
ghost use Rattle.doc_export.specs.Still.{Stays};
ghost use Rattle.version_store.specs.Lasts.{marks};

use crate::lines::{path_behind, push_line, with_slash};
use client_history::{CALL_PLACES, Documents};
use client_trees::{NodeAt, child, names, text_of};
use doc_tree::{Name, NoMemory};
use minor_heap::MinorHeap;
use mutator_seat::Mutator;
use std::alloc::Global;

/// Adds the lines of the tree at a place: of its root, which has this path, and of all below it,
/// where `before` stands before the names of its children.
pub(crate) fn add_tree(
    alloc: Global,
    m: &mut Mutator<'_, Documents>,
    minor: &mut MinorHeap,
    place: usize,
    path: &[u8],
    before: &[u8],
    out: &mut Vec<u8>,
) -> Result<(), NoMemory>
    requires inside { m.old.seat.me.presence.inside ≡ true }
    requires node { IsTreeAt m.old minor.old (at.Shared place) }
    requires room { length m.old.seat.me.own.held
        + (CALL_PLACES + height (tree_at m.old minor.old (at.Shared place))) ≤ m.old.seat.me.room }
    ensures lines { OnOk result (out.new.items ≡ out.old.items
        ++ tree_lines path.now before.now (tree_at m.old minor.old (at.Shared place))) }
    ensures looked { OnOk result (looks (marks m.old)
        + count (tree_at m.old minor.old (at.Shared place)) ≤ looks (marks m.new)) }
    ensures keeps { Stays (length m.old.seat.me.own.held) m.old m.new }
    ensures held { length m.new.seat.me.own.held ≡ length m.old.seat.me.own.held }
    ensures minor { minor.new ≡ minor.old }
{
    add_node(alloc, m, minor, place, path, out)?;
    let names = names(alloc, m, minor, NodeAt::Shared(place))?;
    for name in names.names() {
        let path = path_behind(alloc, before, name)?;
        let below = with_slash(alloc, &path)?;
        let places = m.held_len();
        match child_place(m, minor, place, name) {
            Some(child) => {
                let added = add_tree(alloc, m, minor, child, &path, &below, out);
                m.cut(places);
                added?;
            }
            None => (),
        }
    }
    Ok(())
}

/// Adds the line of the node at a place, and answers a handshake if one is asked for.
fn add_node(
    alloc: Global,
    m: &mut Mutator<'_, Documents>,
    minor: &mut MinorHeap,
    place: usize,
    path: &[u8],
    out: &mut Vec<u8>,
) -> Result<(), NoMemory>
    requires inside { m.old.seat.me.presence.inside ≡ true }
    requires node { IsTreeAt m.old minor.old (at.Shared place) }
    requires room { length m.old.seat.me.own.held + CALL_PLACES ≤ m.old.seat.me.room }
    ensures line { OnOk result (out.new.items ≡ out.old.items
        ++ line_of path.now (tree_at m.old minor.old (at.Shared place)).text) }
    ensures looked { OnOk result (looks (marks m.old) + 1 ≤ looks (marks m.new)) }
    ensures keeps { Stays (length m.old.seat.me.own.held) m.old m.new }
    ensures held { length m.new.seat.me.own.held ≡ length m.old.seat.me.own.held }
    ensures minor { minor.new ≡ minor.old }
{
    let text = text_of(alloc, m, minor, NodeAt::Shared(place))?;
    let _answered = m.answer();
    push_line(alloc, out, path, &text)
}

/// The place of a child, after all others.
fn child_place(
    m: &mut Mutator<'_, Documents>,
    minor: &mut MinorHeap,
    place: usize,
    name: &Name,
) -> Option<usize>
    requires inside { m.old.seat.me.presence.inside ≡ true }
    requires node { IsTreeAt m.old minor.old (at.Shared place) }
    requires room { length m.old.seat.me.own.held + CALL_PLACES ≤ m.old.seat.me.room }
    ensures child { option_map (λ p. tree_at m.new minor.new (at.Shared p)) result
        ≡ child_of_name name.now (tree_at m.old minor.old (at.Shared place)).kids }
    ensures node { ForSome result (λ p. IsTreeAt m.new minor.new (at.Shared p)) }
    ensures keeps { Stays (length m.old.seat.me.own.held) m.old m.new }
    ensures held { MatchOption result
        (length m.new.seat.me.own.held ≡ length m.old.seat.me.own.held)
        (λ p. length m.new.seat.me.own.held ≡ length m.old.seat.me.own.held + 1) }
    ensures minor { minor.new ≡ minor.old }
{
    match child(m, minor, NodeAt::Shared(place), name) {
        Some(NodeAt::Shared(below)) => Some(below),
        Some(NodeAt::Minor(_)) => unreachable!(),
        None => None,
    }
}
