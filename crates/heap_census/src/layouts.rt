//! Roles of cells, and the layouts that they ask for.
ghost use Rattle.heap_census.specs.Layouts.{fits, layout_of, named_by};
ghost use Rattle.std.specs.Prelude.{◌≡◌};

use cell_words::Field;

/// What a cell is for in a store's heap.
#[derive(Clone, Copy, Debug, PartialEq, Eq)]
pub enum Role {
    /// cell 0, which names the latest version
    Anchor,
    /// a version's number, its root, and the version before it
    Version,
    /// a node's text, its topmost entry, its count and height
    Node,
    /// a child's name, the child, the entries left and right of it, and their height
    Entry,
    /// how many bytes there are, three words of them, and the rest of the text
    Text,
}

/// What a layout has in a field.
#[derive(Clone, Copy)]
pub(crate) enum Part {
    Null,
    Number,
    /// the kind of a record
    Record,
    /// the kind of a box
    Boxed,
    /// a cell, which gets this role
    Names(Role),
    /// null, or a cell, which gets this role
    MayName(Role),
}

/// The parts of a role's layout, in the order of the fields.
pub(crate) fn layout(role: Role) -> [Part; 6]
    ensures { result ≡ layout_of role }
{
    match role {
        Role::Anchor => [
            Part::Names(Role::Version),
            Part::Null,
            Part::Null,
            Part::Null,
            Part::Null,
            Part::Boxed,
        ],
        Role::Version => [
            Part::Number,
            Part::Names(Role::Node),
            Part::MayName(Role::Version),
            Part::Null,
            Part::Null,
            Part::Boxed,
        ],
        Role::Node => [
            Part::MayName(Role::Text),
            Part::MayName(Role::Entry),
            Part::Number,
            Part::Number,
            Part::Null,
            Part::Record,
        ],
        Role::Entry => [
            Part::Names(Role::Text),
            Part::Names(Role::Node),
            Part::MayName(Role::Entry),
            Part::MayName(Role::Entry),
            Part::Number,
            Part::Record,
        ],
        Role::Text => [
            Part::Number,
            Part::Number,
            Part::Number,
            Part::Number,
            Part::MayName(Role::Text),
            Part::Record,
        ],
    }
}

/// The role that a cell gets which stands there.
pub(crate) fn named_by(part: Part) -> Option<Role>
    ensures { result ≡ named_by part }
{
    match part {
        Part::Names(role) | Part::MayName(role) => Some(role),
        _ => None,
    }
}

/// Whether the field is one that may stand there.
pub(crate) fn fits(part: Part, field: Field) -> bool
    ensures { result ≡ fits part field }
{
    match (part, field) {
        (Part::Null, Field::Null) => true,
        (Part::Number, Field::Num(_)) => true,
        (Part::Record, Field::Num(kind)) => kind == 1,
        (Part::Boxed, Field::Num(kind)) => kind == 2,
        (Part::Names(_), Field::Cell(_)) => true,
        (Part::MayName(_), Field::Null) => true,
        (Part::MayName(_), Field::Cell(_)) => true,
        _ => false,
    }
}
