//! What is so of all trees, as laws that need no code.
ghost use Rattle.doc_tree.specs.Grafts.{AttachIsAlong, DeleteIsAlong, NodeAgrees, SetTextIsAlong};
ghost use Rattle.doc_tree.specs.Lawful.{AttachIsLawful, DeleteIsLawful, IsLawful, NodeIsLawful};
ghost use Rattle.doc_tree.specs.Lawful.{SetTextIsLawful, SetTextIsShallow};
ghost use Rattle.doc_tree.specs.Tree.{empty};

/// The empty tree is lawful, and so is what an edit that is not refused makes of lawful trees, and
/// the tree of each node of one.
pub fn edits_keep_trees_lawful()
    ensures opens { IsLawful empty }
    ensures node { NodeIsLawful }
    ensures set_text { SetTextIsLawful }
    ensures attach { AttachIsLawful }
    ensures delete { DeleteIsLawful }
{}

/// A text at the end of a path makes no tree of at most 8 levels higher than 8: the path has no
/// more names.
pub fn set_text_is_never_too_deep()
    ensures shallow { SetTextIsShallow }
{}

/// An edit of one tree carries over to another where both have the same child, or none, at the
/// first name of its path. Take the child that the edit made there, and attach it to the other tree
/// at that name: unless this is refused, it gives what the edit gives of the other tree. Of a
/// deletion this is said below that child alone. And each node whose path begins by that name is
/// the same in both trees.
pub fn an_edit_carries_over()
    ensures set_text { SetTextIsAlong }
    ensures attach { AttachIsAlong }
    ensures delete { DeleteIsAlong }
    ensures node { NodeAgrees }
{}
