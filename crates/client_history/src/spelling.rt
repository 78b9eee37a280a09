use version_rule::{Spelling, Versions};

/// Trees as records: a root is the node of a lawful tree.
#[derive(Drop)]
pub struct InRecords;

impl Spelling for InRecords {
    ghost use Rattle.doc_records.specs.Trees.{IsTreeNode, tree_of};
    ghost use Rattle.client_history.specs.Spelled.{bare_is_empty, bare_is_node, node_is_record};

    ghost is_tree = { IsTreeNode };

    ghost tree_of = { tree_of };

    ghost is_record = { node_is_record };

    ghost bare = { bare_is_node };

    ghost bare_is = { bare_is_empty };
}

/// The rule of versions whose trees are records.
pub type Documents = Versions<InRecords>;
