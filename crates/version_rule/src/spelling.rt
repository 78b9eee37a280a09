ghost use Rattle.cell_words.specs.Term.{Term, IsFive};
ghost use Rattle.doc_tree.specs.Tree.{DocTree, empty};
ghost use Rattle.std.specs.Prelude.{◌≡◌};
ghost use Rattle.version_rule.specs.Spelling.{bare_root};

/// How records spell trees: functions and no relation, since a step tells the term that was read,
/// and a pass has its tree. The rule of versions takes it as it is, and so stands below the records
/// of trees and knows no layout of theirs. No code makes a value of such a type.
pub trait Spelling {
    // the terms that spell a tree
    ghost is_tree: { Term → Type 0 };

    // the tree that such a term spells
    ghost tree_of: { Term → DocTree };

    // such a term is that of a record
    ghost is_record: { (t : Term) → is_tree t → IsFive t };

    // a node without text and without children is the root of the empty tree
    ghost bare: { is_tree bare_root };

    ghost bare_is: { tree_of bare_root ≡ empty };
}
