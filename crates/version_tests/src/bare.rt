ghost use Rattle.cell_words.specs.Term.{IsFive};
ghost use Rattle.doc_tree.specs.Tree.{empty};
ghost use Rattle.std.specs.Prelude.{refl};

use version_rule::{Spelling, Versions};

/// A spelling for tests: whatever its fields are, a record spells the empty tree.
#[derive(Drop)]
pub(crate) struct Bare;

impl Spelling for Bare {
    ghost is_tree = { IsFive };

    ghost tree_of = { λ t. empty };

    ghost is_record = { λ t is. is };

    ghost bare = { tt };

    ghost bare_is = { refl };
}

pub(crate) type Store = Versions<Bare>;
