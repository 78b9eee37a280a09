ghost use Rattle.version_rule.specs.Shrinks.{shrinks as is_kept};
ghost use Rattle.version_rule.specs.Pass.{opening_pass};
ghost use Rattle.version_rule.specs.Versions.{HoldsVersions, is_fixed};

use crate::spelling::Spelling;
use heap_rule::Keeping;
use std::marker::{Model, PhantomData};

/// The rule of versions, over a spelling of trees. As a pass it shows what one mutator made of
/// versions and knows of them; no code makes a value of it.
#[derive(Drop)]
pub struct Versions<S: Spelling> {
    spelling: PhantomData<S>,
}

impl<S: Spelling> Model for Versions<S> {
    ghost use Rattle.version_rule.specs.Pass.{Pass, opening_pass, pass_code};

    ghost Value = { Pass };

    ghost coded = { pass_code };

    ghost view = { λ v. opening_pass 0 0 };
}

impl<S: Spelling> Keeping for Versions<S> {
    ghost opening = { opening_pass };

    ghost holds = { HoldsVersions S.is_tree S.tree_of };

    ghost fixed = { is_fixed };

    ghost shrinks = { is_kept S.is_tree S.tree_of };
}
