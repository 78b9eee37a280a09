//! Terms in the types of views and passes: values that contracts speak of and no code holds.
//!
//! What a term is stands in the definitions, as a data type of their own. A recursive enum of the
//! code would be seen there with its pointers, so that two equal terms would differ.
use std::marker::Model;

/// A term: null, a number, or the five terms of a record.
#[derive(Drop)]
pub struct Term;

impl Model for Term {
    ghost use Rattle.cell_words.specs.Term.{Term, null, term_code};

    ghost Value = { Term };

    ghost coded = { term_code };

    ghost view = { λ t. null };
}

/// A list of terms, as the five of a record.
#[derive(Drop)]
pub struct Terms;

impl Model for Terms {
    ghost use Rattle.std.specs.Coded.{coded_list};
    ghost use Rattle.std.specs.Prelude.{List, []};
    ghost use Rattle.cell_words.specs.Term.{Term, term_code};

    ghost Value = { List Term };

    ghost coded = { coded_list term_code };

    ghost view = { λ t. [] };
}
