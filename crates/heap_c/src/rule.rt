//! The rule of the boxes of C.
use sorted_rule::Sorting;

/// What boxes mean to C: each field names boxes or records, by its number.
pub type Rule = Sorting;
