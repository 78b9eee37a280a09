//! Lines of plain text: where they end, their words, the decimal numbers among these, and how
//! colours and fields of cells are written.
//!
//! Scripts and schedules are written in such lines. The layer above may rely on each call being its
//! definition in specs/; which words a line has to have, and what is at fault in one that has
//! others, is left to it. Each colour and each field has one text, and only this is read as it: a
//! number has no zeros before it.
//!
//! Reading order: `lines`, `line`, `cut`, `numbers`; `colours`, `cell_numbers`, `fields`.
#![tactic(auto)]

mod cell_numbers;
mod colours;
mod cut;
mod fields;
mod line;
mod lines;
mod numbers;

pub use crate::cell_numbers::read_number;
pub use crate::colours::{colour_text, read_colour};
pub use crate::cut::{after_space, first_word, next_rest, next_word};
pub use crate::fields::{read_field, with_field};
pub use crate::line::{counts, is_plain, without_return};
pub use crate::lines::{cut_line, is_end, is_missing};
pub use crate::numbers::{read_decimal, read_digits};
