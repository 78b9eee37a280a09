//! A census of a closed heap, and the heap as text.
//!
//! The roles of the cells go from the anchor by fields, as the layouts of a store's cells have it.
//! The layer above may rely on each number of a census being the one of its definition, on a heap
//! being refused only where a cell with a role is free or has not its layout, and on the text being
//! the one of the heap's definition.
//!
//! Reading order: `numbers`, `layouts`, `reading`, `flags`, `searching`, `finding`, `checking`,
//! `flaws`, `naming`, `counting`, `taking`, `writing`, `images`.
#![tactic(auto)]

mod checking;
mod counting;
mod finding;
mod flags;
mod flaws;
pub mod images;
mod layouts;
mod naming;
mod numbers;
mod reading;
mod searching;
mod taking;
mod writing;

pub use crate::flaws::{Flaw, Flawed};
pub use crate::layouts::Role;
pub use crate::numbers::Census;
pub use crate::reading::Cells;
pub use crate::taking::{Checked, census_of, check_cells};
pub use crate::writing::text_of;
pub use heap_table::NoMemory;
