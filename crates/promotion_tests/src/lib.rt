//! What no clause says of promotion, record_copying, local_records and cell_making: rows that were
//! worked out by hand, on the words of a heap and of a private heap, a heap that is full, and a
//! copy that ends early and goes on.
//!
//! Reading order: `heaps`, `shown`; `calls`, `promoting`, `rows`; `seats`, `cells`, `slices`,
//! `locals`, `part_rows`.
#![tactic(auto)]

#[cfg(test)]
mod calls;
#[cfg(test)]
mod cells;
#[cfg(test)]
mod heaps;
#[cfg(test)]
mod locals;
#[cfg(test)]
mod part_rows;
#[cfg(test)]
mod promoting;
#[cfg(test)]
mod rows;
#[cfg(test)]
mod seats;
#[cfg(test)]
mod shown;
#[cfg(test)]
mod slices;
