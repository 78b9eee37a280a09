//! In which blocks of cells free ones may be, for threads that share the answer without a lock.
//!
//! Cells fall into blocks of 512. A block has one word, with how many of its cells are thought
//! free and not asked for yet, and how many were ever noted as freed there. Whoever frees a cell
//! notes it; whoever wants one asks for a block, which takes one off its number, and tries the
//! cells of that block. A cell that was freed later than noted, or claimed by somebody who did not
//! ask, leaves a number too large: then all cells of the block are tried for nothing, and who did
//! that says so. Nothing rests on a number but time: only a claim gets a cell.
//!
//! No number is too small for long, for a free cell that no number counts would be lost. So who
//! asks takes his cell off first, and `found_none` sets a number to 0 only if no cell of the block
//! was noted as freed since he asked. Whoever is given a block therefore claims a cell of it, or
//! tries all of them and says that he found none. That is argued here, and in no clause: contracts
//! know what a step makes of a word, and nothing of what a word holds.
//!
//! One more word counts the blocks whose number is not 0, so that who finds none does not walk over
//! all blocks while others wait for their words.
//!
//! Reading order: `counts`, `steps`, `blocks`, `opening`, `calls`.
#![tactic(auto)]

mod blocks;
mod calls;
mod counts;
mod opening;
mod steps;

pub use blocks::FreeBlocks;
pub use counts::Seen;
pub use opening::{Span, block_of};
pub use std::alloc::AllocError as NoMemory;
