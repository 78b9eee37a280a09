//! The operations of a `Mutator` as functions over the heap and the seat.
//!
//! They are for an owner of both that can keep no borrow of the heap, as a struct that has an `Arc`
//! of it alongside the seat. A `Mutator` borrows the heap for as long as it lives. Its methods, all
//! but the two claims, call the functions of the same names, and have the same clauses.
//!
//! Each function but `finish` needs, and leaves, what is the invariant of a `Mutator`: the seat is
//! one of this heap, no write is begun, and it is not over (`IsBound`). A seat that is out has
//! begun no write, which `is_in` tells.
//!
//! A claim is made of `look_once` and then `try_cell`, of one cell after another: a look serves all
//! of them. Who waits for a cell calls `handshake` between its tries. Waiting is of no more use
//! where `decides` says so, of the cycles that `begun` counted at the first look and of the last
//! look.

pub use crate::claiming::{begun, decides, handshake};
pub use crate::coming::{begin, cut, end, finish, is_same, keep};
pub use crate::looking::{answer, look_once};
pub use crate::making::{fill, read, seal_box, seal_record};
pub use crate::storing::store;
pub use crate::trying::try_cell;
pub use crate::writing::update;
