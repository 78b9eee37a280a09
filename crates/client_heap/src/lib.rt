//! The heap of one client, as its session works on it: a mutator with the versions and trees that
//! it holds, a private heap, and the draft.
//!
//! The layer above may rely on this: `OwnHeap` is a `ClientHeap`, so all that is proved of a
//! session holds over it. No call changes which mutator it is, which queue its hints are from, or
//! how much room there is. Between commands the first places of the held list stay, which are the
//! anchor's and those that the draft needs; and of the private records those up to the draft's own.
//! A draft that a minor collection moved stands on two places, and one that aged on those on which
//! it stood. What has aged once is collected when room is needed again.
//!
//! Reading order: specs/Shows, Carries, Sound, Shared, Ages, Lent; then `places`, `walking`,
//! `collecting`, `ageing`, `cutting`, `drafting`, `making`, `publishing`, `seat`, `mutator`,
//! `heap`.
#![tactic(auto)]

mod ageing;
mod collecting;
mod cutting;
mod drafting;
mod heap;
mod making;
mod mutator;
mod places;
mod publishing;
mod seat;
mod walking;

pub use heap::OwnHeap;
pub use seat::StoreSeat;
