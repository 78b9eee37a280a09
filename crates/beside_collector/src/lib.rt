//! Work on a heap, and the collector alongside it on a thread of its own.
//!
//! The layer above may rely on this: when `run_beside` returns, the work is done. The seat of the
//! collector has served once, or it went off duty and serves in `serve_after`; after that it is off
//! duty. Where the mutators' seats are joined before, that service finds each mutator over.
//! `run_counting` also tells how many cells were freed meanwhile. No clause says that anything runs
//! concurrently.
//!
//! The caller decides what the work is, and by what rule the heap's boxes are kept: `Work` says
//! under which facts it may begin, and what holds when it is done. What the thread of a mutator
//! does under any rule stands here too: `come_in` before its work and `leave` after it, and `pause`
//! and `wake` between two parts of it. `script_at` gives its script.
//!
//! Reading order: specs/Duty, `duty`; `keeper`, specs/Freed, specs/Serving, `serving`; `work`,
//! `beside`; specs/Coming, `coming`; specs/Scripts, `script`; specs/Places, Splitting, Service.
#![tactic(auto)]

mod beside;
mod coming;
mod duty;
mod keeper;
mod script;
mod serving;
mod work;

pub use beside::{run_beside, run_counting};
pub use coming::{come_in, leave, pause, wake};
pub use duty::begin_duty;
pub use keeper::{Keeper, Standby};
pub use script::script_at;
pub use serving::serve_after;
pub use work::{Doing, Work};
