//! A small embedding of the heap that shows how a root outlives a call that blocks. `end` drops
//! every root of a mutator, so before the call a record is stored in a box that the anchor names.
//! After the call the mutator begins again, and reads the box.
//!
//! There are two mutators, and the collector on a thread of its own. The first mutator makes a
//! record of a number, keeps it, and makes a call that blocks: the second mutator makes many more
//! records than there are cells, so that its claims wait until the collector has freed some. If the
//! first mutator were still in, they would wait for ever. It is proved that the first mutator reads
//! after the call the number that it kept. How a heap opens, runs and closes under any rule is told
//! in mutator_threads.
//!
//! Reading order: `kept`, specs/Rule, specs/Holding, `places`, `storing`, `wasting`,
//! specs/ReadBack, specs/Working, `working`, specs/Leaving, `opening`, `whole`, `main`.
#![tactic(auto)]

mod kept;
mod opening;
mod places;
mod storing;
mod wasting;
mod whole;
mod working;

use std::io;

fn main(rt: HostRuntime) -> io::Result<()> {
    match whole::run(rt.alloc(), &rt) {
        Ok(ran) => {
            let same = ran.found == Some(whole::NUMBER);
            let more = ran.made > whole::CELLS as u64;
            println!(rt; "after the call it reads the number that it kept: {same}")?;
            println!(rt; "meanwhile more records were made than there are cells: {more}")
        }
        Err(_) => println!(rt; "there is no memory"),
    }
}
