//! A small embedding of the heap with boxes that name boxes: four threads append to one log,
//! alongside the collector on a thread of its own. What example_counter shows is not repeated here.
//!
//! The log is a chain of boxes. The anchor names the newest entry, and each entry the one before
//! it, down to the box that the log opened with. To append an entry, a thread reads which entry is
//! the newest and what number it has, makes a fresh box that names it, and exchanges the entry that
//! the anchor names. Where another thread was faster the box is garbage, and the next try makes
//! another. The rule of the client, `log`, says which entries of the chain are each mutator's. From
//! the passes at the close it is proved that the chain in the closed heap has what the threads
//! count on their own.
//!
//! Reading order: `log`, specs/Logging, Shrinks, `appending`, specs/Appending, `running`,
//! specs/Leaving, `opening`, `whole`, `main`.
#![tactic(auto)]

mod appending;
mod log;
mod opening;
mod running;
mod whole;

use std::io;

/// How many threads append.
const THREADS: u32 = 4;

fn main(rt: HostRuntime) -> io::Result<()> {
    match whole::run(rt.alloc(), &rt, THREADS) {
        Ok(ran) => {
            let same = ran.boxes == ran.sum + 1;
            let some = ran.sum > 0;
            let alone = ran.used == ran.sum + 2;
            println!(rt; "the log has what {THREADS} threads appended: {same}, some: {some}")?;
            println!(rt; "no other cell is used: {alone}")
        }
        Err(_) => println!(rt; "there is no memory"),
    }
}
