//! A small embedding of the heap: eight threads add to one counter, alongside the collector on a
//! thread of its own. There are far fewer cells than the records that they make.
//!
//! The counter is a record that the anchor names. To add one, a thread makes a record of the next
//! number in its private heap, promotes it, and exchanges the record that the anchor names. The
//! rule of the client, `counter`, says that the counter is the sum of what the mutators have added.
//! From the passes at the close it is proved that this is what the threads count on their own, for
//! any number of them.
//!
//! What is the same under any rule is in mutator_threads: how a heap opens with a mutator for each
//! thread, how these run alongside the collector, and how the heap closes.
//!
//! Reading order: `counter`, specs/Counting, `adding`, specs/Adding, `running`, specs/Leaving,
//! `opening`, `whole`, `main`.
#![tactic(auto)]

mod adding;
mod counter;
mod opening;
mod running;
mod whole;

use std::io;

/// How many threads add.
const THREADS: u32 = 8;

fn main(rt: HostRuntime) -> io::Result<()> {
    match whole::run(rt.alloc(), &rt, THREADS) {
        Ok(ran) => {
            let same = ran.counter == Some(ran.sum);
            let some = ran.sum > 0;
            let freed = ran.freed > 0;
            println!(rt; "the counter is what {THREADS} threads added: {same}, some: {some}")?;
            println!(rt; "cells were freed: {freed}")
        }
        Err(_) => println!(rt; "there is no memory"),
    }
}
