//! A small embedding of the heap without a rule: four threads push nodes at the head of one list,
//! concurrently with the collector, which has a thread of its own.
//!
//! The anchor names the newest node. A node is a box that names a record, which says whose it is,
//! and the next older node. To push one, a thread reads which node is the newest, makes a record
//! and a node that names both, and exchanges what the anchor names. Where another thread was
//! faster, what it made is garbage.
//!
//! `NoRule` says nothing of what boxes mean, so nothing of that has to be proved. The contracts
//! have the plain conditions of the calls: which places are held, and that a cell which is written
//! is known to be sealed. That no reachable cell is ever free is proved all the same, once for
//! every program. That the list has all that was pushed is not proved: `main` checks it.
//!
//! Reading order: `pushing`, specs/Pushing, `listing`, specs/Leaving, `whole`, `main`.
#![tactic(auto)]

mod listing;
mod pushing;
mod whole;

use std::io;

/// How many threads push.
const THREADS: u32 = 4;

fn main(rt: HostRuntime) -> io::Result<()> {
    match whole::run(rt.alloc(), &rt, THREADS) {
        Ok(ran) => {
            let whole = listing::has_all(&ran.image, &ran.pushed);
            let nodes = listing::count_nodes(&ran.image);
            let some = nodes > 0;
            let alone = listing::count_used(&ran.image) == 2 * nodes + 1;
            println!(rt;
                "the list has what each of {THREADS} threads pushed: {whole}, some: {some}"
            )?;
            println!(rt; "no other cell is used: {alone}")
        }
        Err(_) => println!(rt; "there is no memory"),
    }
}
