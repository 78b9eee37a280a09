//! The smallest heap: with a collector that makes no cycle or one, and with a client that is held
//! while another goes on.
ghost use Rattle.std.specs.Prelude.{◌≤◌};

use crate::counting::run_of;
use crate::gates::LastGate;
use crate::scripts::repeated;
use cell_words::GREATEST_CYCLES;
use doc_model::{Entry, Totals, is_legal, merge};
use outside::{Gate, OpenGate};
use run_limits::MOST_COMMANDS;
use std::alloc::Global;
use std::sync::Wait;
use std::test::Fail;
use std::thread::Threads;

/// Whether some reply says that the heap was full.
fn has_full(entries: &[Entry]) -> bool {
    entries.iter().any(|entry| entry.reply.is_full())
}

/// Whether the totals agree: what was claimed is used or was freed, and all cells are counted.
/// Where a client found the heap full, all cells except the first three were claimed.
fn agree(totals: Totals, full: bool) -> bool {
    let taken = totals.claimed.saturating_add(3);
    taken == totals.used.saturating_add(totals.freed)
        && totals.used.saturating_add(totals.free) == 64
        && (!full || 61 <= totals.claimed)
}

/// How many commands of such a run were answered, whether its history is legal, and whether its
/// totals agree; and whether some reply is `full`.
fn puts_at<R: Threads + Wait + Sync, G: Gate + Sync>(
    alloc: Global,
    rt: &R,
    clients: u32,
    puts: u32,
    cycles: u32,
    gate: &G,
) -> Result<((usize, bool, bool), bool), Fail>
    requires clients { (1 ≤ clients) × (clients ≤ 64) }
    requires cycles { cycles ≤ GREATEST_CYCLES }
{
    let text = repeated(alloc, b"put a x\n", puts)?;
    let finished = run_of(alloc, rt, clients, &text, cycles, gate)?;
    let merged = merge(alloc, &finished.logs)?;
    let legal = merged.len() <= MOST_COMMANDS as usize
        && is_legal(alloc, &merged, clients, 1, 1_000_000)?;
    let full = has_full(&merged);
    Ok(((merged.len(), legal, agree(finished.totals, full)), full))
}

#[test]
fn a_heap_without_a_cycle_is_full_lawfully(rt: HostRuntime) -> Result<(), Fail> {
    assert_eq!(rt;
        puts_at(rt.alloc(), &rt, 1, 13, 0, &OpenGate)?,
        ((13, true, true), true)
    );
    Ok(())
}

#[test]
fn one_cycle_is_enough_for_a_lawful_answer(rt: HostRuntime) -> Result<(), Fail> {
    let (found, _full) = puts_at(rt.alloc(), &rt, 1, 13, 1, &OpenGate)?;
    assert_eq!(rt; found, (13, true, true));
    Ok(())
}

/// The same for two clients of which the second is held at its hundredth command while the first
/// has the last half of its own; and whether it began before these were done.
fn held<R: Threads + Wait + Sync>(
    alloc: Global,
    rt: &R,
) -> Result<(((usize, bool, bool), bool), bool), Fail> {
    let gate = LastGate::new(100, 200);
    let shown = puts_at(alloc, rt, 2, 200, GREATEST_CYCLES, &gate)?;
    Ok((shown, gate.late()))
}

// While the second client is held, the first needs cells that are freed only where the held one
// answers handshakes: else the first waits for them until the gate lets go too early. Two versions
// leave most of the heap free, so nobody finds it full.
#[test]
fn a_client_that_is_held_answers_handshakes(rt: HostRuntime) -> Result<(), Fail> {
    assert_eq!(rt; held(rt.alloc(), &rt)?, (((400, true, true), false), false));
    Ok(())
}
