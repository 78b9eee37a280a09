//! Rows, worked out by hand, and what holds on every schedule.
use crate::counting::totals_of;
use crate::gates::OrderGate;
use cell_words::GREATEST_CYCLES;
use doc_model::Totals;
use outside::OpenGate;
use std::alloc::Global;
use std::sync::Wait;
use std::test::Fail;
use std::thread::Threads;

// A hundred puts claim more cells than the heap has, so cells were freed while the client had
// commands left. A run whose collector stands still, or begins after its clients, is `full`.
#[test]
fn cells_are_freed_beside_the_client(rt: HostRuntime) -> Result<(), Fail> {
    let totals = totals_of(rt.alloc(), &rt, 1, 100, GREATEST_CYCLES, &OpenGate)?;
    let commits = (totals.commands, totals.versions);
    let cells = [totals.claimed, totals.freed, totals.used, totals.free];
    let wanted = ((100, 100), [501, 497, 7, 57], true);
    assert_eq!(rt; (commits, cells, totals.cycles >= 2), wanted);
    Ok(())
}

/// What a gate found that lets two clients begin in its order, a hundred commands each: whether one
/// looked for the other in vain, whether a call was strange, and which commands come next; and the
/// totals of the run.
fn in_order<R: Threads + Wait + Sync>(
    alloc: Global,
    rt: &R,
) -> Result<((bool, bool, (u32, u32)), Totals), Fail> {
    let gate = OrderGate::new(100);
    let totals = totals_of(alloc, rt, 2, 100, GREATEST_CYCLES, &gate)?;
    Ok(((gate.late(), gate.strange(), gate.next()), totals))
}

// In a run that has both on one thread, one after the other or by turns, the first command of one
// client looks for the other's in vain. A run that asks no gate begins what the gate has not let
// begin. While client 1 is sent away, client 2 needs cells that are freed only where client 1
// answers handshakes.
#[test]
fn two_clients_ask_their_gate_before_each_command(rt: HostRuntime) -> Result<(), Fail> {
    let (found, totals) = in_order(rt.alloc(), &rt)?;
    let commits = (totals.commands, totals.versions);
    assert_eq!(rt; (found, commits), ((false, false, (101, 101)), (200, 200)));
    Ok(())
}

// Thirty puts need at least five cells each. Where none is freed, each cell is claimed once before
// a client is told that the heap is full.
#[test]
fn clients_fill_a_heap_whose_collector_is_off_duty(rt: HostRuntime) -> Result<(), Fail> {
    let totals = totals_of(rt.alloc(), &rt, 3, 10, 0, &OpenGate)?;
    let commands = (totals.commands, totals.cycles);
    let cells = [totals.claimed, totals.freed, totals.used, totals.free];
    let some = 1 <= totals.versions && totals.versions <= 12;
    assert_eq!(rt; (commands, cells, some), ((30, 0), [61, 0, 64, 0], true));
    Ok(())
}

// No clause says that a run ends when its clients wait for cells that the collector has to free and
// the collector waits for the clients. Each command has its entry, whether its client found the
// heap full or not.
#[test]
fn several_clients_share_a_small_heap(rt: HostRuntime) -> Result<(), Fail> {
    let totals = totals_of(rt.alloc(), &rt, 4, 50, GREATEST_CYCLES, &OpenGate)?;
    let taken = totals.claimed.saturating_add(3);
    let left = totals.used.saturating_add(totals.freed);
    let cells = totals.used.saturating_add(totals.free);
    let some = totals.versions >= 1;
    assert_eq!(rt;
        (totals.commands, some, taken, cells),
        (200, true, left, 64)
    );
    Ok(())
}
