//! Dumps alongside clients: rows, worked out by hand.
use crate::between::BetweenGate;
use crate::dumping::dumped_of;
use crate::scripts::repeated;
use outside::{AfterGate, OpenGate};
use std::alloc::Global;
use std::sync::Wait;
use std::test::Fail;
use std::thread::Threads;

/// A put so many times.
fn puts(alloc: Global, times: u32) -> Result<Vec<u8>, Fail> {
    Ok(repeated(alloc, b"put a x\n", times)?)
}

/// The number and the nodes of the version that is dumped alongside a thousand puts of one client.
fn alongside_a_thousand_puts<R: Threads + Wait + Sync>(
    alloc: Global,
    rt: &R,
) -> Result<(u64, u64), Fail> {
    let text = puts(alloc, 1_000)?;
    let dumped = dumped_of(alloc, rt, &[&text], 65_536, &OpenGate)?;
    Ok((dumped.version, dumped.count))
}

// A guest that takes its version at once finds the empty store.
#[test]
fn a_script_alone_is_dumped_whole(rt: HostRuntime) -> Result<(), Fail> {
    assert_eq!(rt; alongside_a_thousand_puts(rt.alloc(), &rt)?, (1_000, 2));
    Ok(())
}

/// The number of the version that is dumped between two puts of a client, how many commands it is
/// answered, and whether it or the guest was late. Another client has nothing to do.
fn between_two_puts<R: Threads + Wait + Sync>(
    alloc: Global,
    rt: &R,
) -> Result<(u64, usize, bool), Fail> {
    let text = puts(alloc, 2)?;
    let gate = BetweenGate::new();
    let dumped = dumped_of(alloc, rt, &[&text, b""], 64, &gate)?;
    let answered = match dumped.logs.first() {
        Some(log) => log.entries().len(),
        None => 0,
    };
    Ok((dumped.version, answered, gate.late()))
}

// In a run that has the guest after its clients, or before them, one of the two waits in vain. So
// it is in a run whose guest asks no gate, or does not tell it that it is done.
#[test]
fn a_version_is_dumped_between_two_commands(rt: HostRuntime) -> Result<(), Fail> {
    assert_eq!(rt; between_two_puts(rt.alloc(), &rt)?, (1, 2, false));
    Ok(())
}

/// The number of the version that is dumped after a hundred puts, on the smallest heap.
fn on_the_smallest_heap<R: Threads + Wait + Sync>(alloc: Global, rt: &R) -> Result<u64, Fail> {
    let text = puts(alloc, 100)?;
    let dumped = dumped_of(alloc, rt, &[&text], 64, &AfterGate::new(1, 100))?;
    Ok(dumped.version)
}

// A hundred puts claim more cells than the heap has, so cells were freed meanwhile. Where the
// collector stands still, or begins after the clients, a put finds the heap full.
#[test]
fn cells_are_freed_alongside_a_client_and_a_guest(rt: HostRuntime) -> Result<(), Fail> {
    assert_eq!(rt; on_the_smallest_heap(rt.alloc(), &rt)?, 100);
    Ok(())
}

/// The number of the version that is dumped after the fiftieth put of one of sixteen clients, which
/// put a hundred times each on a heap of a thousand cells; how many logs there are, and whether it
/// is dumped.
fn alongside_sixteen<R: Threads + Wait + Sync>(
    alloc: Global,
    rt: &R,
) -> Result<(u64, usize, bool), Fail> {
    let text = puts(alloc, 100)?;
    let texts = [text.as_slice(); 16];
    let dumped = dumped_of(alloc, rt, &texts, 1_000, &AfterGate::new(7, 50))?;
    Ok((dumped.version, dumped.logs.len(), dumped.bytes.is_some()))
}

#[test]
fn a_guest_stands_alongside_sixteen_clients_that_write(rt: HostRuntime) -> Result<(), Fail> {
    let (version, logs, is_dumped) = alongside_sixteen(rt.alloc(), &rt)?;
    let some = 50 <= version && version <= 1_600;
    assert_eq!(rt; (some, logs, is_dumped), (true, 16, true));
    Ok(())
}
