//! Each call of a device failing in turn, on a script of two lines: a shelf that gives a byte at a
//! time and a sink that takes one; and a second file that is absent.
use crate::outcomes::{files, words};
use doc_model::NoMemory;
use doc_run::{Outcome, run};
use outside::{MemShelf, MemSink, OpenGate, SureShelf, SureSink};
use script_files::Fault;
use std::alloc::Global;
use std::sync::Wait;
use std::test::Fail;
use std::thread::Threads;

const HELLO: &[u8] = b"put a hello\nget a\n";

const OUTPUT: &[u8] = b"client 1\nok 1\nval 1 hello\n";

/// One opening, 18 reads of a byte, and one that finds the end.
const CALLS: u64 = 20;

/// What is asserted of a run: its status, its fault, how many calls its device had, and how many
/// bytes were written.
type Row = (u8, Option<Fault>, u64, usize);

fn row_of(outcome: &Outcome, calls: u64, written: &[u8]) -> Row {
    // What is written has to be a front of the output.
    let wrong = !OUTPUT.starts_with(written);
    let bytes = if wrong { usize::MAX } else { written.len() };
    (outcome.status, outcome.fault, calls, bytes)
}

/// What a run shows when its shelf gives one byte in a read, and the call with this number fails.
fn shelf_failing_at<R: Threads + Wait + Sync>(
    alloc: Global,
    rt: &R,
    call: u64,
) -> Result<Row, NoMemory> {
    let words = words(alloc, &["run", "--cells", "64", "f"])?;
    let mut shelf = MemShelf::short(files(alloc, HELLO)?, 1, vec![in alloc; call]?);
    let mut sink = SureSink::new(alloc);
    let outcome = run(alloc, rt, &words, &mut shelf, &mut sink, &OpenGate);
    Ok(row_of(&outcome, shelf.calls(), sink.written()))
}

/// The first of these calls of the shelf whose failure shows anything but a read fault with nothing
/// written.
fn first_wrong_read<R: Threads + Wait + Sync>(
    alloc: Global,
    rt: &R,
) -> Result<Option<u64>, NoMemory> {
    for call in 1..=CALLS {
        let fault = Some(Fault::ReadFault { file: 1 });
        if shelf_failing_at(alloc, rt, call)? != (3, fault, call, 0) {
            return Ok(Some(call));
        }
    }
    Ok(None)
}

#[test]
fn each_call_of_a_shelf_may_fail(rt: HostRuntime) -> Result<(), Fail> {
    assert_eq!(rt; first_wrong_read(rt.alloc(), &rt)?, None);
    Ok(())
}

#[test]
fn a_call_that_is_not_made_does_not_fail(rt: HostRuntime) -> Result<(), Fail> {
    let row = shelf_failing_at(rt.alloc(), &rt, CALLS + 1)?;
    assert_eq!(rt; row, (0, None, CALLS, OUTPUT.len()));
    Ok(())
}

/// What a run shows when its sink takes one byte in a call, and the call with this number fails.
fn sink_failing_at<R: Threads + Wait + Sync>(
    alloc: Global,
    rt: &R,
    call: u64,
) -> Result<Row, NoMemory> {
    let words = words(alloc, &["run", "--cells", "64", "f"])?;
    let mut shelf = SureShelf::new(files(alloc, HELLO)?);
    let mut sink = MemSink::new(1, vec![in alloc; call]?);
    let outcome = run(alloc, rt, &words, &mut shelf, &mut sink, &OpenGate);
    Ok(row_of(&outcome, sink.calls(), sink.written()))
}

/// The first call of the sink whose failure shows anything but a write fault, with as many bytes
/// written as calls went before it.
fn first_wrong_write<R: Threads + Wait + Sync>(
    alloc: Global,
    rt: &R,
) -> Result<Option<u64>, NoMemory> {
    for call in 1..=OUTPUT.len() as u64 {
        let before = call as usize - 1;
        if sink_failing_at(alloc, rt, call)? != (4, Some(Fault::WriteFault), call, before) {
            return Ok(Some(call));
        }
    }
    Ok(None)
}

#[test]
fn each_call_of_a_sink_may_fail(rt: HostRuntime) -> Result<(), Fail> {
    assert_eq!(rt; first_wrong_write(rt.alloc(), &rt)?, None);
    Ok(())
}

#[test]
fn a_piece_that_is_not_offered_does_not_fail(rt: HostRuntime) -> Result<(), Fail> {
    let calls = OUTPUT.len() as u64;
    let row = sink_failing_at(rt.alloc(), &rt, calls + 1)?;
    assert_eq!(rt; row, (0, None, calls, OUTPUT.len()));
    Ok(())
}

/// What a run of two files shows when the second is absent.
fn second_absent<R: Threads + Wait + Sync>(alloc: Global, rt: &R) -> Result<Row, NoMemory> {
    let words = words(alloc, &["run", "--cells", "64", "f", "g"])?;
    let mut shelf = MemShelf::new(files(alloc, HELLO)?, Vec::new(alloc));
    let mut sink = SureSink::new(alloc);
    let outcome = run(alloc, rt, &words, &mut shelf, &mut sink, &OpenGate);
    Ok(row_of(&outcome, shelf.calls(), sink.written()))
}

// The first file takes three calls: its opening, one read of all, and one that finds the end.
#[test]
fn an_absent_second_file_is_a_read_fault(rt: HostRuntime) -> Result<(), Fail> {
    let fault = Some(Fault::ReadFault { file: 2 });
    assert_eq!(rt; second_absent(rt.alloc(), &rt)?, (3, fault, 4, 0));
    Ok(())
}
