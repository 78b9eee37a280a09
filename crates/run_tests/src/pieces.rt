//! In which pieces the output is offered to the sink: one for each line.
use crate::outcomes::{files, words};
use doc_model::NoMemory;
use doc_run::run;
use outside::{MemSink, OpenGate, SureShelf};
use std::alloc::Global;
use std::sync::Wait;
use std::test::Fail;
use std::thread::Threads;

/// The status of a run of these words whose sink fails at this call, and whether the sink then
/// holds what is expected.
fn failing_at<R: Threads + Wait + Sync>(
    alloc: Global,
    rt: &R,
    all: &[&str],
    call: u64,
    wanted: &[u8],
) -> Result<(u8, bool), NoMemory> {
    let words = words(alloc, all)?;
    let mut failing = Vec::new(alloc);
    failing.push(call)?;
    let mut shelf = SureShelf::new(files(alloc, b"put a hello\nget a\n")?);
    let mut sink = MemSink::new(1_000, failing);
    let outcome = run(alloc, rt, &words, &mut shelf, &mut sink, &OpenGate);
    Ok((outcome.status, sink.written() == wanted))
}

/// Whether the sink takes these lines, each at one call, and no more calls are made.
fn are_pieces<R: Threads + Wait + Sync>(
    alloc: Global,
    rt: &R,
    all: &[&str],
    lines: &[&str],
) -> Result<bool, NoMemory> {
    let mut text = Vec::new(alloc);
    let mut call = 1u64;
    for line in lines {
        if failing_at(alloc, rt, all, call, &text)? != (4, true) {
            return Ok(false);
        }
        text.extend_from_slice(line.as_bytes())?;
        text.push(b'\n')?;
        call = call.saturating_add(1);
    }
    Ok(failing_at(alloc, rt, all, call, &text)? == (0, true))
}

// A run that offers all its lines as one piece, or a line in two, leaves other bytes in a sink that
// fails at its second call.
#[test]
fn each_line_is_offered_as_a_piece_of_its_own(rt: HostRuntime) -> Result<(), Fail> {
    let table: [(&[&str], &[&str]); 3] = [
        (
            &["run", "--history", "--stats", "--cycles", "0", "f"],
            &[
                "client 1",
                "ok 1",
                "val 1 hello",
                "history",
                "1 1 1 ok 1",
                "1 1 2 val 1 hello",
                "stats",
                "commands 2",
                "versions 1",
                "claimed 6",
                "freed 0",
                "used 9",
                "free 65527",
                "cycles 0",
            ],
        ),
        (
            &["gen", "1", "1", "2"],
            &[
                "gen 1 1 2",
                "commands 2",
                "commits 0",
                "nodes 1",
                "full 0",
                "legal yes",
            ],
        ),
        (
            &["gen", "1", "1", "2", "--print", "1"],
            &["get c1/n1", "copy c1/n18 c1/m18"],
        ),
    ];
    for (all, lines) in table {
        assert!(rt; are_pieces(rt.alloc(), &rt, all, lines)?, "{all:?}");
    }
    Ok(())
}
