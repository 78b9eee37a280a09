//! What is handed back where a text was not written whole.
use crate::outcomes::{files, words};
use doc_model::NoMemory;
use doc_run::run;
use outside::{AfterGate, MemShelf, MemSink};
use script_files::Fault;
use std::alloc::Global;
use std::sync::Wait;
use std::test::Fail;
use std::thread::Threads;

/// What these words show where the sink takes a line in a call, and its second call fails: the
/// status and the fault, whether a run, a dump and a mailbox are handed back, and whether only the
/// first line was written. A dump comes after the second command.
type Shown = (u8, Option<Fault>, [bool; 3], bool);

fn written_in_part<R: Threads + Wait + Sync>(
    alloc: Global,
    rt: &R,
    word: &str,
    script: &str,
    first: &str,
) -> Result<Shown, NoMemory> {
    let words = words(alloc, &[word, "f"])?;
    let mut shelf = MemShelf::new(files(alloc, script.as_bytes())?, Vec::new(alloc));
    let mut sink = MemSink::new(100, vec![in alloc; 2]?);
    let gate = AfterGate::new(1, 2);
    let outcome = run(alloc, rt, &words, &mut shelf, &mut sink, &gate);
    let back = [
        outcome.finished.is_some(),
        outcome.dumped.is_some(),
        outcome.mailed.is_some(),
    ];
    let same = sink.written() == first.as_bytes();
    Ok((outcome.status, outcome.fault, back, same))
}

/// Words with a script, the first line of their output, and what is handed back.
const ROWS: [(&str, &str, &str, [bool; 3]); 3] = [
    (
        "run",
        "put a hello\nget a\n",
        "client 1\n",
        [true, false, false],
    ),
    (
        "dump",
        "put a x\nput a/b y\n",
        "docs-dump 1 2\n",
        [false, true, false],
    ),
    ("mail", "send 5\n", "sender 1\n", [false, false, true]),
];

#[test]
fn what_is_not_written_whole_is_handed_back(rt: HostRuntime) -> Result<(), Fail> {
    for (word, script, first, back) in &ROWS {
        let shown = written_in_part(rt.alloc(), &rt, word, script, first)?;
        let fault = Some(Fault::WriteFault);
        assert_eq!(rt; shown, (4, fault, *back, true), "{word}");
    }
    Ok(())
}
