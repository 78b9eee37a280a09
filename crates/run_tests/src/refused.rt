//! How many files are opened, and the text of each fault.
use crate::outcomes::{files, words};
use cmd_text::ScriptKind;
use core_replay::ScheduleKind;
use doc_model::NoMemory;
use doc_run::run;
use dump_text::LoadKind;
use image_files::ImageKind;
use outside::{MemShelf, OpenGate, SureSink};
use script_files::{Fault, fault_text};
use std::alloc::Global;
use std::sync::Wait;
use std::test::Fail;
use std::thread::Threads;

/// How a run of so many files without lines ends, and after how many calls of the shelf.
fn files_opened<R: Threads + Wait + Sync>(
    alloc: Global,
    rt: &R,
    word: &str,
    many: u32,
) -> Result<(u8, Option<Fault>, u64), NoMemory> {
    let mut all = words(alloc, &[word])?;
    for _ in 0..many {
        all.push("f")?;
    }
    let mut shelf = MemShelf::new(files(alloc, b"")?, Vec::new(alloc));
    let mut sink = SureSink::new(alloc);
    let outcome = run(alloc, rt, &all, &mut shelf, &mut sink, &OpenGate);
    Ok((outcome.status, outcome.fault, shelf.calls()))
}

// An open and a read for each file; where there are too many, none is opened.
#[test]
fn too_many_files_are_not_opened(rt: HostRuntime) -> Result<(), Fail> {
    let fault = Some(Fault::TooLarge { file: 0 });
    let table = [
        ("run", 64, (0, None, 128)),
        ("run", 65, (6, fault, 0)),
        ("dump", 63, (0, None, 126)),
        ("dump", 64, (6, fault, 0)),
        ("mail", 63, (0, None, 126)),
        ("mail", 64, (6, fault, 0)),
    ];
    for (word, many, wanted) in table {
        let found = files_opened(rt.alloc(), &rt, word, many)?;
        assert_eq!(rt; found, wanted, "{word} of {many} files");
    }
    Ok(())
}

/// Whether this is the text of a fault, and what it is displayed as.
fn texts_are(alloc: Global, fault: Fault, text: &str) -> Result<(bool, bool), NoMemory> {
    let said = fault_text(alloc, &fault)?.as_slice() == text.as_bytes();
    let shown = format!(in alloc; "{fault}")?.as_str() == text;
    Ok((said, shown))
}

#[test]
fn each_fault_has_its_text(rt: HostRuntime) -> Result<(), Fail> {
    let table = [
        (Fault::Usage, "docheap: usage"),
        (
            Fault::Script {
                file: 2,
                line: 7,
                kind: ScriptKind::BadPath,
            },
            "docheap: file 2: line 7: BadPath",
        ),
        (
            Fault::Schedule {
                line: 7,
                kind: ScheduleKind::NoEvent,
            },
            "docheap: file 1: line 7: NoEvent",
        ),
        (
            Fault::Dump {
                line: 7,
                kind: LoadKind::NoOrder,
            },
            "docheap: file 1: line 7: NoOrder",
        ),
        (
            Fault::Image {
                line: 7,
                kind: ImageKind::BadShape,
            },
            "docheap: file 1: line 7: BadShape",
        ),
        (Fault::ReadFault { file: 1 }, "docheap: file 1: read fault"),
        (Fault::WriteFault, "docheap: write fault"),
        (Fault::Memory, "docheap: out of memory"),
        (Fault::TooLarge { file: 1 }, "docheap: file 1: too large"),
        (Fault::TooLarge { file: 0 }, "docheap: too large"),
    ];
    for (fault, text) in table {
        assert_eq!(rt; texts_are(rt.alloc(), fault, text)?, (true, true), "{text}");
    }
    Ok(())
}
