//! Which gate is asked, by concurrent clients and by the guest that dumps a version.
use crate::outcomes::outcome_at;
use doc_model::NoMemory;
use outside::{AfterGate, CrossGate, Gate};
use script_files::Fault;
use std::alloc::Global;
use std::sync::Wait;
use std::sync::atomic::{AtomicU32, Ordering};
use std::test::Fail;
use std::thread::Threads;

/// As many looks as no thread needs before it begins.
const LOOKS: u64 = 1_000_000_000;

/// A cross gate that counts what it is asked and told.
#[derive(Drop)]
struct CountedGate {
    cross: CrossGate,
    asked: AtomicU32,
    told: AtomicU32,
}

impl Gate for CountedGate {
    fn go(&self, client: u32, number: u32) -> bool {
        self.asked.fetch_add(1, Ordering::SeqCst);
        self.cross.go(client, number)
    }

    fn done(&self, _client: u32, _number: u32) {
        self.told.fetch_add(1, Ordering::SeqCst);
    }
}

/// A gate at which nobody has been yet.
fn new_gate() -> CountedGate {
    CountedGate {
        cross: CrossGate::new(LOOKS),
        asked: AtomicU32::new(0),
        told: AtomicU32::new(0),
    }
}

/// The status of a run of two clients by these words, whether one looked for the other in vain, and
/// how often their gate was asked and told.
fn meeting<R: Threads + Wait + Sync>(
    alloc: Global,
    rt: &R,
    all: &[&str],
) -> Result<(u8, bool, u32, u32), NoMemory> {
    let gate = new_gate();
    let (outcome, _sink) = outcome_at(alloc, rt, all, b"put a x\nget a\n", &gate)?;
    let asked = gate.asked.load(Ordering::SeqCst);
    let told = gate.told.load(Ordering::SeqCst);
    Ok((outcome.status, gate.cross.late(), asked, told))
}

// The clients ask the gate that the run was given, and it lets each command begin. So do those of
// generated scripts, of an image and of a dump, whose guest asks it too. A body that runs them one
// after the other makes one of them late.
#[test]
fn the_first_commands_of_two_clients_meet(rt: HostRuntime) -> Result<(), Fail> {
    let table: [(&[&str], u32); 4] = [
        (&["run", "f", "f"], 4),
        (&["gen", "1", "2", "2"], 4),
        (&["image", "f", "f"], 4),
        (&["dump", "f", "f"], 5),
    ];
    for (all, times) in table {
        let met = meeting(rt.alloc(), &rt, all)?;
        assert_eq!(rt; met, (0, false, times, times), "{all:?}");
    }
    Ok(())
}

/// What a dump after this command of the script shows: its status, its fault, whether there is a
/// run without one, and whether its version has a dump, if one is handed back. And whether this was
/// written.
type Dumped = (u8, Option<Fault>, bool, Option<bool>, bool);

fn dumped_behind<R: Threads + Wait + Sync>(
    alloc: Global,
    rt: &R,
    script: &[u8],
    command: u32,
    wanted: &[u8],
) -> Result<Dumped, NoMemory> {
    let gate = AfterGate::new(1, command);
    let (outcome, sink) = outcome_at(alloc, rt, &["dump", "f"], script, &gate)?;
    let dumped = outcome.dumped.as_ref().map(|d| d.bytes.is_some());
    let finished = outcome.finished.is_some();
    let same = sink.written() == wanted;
    Ok((outcome.status, outcome.fault, finished, dumped, same))
}

/// Scripts with the number of their last command, and the dump of the version that it made.
const DUMPS: [(&str, u32, &str); 2] = [
    (
        "put a x\nput a/b y\n",
        2,
        "docs-dump 1 2\n. \"\"\na \"x\"\na/b \"y\"\nend 3\n",
    ),
    (
        "put b/c z\nput a/b y\nput a-b w\nput B v\n",
        4,
        "docs-dump 1 4\n. \"\"\nB \"v\"\na \"\"\na/b \"y\"\na-b \"w\"\nb \"\"\nb/c \"z\"\nend 7\n",
    ),
];

#[test]
fn a_dump_has_each_node_of_its_version_in_the_order_of_names(rt: HostRuntime) -> Result<(), Fail> {
    for (script, command, dump) in &DUMPS {
        let shown = dumped_behind(
            rt.alloc(),
            &rt,
            script.as_bytes(),
            *command,
            dump.as_bytes(),
        )?;
        assert_eq!(rt; shown, (0, None, false, Some(true), true), "{script}");
    }
    Ok(())
}

/// Copies of copies, the last of which is refused: after the one before it the tree has 988,524,220
/// nodes.
fn copies(alloc: Global) -> Result<Vec<u8>, NoMemory> {
    let mut script = b"put a x\n".to_vec(alloc)?;
    for _ in 0..4 {
        for child in 0..64 {
            script.extend_from_slice(format!(in alloc; "copy a b/{child}\n")?.as_bytes())?;
        }
        script.extend_from_slice(b"copy b a\ndel b\n")?;
    }
    for child in 0..58 {
        script.extend_from_slice(format!(in alloc; "copy a b/{child}\n")?.as_bytes())?;
    }
    Ok(script)
}

#[test]
fn a_tree_with_too_many_nodes_is_too_large_behind_the_run(rt: HostRuntime) -> Result<(), Fail> {
    let script = copies(rt.alloc())?;
    let shown = dumped_behind(rt.alloc(), &rt, &script, 322, b"")?;
    let fault = Some(Fault::TooLarge { file: 0 });
    assert_eq!(rt; shown, (6, fault, false, Some(false), true));
    Ok(())
}
