//! Whether some client has ended its script, as threads may share it.
use doc_model::Command;
use outside::Gate;
use std::sync::atomic::{AtomicBool, Ordering};

/// A gate of a run that knows how far its clients are.
pub(crate) trait Ending: Gate {
    /// Whether some client has ended its script.
    fn has_ended(&self) -> bool;
}

/// The gate of a run, which notes when the last command of some script has its reply. A client with
/// an empty script has ended at once; one that runs out of memory is never noted.
#[derive(Drop)]
pub(crate) struct EndingGate<'a, G> {
    gate: &'a G,
    scripts: &'a [Vec<Command>],
    has_ended: AtomicBool,
}

impl<'a, G: Gate> EndingGate<'a, G> {
    /// The gate of a run of these scripts, before any command.
    pub(crate) fn new(gate: &'a G, scripts: &'a [Vec<Command>]) -> EndingGate<'a, G> {
        let has_empty = scripts.iter().any(|script| script.is_empty());
        EndingGate {
            gate,
            scripts,
            has_ended: AtomicBool::new(has_empty),
        }
    }

    /// Whether this is the last command of this client. The guest is no client.
    fn is_last(&self, client: u32, number: u32) -> bool {
        match self.scripts.get((client as usize).wrapping_sub(1)) {
            Some(script) => script.len() == number as usize,
            None => false,
        }
    }
}

impl<G: Gate> Gate for EndingGate<'_, G> {
    fn go(&self, client: u32, number: u32) -> bool {
        self.gate.go(client, number)
    }

    fn done(&self, client: u32, number: u32) {
        self.gate.done(client, number);
        if self.is_last(client, number) {
            self.has_ended.store(true, Ordering::SeqCst);
        }
    }
}

impl<G: Gate> Ending for EndingGate<'_, G> {
    fn has_ended(&self) -> bool {
        self.has_ended.load(Ordering::SeqCst)
    }
}
