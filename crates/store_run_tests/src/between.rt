//! A gate between two commands of a client.
use outside::Gate;
use std::sync::atomic::{AtomicBool, AtomicU64, Ordering};

/// More turns than anybody needs who goes on alongside the one that is kept waiting.
const TURNS: u64 = 1_000_000;

/// A gate that lets the guest in after the first command of client 1, and this client on after the
/// guest, if that was let in. Whoever is sent away too often goes on, and was late.
#[derive(Drop)]
pub(crate) struct BetweenGate {
    first: AtomicBool,
    asked: AtomicBool,
    guest: AtomicBool,
    away: AtomicU64,
}

impl BetweenGate {
    /// A gate at which nobody has been yet.
    pub(crate) fn new() -> BetweenGate {
        BetweenGate {
            first: AtomicBool::new(false),
            asked: AtomicBool::new(false),
            guest: AtomicBool::new(false),
            away: AtomicU64::new(0),
        }
    }

    /// Whether one of the two went on before the other.
    pub(crate) fn late(&self) -> bool {
        TURNS <= self.away.load(Ordering::SeqCst)
    }

    fn is_due(&self, before: &AtomicBool) -> bool {
        before.load(Ordering::SeqCst) || TURNS <= self.away.fetch_add(1, Ordering::SeqCst)
    }
}

impl Gate for BetweenGate {
    fn go(&self, client: u32, number: u32) -> bool {
        match (client, number) {
            (0, 1) => {
                self.asked.store(true, Ordering::SeqCst);
                self.is_due(&self.first)
            }
            (1, 2) => self.is_due(&self.guest),
            _ => true,
        }
    }

    fn done(&self, client: u32, number: u32) {
        match (client, number) {
            (0, 1) => self
                .guest
                .store(self.asked.load(Ordering::SeqCst), Ordering::SeqCst),
            (1, 1) => self.first.store(true, Ordering::SeqCst),
            _ => {}
        }
    }
}
