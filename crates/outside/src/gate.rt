//! What a client asks before each command and tells after it.
//!
//! A gate lets a test choose when commands come. It answers freely, so the trait has no clause, and
//! a client that is sent away asks again. Its calls take no runtime: what it has to remember stands
//! in atomics.
ghost use Rattle.std.specs.Prelude.{◌≡◌, IsTrue, false};

use std::sync::atomic::{AtomicBool, AtomicU64, Ordering};

/// Who lets the commands of clients begin.
pub trait Gate {
    /// Whether this command of this client may begin now.
    fn go(&self, client: u32, number: u32) -> bool;

    /// This command of this client has its reply.
    fn done(&self, client: u32, number: u32);
}

/// A gate that lets every command begin at once.
#[derive(Drop)]
pub struct OpenGate;

impl Gate for OpenGate {
    fn go(&self, _client: u32, _number: u32) -> bool
        ensures yes { IsTrue result }
    {
        true
    }

    fn done(&self, _client: u32, _number: u32) {}
}

/// A gate at which the first commands of clients 1 and 2 meet: each shows itself and then looks for
/// the other, so both are inside at one moment, unless the looks run out.
#[derive(Drop)]
pub struct CrossGate {
    turns: u64,
    first: AtomicBool,
    second: AtomicBool,
    late: AtomicBool,
}

impl CrossGate {
    /// A gate at which nobody was yet, and where each looks so often for the other.
    pub fn new(turns: u64) -> CrossGate {
        CrossGate {
            turns,
            first: AtomicBool::new(false),
            second: AtomicBool::new(false),
            late: AtomicBool::new(false),
        }
    }

    /// Whether one of the two looked in vain.
    pub fn late(&self) -> bool {
        self.late.load(Ordering::SeqCst)
    }

    // Shows that the one is here, and looks for the other.
    fn meet(&self, one: &AtomicBool, other: &AtomicBool) {
        one.store(true, Ordering::SeqCst);
        for _look in 0..self.turns {
            if other.load(Ordering::SeqCst) {
                return;
            }
        }
        self.late.store(true, Ordering::SeqCst);
    }
}

impl Gate for CrossGate {
    fn go(&self, client: u32, number: u32) -> bool
        ensures yes { IsTrue result }
    {
        match (client, number) {
            (1, 1) => self.meet(&self.first, &self.second),
            (2, 1) => self.meet(&self.second, &self.first),
            _ => {}
        }
        true
    }

    fn done(&self, _client: u32, _number: u32) {}
}

/// A gate that sends one command of one client away so many times, and lets all else begin at once.
#[derive(Drop)]
pub struct HoldGate {
    client: u32,
    number: u32,
    turns: u64,
    asked: AtomicU64,
}

impl HoldGate {
    /// A gate that was not asked yet.
    pub fn new(client: u32, number: u32, turns: u64) -> HoldGate {
        HoldGate {
            client,
            number,
            turns,
            asked: AtomicU64::new(0),
        }
    }

    /// How often it was asked for the command that it holds.
    pub fn asked(&self) -> u64 {
        self.asked.load(Ordering::SeqCst)
    }
}

impl Gate for HoldGate {
    fn go(&self, client: u32, number: u32) -> bool {
        client != self.client
            || number != self.number
            || self.turns <= self.asked.fetch_add(1, Ordering::SeqCst)
    }

    fn done(&self, _client: u32, _number: u32) {}
}

/// A gate that holds the first command of client 0, the number that is no client's, until one
/// command of one client has its reply. It lets all else begin at once.
#[derive(Drop)]
pub struct AfterGate {
    client: u32,
    number: u32,
    is_done: AtomicBool,
}

impl AfterGate {
    /// A gate that was told of no reply yet.
    pub fn new(client: u32, number: u32) -> AfterGate {
        AfterGate {
            client,
            number,
            is_done: AtomicBool::new(false),
        }
    }
}

impl Gate for AfterGate {
    fn go(&self, client: u32, number: u32) -> bool
        ensures held { result ≡ false → (client ≡ 0) × (number ≡ 1) }
    {
        client != 0 || number != 1 || self.is_done.load(Ordering::SeqCst)
    }

    fn done(&self, client: u32, number: u32) {
        if client == self.client && number == self.number {
            self.is_done.store(true, Ordering::SeqCst);
        }
    }
}
