//! Gates that let the commands of two clients begin in an order of their own.
use outside::{CrossGate, Gate};
use std::sync::atomic::{AtomicBool, AtomicU32, AtomicU64, Ordering};

/// As many looks as no thread needs before it begins.
const LOOKS: u64 = 1_000_000_000;

/// How often each client is sent away before its first command.
const AWAY: u32 = 3;

/// What one client has asked and told.
#[derive(Drop)]
struct Calls {
    asked: AtomicU32,
    begun: AtomicU32,
    next: AtomicU32,
}

impl Calls {
    fn new() -> Calls {
        Calls {
            asked: AtomicU32::new(0),
            begun: AtomicU32::new(0),
            next: AtomicU32::new(1),
        }
    }

    /// The number of the command whose reply is not told yet.
    fn next(&self) -> u32 {
        self.next.load(Ordering::SeqCst)
    }
}

/// A gate for clients 1 and 2. It sends each of them away at first; their first commands meet; and
/// then client 2 goes on alone, and client 1 after it.
#[derive(Drop)]
pub(crate) struct OrderGate {
    cross: CrossGate,
    commands: u32,
    first: Calls,
    second: Calls,
    strange: AtomicBool,
}

impl OrderGate {
    /// A gate at which nobody has been yet, for so many commands of each client.
    pub(crate) fn new(commands: u32) -> OrderGate {
        OrderGate {
            cross: CrossGate::new(LOOKS),
            commands,
            first: Calls::new(),
            second: Calls::new(),
            strange: AtomicBool::new(false),
        }
    }

    /// Whether one of the two looked for the other in vain.
    pub(crate) fn late(&self) -> bool {
        self.cross.late()
    }

    /// Whether a client asked for a command that is not its next, or told of one that had not
    /// begun.
    pub(crate) fn strange(&self) -> bool {
        self.strange.load(Ordering::SeqCst)
    }

    /// The numbers of the commands that come next.
    pub(crate) fn next(&self) -> (u32, u32) {
        (self.first.next(), self.second.next())
    }

    fn calls(&self, client: u32) -> &Calls {
        if client == 1 {
            &self.first
        } else {
            &self.second
        }
    }

    /// Whether what comes before the command is done. Where the first commands did not meet, nobody
    /// is waited for.
    fn is_due(&self, client: u32, number: u32) -> bool {
        let due = match (client, number) {
            (_, 1) => true,
            (1, _) => self.second.next() > self.commands,
            _ => self.first.next() > 1,
        };
        due || self.late()
    }

    fn note(&self, right: bool) {
        if !right {
            self.strange.store(true, Ordering::SeqCst);
        }
    }
}

impl Gate for OrderGate {
    fn go(&self, client: u32, number: u32) -> bool {
        let calls = self.calls(client);
        let asked = calls.asked.fetch_add(1, Ordering::SeqCst);
        self.note(calls.next() == number);
        if asked < AWAY || !self.is_due(client, number) {
            return false;
        }
        let met = self.cross.go(client, number);
        calls.begun.store(number, Ordering::SeqCst);
        met
    }

    fn done(&self, client: u32, number: u32) {
        let calls = self.calls(client);
        let next = calls.next.fetch_add(1, Ordering::SeqCst);
        let begun = calls.begun.load(Ordering::SeqCst);
        self.note(next == number && begun == number);
    }
}

/// More turns than a client needs that goes on while another one is kept waiting.
const TURNS: u64 = 10_000_000;

/// A gate that holds one command of client 2 until the last one of client 1 has its reply, and the
/// command of client 1 with the same number until the held one was sent away. Who is sent away too
/// often goes on, and was late.
#[derive(Drop)]
pub(crate) struct LastGate {
    held: u32,
    last: u32,
    is_done: AtomicBool,
    first: AtomicU64,
    second: AtomicU64,
}

impl LastGate {
    /// A gate that was not asked yet, for these numbers of commands.
    pub(crate) fn new(held: u32, last: u32) -> LastGate {
        LastGate {
            held,
            last,
            is_done: AtomicBool::new(false),
            first: AtomicU64::new(0),
            second: AtomicU64::new(0),
        }
    }

    /// Whether one of the two went on before the other.
    pub(crate) fn late(&self) -> bool {
        TURNS < self.first.load(Ordering::SeqCst) || TURNS < self.second.load(Ordering::SeqCst)
    }
}

impl Gate for LastGate {
    fn go(&self, client: u32, number: u32) -> bool {
        let (due, away) = match client {
            1 => (0 < self.second.load(Ordering::SeqCst), &self.first),
            _ => (self.is_done.load(Ordering::SeqCst), &self.second),
        };
        number != self.held || due || TURNS <= away.fetch_add(1, Ordering::SeqCst)
    }

    fn done(&self, client: u32, number: u32) {
        if client == 1 && number == self.last {
            self.is_done.store(true, Ordering::SeqCst);
        }
    }
}
