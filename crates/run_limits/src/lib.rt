//! What one run may be asked for at most. All that asks for few commands, or for few clients, cites
//! these, and CONTRIBUTING ('A limit') says what else follows from them.
#![tactic(auto)]

/// How many clients a store has at most, and how many senders a mailbox: as many as a heap has
/// mutators (dlg_core src/machine.rt, `with_room`).
pub const MOST_CLIENTS: u32 = 64;

/// How many commands the scripts of a run have at most, and how many items the scripts of senders.
/// A session counts its commands by itself, so it has this bound alone.
pub const MOST_COMMANDS: u32 = 100_000;

/// How many versions a store comes to at most, and how many items a mailbox: each client's log has
/// at most `MOST_COMMANDS` entries.
pub const MOST_VERSIONS: u32 = MOST_CLIENTS * MOST_COMMANDS;
