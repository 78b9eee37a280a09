ghost use Rattle.cell_words.specs.Presence.{IsPresenceWord, is_valid_presence, pack_presence_of};
ghost use Rattle.cell_words.specs.declared.presences.Presence.{Presence};
ghost use Rattle.std.specs.Prelude.{IfSome, IsSome, IsTrue, Some, ◌≡◌, ◌↔◌};

/// The handshake that a mutator has answered last.
#[derive(Clone, Copy, Debug, PartialEq, Eq)]
pub enum Status {
    Async,
    Sync1,
    Sync2,
}

/// A mutator's status word: its status, and whether it takes part.
#[derive(Clone, Copy, Debug, PartialEq, Eq)]
pub struct Presence {
    pub status: Status,
    /// in an operation: it may hold cells, and answers handshakes by itself
    pub inside: bool,
    /// it never comes in again
    pub over: bool,
}

/// The word of a presence.
pub fn pack_presence(presence: Presence) -> u64
    requires { IsTrue (is_valid_presence presence) }
    ensures word { result ≡ pack_presence_of presence }
{
    let status = match presence.status {
        Status::Async => 0,
        Status::Sync1 => 1,
        Status::Sync2 => 2,
    };
    let inside = if presence.inside { INSIDE } else { 0 };
    let over = if presence.over { OVER } else { 0 };
    status + inside + over
}

/// The presence that a word is, if it is one's.
pub fn unpack_presence(word: u64) -> Option<Presence>
    ensures valid { IfSome result (λ presence. IsTrue (is_valid_presence presence)) }
    ensures found { IfSome result (λ presence. pack_presence_of presence ≡ word) }
    ensures packed { (presence : Presence) → IsTrue (is_valid_presence presence)
        → pack_presence_of presence ≡ word → result ≡ Some presence }
    ensures some { IsSome result ↔ IsPresenceWord word }
{
    let status = match word % 4 {
        0 => Status::Async,
        1 => Status::Sync1,
        2 => Status::Sync2,
        _ => return None,
    };
    let (inside, over) = match word / 4 {
        0 => (false, false),
        1 => (true, false),
        2 => (false, true),
        _ => return None,
    };
    Some(Presence {
        status,
        inside,
        over,
    })
}

/// The bit of a mutator that is in.
const INSIDE: u64 = 4;

/// The bit of a mutator that is over.
const OVER: u64 = 8;
