//! How many places and private records a client's commands ask for, so that none of them ever finds
//! too few. The proofs of client_session and client_heap refuse numbers that are too small.
use doc_tree::Path;

/// Places that one call on a tree asks for, a reading or an edit. An edit takes the most
/// (`EDIT_PLACES` of doc_edits).
pub const CALL_PLACES: usize = 8_192;

/// Places that a walk down a path asks for: it may keep one for each name.
pub const WALK_PLACES: usize = CALL_PLACES + Path::MOST;

/// Private records that are free before an edit, which makes no more than `EDIT_RECORDS` of
/// doc_edits.
pub const EDIT_SPARE: u32 = 2_285;

/// What an edit may take of a client's room, which keeps a place for each private record.
pub const EDIT_ROOM: usize = CALL_PLACES + EDIT_SPARE as usize;

/// Room between two commands: for a call, with the 808 places that the readings of one command may
/// keep on their way.
pub const READY_ROOM: usize = CALL_PLACES + 808;

/// Room once all but the draft's places are given back, so that `READY_ROOM` is left of it with a
/// new draft.
pub const SETTLED_ROOM: usize = READY_ROOM + 100;

/// Room that an edit asks for: what it may take, and then `SETTLED_ROOM`, with some to spare.
pub const TREE_ROOM: usize = 20_000;

/// Room that an edit of a batch asks for: it may copy, and then walks down a path first.
pub const NEXT_ROOM: usize = TREE_ROOM + 10;

/// Room that is made for one more edit of a batch, which reads the latest version first.
pub const BATCH_ROOM: usize = NEXT_ROOM + 1;

/// Room that is made for an edit: with the two places of the latest version and its root it is more
/// than `BATCH_ROOM`, or every batch would collect before its first edit.
pub const MADE_ROOM: usize = 20_480;

/// Room once that version and its root are held.
pub const BEGUN_ROOM: usize = MADE_ROOM - 2;

/// The least private heap that a client may have, in records: more than `EDIT_SPARE`.
pub const LEAST_MINOR: u32 = 4_096;

/// Places of a client's mutator for each of its private records.
pub const PLACES_PER_RECORD: u32 = 4;

/// The places that it has besides. With `LEAST_MINOR` records it has 32,768 then, more than
/// `MADE_ROOM` once its private heap is cleared.
pub const PLACES_BESIDES: u32 = 16_384;
