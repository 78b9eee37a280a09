//! Laws on private records: the contracts of functions that do nothing.
ghost use Rattle.std.specs.Prelude.{◌≡◌, ◌≤◌, List, length};
ghost use Rattle.heap_rule.specs.declared.known.Known.{Known};
ghost use Rattle.minor_heap.specs.Terms.{terms_of};
ghost use Rattle.promotion.specs.Sharing.{known_terms};
ghost use Rattle.record_copying.specs.Copies.{AllShare, AreCopies};
ghost use Rattle.local_records.specs.Local.{IsLocal, Local, StillBelow};

/// While what is known as a record at the named places stays so, private records are in force and
/// denote what they did, whatever else becomes of the held list.
pub fn what_stays_below_keeps_local()
    ensures local { (l : Local) (known later : List Known) → IsLocal l known
        → StillBelow l.named known later → l.named ≤ length later → IsLocal l later }
    ensures terms { (l : Local) (known later : List Known) → IsLocal l known
        → StillBelow l.named known later
        → terms_of (known_terms later) l.records ≡ terms_of (known_terms known) l.records }
{}

/// What fields share is known as records, and copies as records with the terms of theirs.
pub fn local_records_share_records()
    ensures shares { (l : Local) (known : List Known) → IsLocal l known
        → AllShare known l.records }
    ensures copies { (l : Local) (known : List Known) → IsLocal l known
        → AreCopies known l.records l.copied l.places }
{}
