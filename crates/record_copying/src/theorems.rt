//! Laws on copies of records: the contracts of functions that do nothing.
ghost use Rattle.std.specs.Prelude.{◌≡◌, ◌++◌, ◌∷◌, Bool, List, [], ℕ};
ghost use Rattle.heap_rule.specs.declared.known.Known.{Known};
ghost use Rattle.minor_heap.specs.declared.fields.MinorField.{MinorField};
ghost use Rattle.minor_heap.specs.Spans.{NoneMarked};
ghost use Rattle.minor_heap.specs.Terms.{terms_of};
ghost use Rattle.promotion.specs.Sharing.{known_terms};
ghost use Rattle.record_copying.specs.Copies.{AllShare, AreCopies, StillRecords};

/// While what was known as a record still is, private records denote what they did, and so do their
/// copies.
pub fn what_stays_known_keeps_copies()
    ensures shares { (known later : List Known) (records : List (List MinorField))
        → AllShare known records → StillRecords known later → AllShare later records }
    ensures terms { (known later : List Known) (records : List (List MinorField))
        → AllShare known records → StillRecords known later
        → terms_of (known_terms later) records ≡ terms_of (known_terms known) records }
    ensures copies { (known later : List Known) (records : List (List MinorField))
        (copied : List Bool) (places : List ℕ) → AllShare known records → StillRecords known later
        → AreCopies known records copied places → AreCopies later records copied places }
{}

/// One more private record has no copy, and the others keep theirs.
pub fn a_new_record_keeps_copies()
    ensures { (known : List Known) (records : List (List MinorField)) (fields : List MinorField)
        (copied : List Bool) (places : List ℕ) → AreCopies known records copied places
        → AreCopies known (records ++ fields ∷ []) copied places }
{}

/// Where no copy is there, all that are there denote their records.
pub fn no_copies_are_copies()
    ensures { (known : List Known) (records : List (List MinorField)) (copied : List Bool)
        (places : List ℕ) → NoneMarked copied → AreCopies known records copied places }
{}
