//! Laws on roots: the contracts of functions that do nothing.
ghost use Rattle.std.specs.Prelude.{◌++◌, ◌∷◌, List, [], ℕ, slice_set, take};
ghost use Rattle.minor_heap.specs.declared.fields.MinorField.{MinorField};
ghost use Rattle.local_references.specs.declared.roots.Root.{Root};
ghost use Rattle.local_references.specs.Roots.{AllStand, RootStands};

/// Private roots stand as long as each that is kept stood then, and records are only made.
pub fn roots_of_a_stack_stand()
    ensures none { (records : List (List MinorField)) → AllStand records [] }
    ensures pushed { (records : List (List MinorField)) (roots : List Root) (root : Root)
        → AllStand records roots → RootStands records root
        → AllStand records (roots ++ root ∷ []) }
    ensures popped { (records : List (List MinorField)) (roots : List Root) (root : Root)
        → AllStand records (roots ++ root ∷ []) → AllStand records roots }
    ensures cut { (records : List (List MinorField)) (roots : List Root) (n : ℕ)
        → AllStand records roots → AllStand records (take n roots) }
    ensures set { (records : List (List MinorField)) (roots : List Root) (i : ℕ) (root : Root)
        → AllStand records roots → RootStands records root
        → AllStand records (slice_set roots i root) }
    ensures made { (records : List (List MinorField)) (fields : List MinorField)
        (roots : List Root) → AllStand records roots → AllStand (records ++ fields ∷ []) roots }
{}
