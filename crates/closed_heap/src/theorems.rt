//! Laws on a heap at its close, under any rule: the contracts of functions that do nothing.
ghost use Rattle.std.specs.Prelude.{List, length, ℕ, ◌≡◌, ◌<◌, ◌≤◌, ◌+◌};
ghost use Rattle.std.specs.Prelude.{◌++◌};
ghost use mathlib.Core.Option.{some};
ghost use lib.ListN.{get_elem?};
ghost use Rattle.closed_heap.specs.Closing.{AreJoined};
ghost use Rattle.core_machine.specs.InRange.{IsShaped};
ghost use Rattle.core_machine.specs.State.{State, free_count_of};
ghost use Rattle.dlg_core.specs.Collects.{AreOut};
ghost use Rattle.dlg_core.specs.Sums.{IsClaimed, claims_of, used_count_of};
ghost use Rattle.heap_rule.specs.Laws.{Ended};
ghost use Rattle.heap_rule.specs.Shape.{Shape};
ghost use Rattle.heap_rule.specs.declared.view.Place.TheVariants as places;
ghost use Rattle.heap_rule.specs.declared.view.Share.{Share};
ghost use Rattle.heap_rule.specs.declared.view.View.{View};
ghost use Rattle.trails.specs.Claims.{IsFull};
ghost use Rattle.trails.specs.Marks.{Mark, marks_of};

use heap_rule::Keeping;

/// Where every mutator's seat was joined, no mutator is in at the close.
pub fn who_was_joined_is_out<S, P: Keeping>()
    ensures { (h : Shape) (words : List ℕ) (v : View P)
        (ended : Ended P.opening P.holds P.fixed h S words v)
        → AreJoined h.mutators v.places → AreOut ended.shows.core }
{}

/// Where the trail of a joined mutator has a stretch that found the heap full, each cell but the
/// first rows was claimed in the run. So the claims that got a cell are as many as those cells, or
/// more.
pub fn a_full_heap_was_claimed_whole<S, P: Keeping>()
    ensures each { (h : Shape) (words : List ℕ) (v : View P)
        (ended : Ended P.opening P.holds P.fixed h S words v)
        (i : ℕ) (share : Share P) (before stretch after : List Mark)
        → get_elem? v.places i ≡ some (places.Joined share)
        → marks_of share.trail ≡ before ++ (stretch ++ after) → IsFull h.cells stretch
        → (c : ℕ) → length h.first ≤ c → c < h.cells → IsClaimed ended.shows.run c }
    ensures count { (h : Shape) (words : List ℕ) (v : View P)
        (ended : Ended P.opening P.holds P.fixed h S words v)
        (i : ℕ) (share : Share P) (before stretch after : List Mark)
        → get_elem? v.places i ≡ some (places.Joined share)
        → marks_of share.trail ≡ before ++ (stretch ++ after) → IsFull h.cells stretch
        → h.cells ≤ claims_of ended.shows.core + length h.first }
{}

/// Each cell is free or used.
pub fn free_and_used_are_all_cells()
    ensures { (s : State) → IsShaped s → free_count_of s + used_count_of s ≡ s.cells }
{}
