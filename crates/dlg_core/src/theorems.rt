//! Laws of the definitions, for any number of cells and any rooms: the contracts of functions that
//! do nothing. The layers above cite the lemmas of proofs/ that they rest on.
ghost use Rattle.cell_words.specs.declared.fields.Field.TheVariants.{Num};
ghost use Rattle.cell_words.specs.declared.fields.Field.{Field};
ghost use Rattle.cell_words.specs.declared.presences.Presence.{Presence};
ghost use Rattle.core_machine.specs.declared.events.Event.{Event};
ghost use Rattle.core_machine.specs.declared.events.Taken.{Taken};
ghost use Rattle.core_machine.specs.declared.progress.Sweeping.TheVariants.{Wiping};
ghost use Rattle.core_machine.specs.Frames.{IsFramed, Knows};
ghost use Rattle.core_machine.specs.InRange.{HasWords, InRange, IsShaped};
ghost use Rattle.core_machine.specs.Next.{can, found_by, maker, after};
ghost use Rattle.core_machine.specs.Run.{Runs, last};
ghost use Rattle.core_machine.specs.State.{State, field_of, opening, own_of, presence_of};
ghost use Rattle.core_machine.specs.Table.{HasWord, Word, index_of, number_in, words_of};
ghost use Rattle.core_machine.specs.Trail.{collecting_along, collecting_of, own_along};
ghost use Rattle.core_machine.specs.Trail.{presence_along, roomed, trail_of};
ghost use Rattle.core_machine.specs.WordOperations.{IsOneOperation, IsValidFound};
ghost use Rattle.dlg_core.specs.Collects.{AreCollectors, AreOut, AreOver, AreTwoCycles, Collects};
ghost use Rattle.dlg_core.specs.Collects.{DoesNoMore, IsFreedSince, IsGarbage, IsOver};
ghost use Rattle.dlg_core.specs.Collects.{LeavesNoGarbage};
ghost use Rattle.dlg_core.specs.Consistent.{IsConsistent};
ghost use Rattle.dlg_core.specs.FirstRows.{are_first_rows, AreRows};
ghost use Rattle.dlg_core.specs.Reachable.{Reachable, reach};
ghost use Rattle.dlg_core.specs.Runs.{LeadsTo, events_of};
ghost use Rattle.dlg_core.specs.Safe.{IsSafe, StaysSafe};
ghost use Rattle.dlg_core.specs.Sums.{IsBalanced, StaysBalanced, StaysClaimed};
ghost use Rattle.std.specs.Prelude.{IsTrue, List, Option, Some, None, [], length, slice_index};
ghost use Rattle.std.specs.Prelude.{slice_set, true, ℕ, ◌++◌, ◌<◌, ◌∷◌, ◌≡◌, ◌≢◌, ◌≤◌, ◌↔◌};

/// Every state of every run from an opening is safe, whatever the number of cells, the rooms of the
/// mutators and the events are.
pub fn every_run_is_safe()
    ensures { (cells : ℕ) (rooms : List ℕ) (first : List (List Field)) (events : List Event)
        → AreRows first → IsTrue (are_first_rows first) → length first ≤ cells
        → StaysSafe (opening cells rooms first) events }
{}

/// In every state of every run from an opening the first rows and all claims are the cells that are
/// not free and all that were freed.
pub fn every_run_is_balanced()
    ensures { (cells : ℕ) (rooms : List ℕ) (first : List (List Field)) (events : List Event)
        → AreRows first → IsTrue (are_first_rows first) → length first ≤ cells
        → StaysBalanced (length first) (opening cells rooms first) events }
{}

/// Behind every run from an opening a cell that is not free is one of the first rows, or was
/// claimed.
pub fn every_used_cell_was_claimed()
    ensures { (cells : ℕ) (rooms : List ℕ) (first : List (List Field)) (events : List Event)
        → AreRows first → IsTrue (are_first_rows first) → length first ≤ cells
        → StaysClaimed (length first) (opening cells rooms first) events }
{}

/// Garbage is freed by the end of the next cycle, from any state that has the invariant.
pub fn garbage_is_freed()
    ensures { (s : State) (events : List Event) → IsShaped s → IsConsistent s → Collects s events }
{}

/// Two whole cycles leave no garbage, where every mutator is out and the collector goes on alone.
pub fn two_cycles_leave_no_garbage()
    ensures { (s : State) (events : List Event) → IsShaped s → IsConsistent s → AreOut s
        → AreCollectors events
        → LeavesNoGarbage s events }
{}

/// The same, where every mutator is out for good: then the collector goes on alone.
pub fn all_over_leaves_no_garbage()
    ensures { (s : State) (events : List Event) → IsShaped s → IsConsistent s → AreOver s
        → LeavesNoGarbage s events }
{}

/// A mutator that is out for good makes no event any more, and stays so.
pub fn who_is_over_does_no_more()
    ensures { (s : State) (events : List Event) (i : ℕ) → IsOver s i → DoesNoMore s events i }
{}

/// The computed reachability is the one by chains.
pub fn reach_is_reachable()
    ensures { (s : State) (c : ℕ) → (reach s c ≡ true) ↔ Reachable s c }
{}

/// In the table of a heap each word that the state has stands at its place, within the table.
pub fn table_shows_each_word()
    ensures { (s : State) (word : Word) → IsShaped s → HasWord s word
        → (index_of s.mutators word < length (words_of s))
        × (slice_index (words_of s) (index_of s.mutators word) ≡ number_in s word) }
{}

/// Every event is one operation on one word: it changes its word alone, and finds what stands
/// in it.
pub fn an_event_is_one_operation()
    ensures { (s : State) (e : Event) → IsShaped s → can s e ≡ true → IsOneOperation s e }
{}

/// What each event leaves alone of the parts of a state.
pub fn an_event_leaves_the_rest()
    ensures { (s : State) (e : Event) → IsFramed s e }
{}

/// In every state of every run from an opening each field and each presence has a word.
pub fn every_state_has_words()
    ensures { (cells : ℕ) (rooms : List ℕ) (first : List (List Field)) (taken : List Taken)
        → IsTrue (are_first_rows first) → Runs (opening cells rooms first) taken
        → HasWords (last (opening cells rooms first) taken) }
{}

/// What an event finds in such a state has a word.
pub fn what_is_found_has_a_word()
    ensures { (s : State) (e : Event) → InRange s → HasWords s → IsValidFound (found_by s e) }
{}

/// A run that tells what its events found is a run of these events, and leads to its last
/// state.
pub fn a_run_leads_to_its_last_state()
    ensures { (s : State) (taken : List Taken) → Runs s taken
        → LeadsTo s (events_of taken) (last s taken) }
{}

/// A run from a state with the invariant leads to one with it, and so to a safe one.
pub fn a_run_keeps_the_invariant()
    ensures { (s : State) (taken : List Taken) → IsShaped s → IsConsistent s → Runs s taken
        → IsShaped (last s taken) × IsConsistent (last s taken) × IsSafe (last s taken) }
{}

/// Where the sums on claims agree before a run, they agree after it.
pub fn a_run_keeps_the_balance()
    ensures { (first : ℕ) (s : State) (taken : List Taken) → IsShaped s → IsConsistent s
        → Runs s taken
        → IsBalanced first s → IsBalanced first (last s taken) }
{}

/// Garbage before two whole cycles of a run is freed by their end.
pub fn a_run_collects()
    ensures { (s : State) (taken : List Taken) (first between next : List Event) (c : ℕ)
        → IsShaped s
        → IsConsistent s → Runs s taken → events_of taken ≡ first ++ (between ++ next)
        → AreTwoCycles first between next → IsGarbage s c → IsFreedSince s (last s taken) c }
{}

/// A trail grows by each event of its maker, and by no other.
pub fn a_trail_grows_by_its_own_events()
    ensures { (who : Option ℕ) (taken : List Taken) (t : Taken)
        → (maker t.event ≡ who → trail_of who (taken ++ t ∷ []) ≡ trail_of who taken ++ t ∷ [])
        × (maker t.event ≢ who → trail_of who (taken ++ t ∷ []) ≡ trail_of who taken) }
{}

/// A mutator's own part is what its trail leaves, and so is what it knows of its presence.
pub fn a_mutator_knows_its_part()
    ensures { (s : State) (i : ℕ) (mine : Presence) (taken : List Taken) → IsShaped s → Runs s taken
        → Knows mine (presence_of s i)
        → (own_of (last s taken) i ≡ own_along (own_of s i) (trail_of (Some i) taken))
        × Knows (presence_along mine (trail_of (Some i) taken)) (presence_of (last s taken) i) }
{}

/// The control and the collector's own part are what the collector's trail leaves.
pub fn the_collector_knows_its_part()
    ensures { (s : State) (taken : List Taken) → IsShaped s → Runs s taken
        → collecting_of (last s taken)
        ≡ collecting_along s.cells (collecting_of s) (trail_of None taken) }
{}

/// A run stays a run where the room of a mutator that has no event in it is another one.
pub fn a_run_is_blind_to_an_unused_room()
    ensures { (s : State) (i room : ℕ) (taken : List Taken) → trail_of (Some i) taken ≡ []
        → Runs s taken
        → Runs (roomed s (slice_set s.rooms i room)) taken
        × (last (roomed s (slice_set s.rooms i room)) taken
        ≡ roomed (last s taken) (slice_set s.rooms i room)) }
{}

/// The cell that is being wiped is not reachable.
pub fn a_wiped_cell_is_not_reachable()
    ensures { (s : State) (wiped : ℕ) → IsShaped s → IsConsistent s → s.collector.sweep
        ≡ Wiping wiped
        → ¬ (Reachable s s.control.position) }
{}

/// No event changes a field of a record that is reachable.
pub fn a_record_never_changes()
    ensures { (s : State) (e : Event) (c f : ℕ) → IsShaped s → IsConsistent s → can s e ≡ true
        → Reachable s c
        → field_of s c 5 ≡ Num 1 → field_of (after s e) c f ≡ field_of s c f }
{}
