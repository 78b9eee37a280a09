//! Laws on trails: the contracts of functions that do nothing.
ghost use Rattle.std.specs.Prelude.{Bool, List, [], ℕ, ◌++◌};
ghost use Rattle.core_machine.specs.Own.{Own};
ghost use Rattle.core_machine.specs.declared.events.Taken.{Taken};
ghost use Rattle.trails.specs.Asks.{Ask, InOrder, Shows};
ghost use Rattle.trails.specs.Claims.{FindsFull, IsFull};
ghost use Rattle.trails.specs.Marks.{Mark, marks_from};
ghost use Rattle.trails.specs.Telling.{Begins, Tells};

/// What two stretches show one after the other, their join shows.
pub fn stretches_join()
    ensures { (first second : List Ask) (old between new : List Mark) → Shows first old between
        → Shows second between new → Shows (first ++ second) old new }
{}

/// A claim that found the heap full has, in the events of its call, what a `full` in a log must
/// have.
pub fn a_refused_claim_found_the_heap_full()
    ensures { (own : Own) (number cells : ℕ) (off_duty : Bool) (begun ended : ℕ)
        (events : List Taken)
        → FindsFull number cells off_duty begun ended events
        → IsFull cells (marks_from own events) }
{}

/// What a reader of chains tells forwards, it shows.
pub fn what_is_told_is_shown()
    ensures { (f : List Ask → List Ask) (old new : List Mark) → Tells f old new → Begins old new
        → Shows (f []) old new }
{}
