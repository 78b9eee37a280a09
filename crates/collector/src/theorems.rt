//! A law on heaps that were closed after a collector that served: the contract of a function that
//! does nothing.
ghost use Rattle.collector.specs.Cycles.{MadeCycles};
ghost use Rattle.core_machine.specs.declared.events.Taken.{Taken};
ghost use Rattle.dlg_core.specs.Collects.{IsTidy};
ghost use Rattle.heap_rule.specs.Laws.{Ended};
ghost use Rattle.heap_rule.specs.Shape.{IsSound, Shape};
ghost use Rattle.heap_rule.specs.declared.view.View.{View};
ghost use Rattle.std.specs.Prelude.{ℕ, ◌≡◌, ◌<◌, ◌++◌, List};

use heap_rule::Keeping;

/// Where the collector's trail has the cycles of a call of `serve`, and they are fewer than that
/// might have made, each cell of the closed heap that is not blue is reachable from the anchor.
pub fn fewer_cycles_leave_no_garbage<P: Keeping>()
    ensures { (h : Shape) (words : List ℕ) (v : View P) (most count freed : ℕ)
        (before made later : List Taken) → IsSound h
        → (ended : Ended P.opening P.holds P.fixed h (Unit {0}) words v)
        → v.trail ≡ before ++ (made ++ later) → MadeCycles h.mutators most count freed made
        → count < most → IsTidy ended.shows.core }
{}
