//! Laws of the rule: the contracts of functions that do nothing.
ghost use Rattle.std.specs.Prelude.{◌≡◌, ◌<◌, ◌≤◌, length, ℕ};
ghost use Rattle.cell_words.specs.declared.fields.Field.{Field};
ghost use Rattle.cell_words.specs.declared.fields.Field.TheVariants as field;
ghost use Rattle.core_machine.specs.Next.{found_by};
ghost use Rattle.core_machine.specs.declared.events.Event.TheVariants as event;
ghost use Rattle.core_machine.specs.declared.events.Found.TheVariants as finds;
ghost use Rattle.heap_rule.specs.Asks.{begun_of, known_of, target};
ghost use Rattle.heap_rule.specs.Boxes.{boxes_of};
ghost use Rattle.heap_rule.specs.Lore.{learned};
ghost use Rattle.heap_rule.specs.NoRule.{no_field_is_fixed};
ghost use Rattle.heap_rule.specs.Opening.{FirstTerms, opening_lore, opening_passes, opening_rooms};
ghost use Rattle.heap_rule.specs.Shape.{Shape, start};
ghost use Rattle.heap_rule.specs.Steps.{AtStep, Picks, same_pass};
ghost use Rattle.heap_rule.specs.declared.view.View.{View};
ghost use Rattle.sorted_rule.specs.Open.{IsOpen, KnownOfSort, MayShow, MayStand, sort_at};
ghost use Rattle.sorted_rule.specs.Opening.{first_rows, first_terms};
ghost use Rattle.sorted_rule.specs.Sorted.{HoldsSorted, opening_pass};
ghost use Rattle.sorted_rule.specs.Sorts.{Boxes, Records};
ghost use Rattle.sorted_rule.specs.declared.sorting.Sorting.{Sorting};

/// A heap whose first row is that of the anchor, with nothing in it, opens with the rule, whatever
/// its setting and its number of mutators.
pub fn sorted_opens()
    ensures terms { FirstTerms first_rows first_terms }
    ensures holds { (h : Shape) → h.first ≡ first_rows → HoldsSorted
        (boxes_of (start h (opening_rooms h.mutators)) (opening_lore first_terms h.mutators))
        (opening_passes opening_pass h) }
{}

/// A read of a field of an open place that finds a cell finds one of the field's sort: a box that
/// others may know, and not the anchor; or a record. And of a record it finds a record.
pub fn reads_find_their_sort()
    ensures boxes { (v w : View Sorting) (place f word cell : ℕ) → place < length v.own.held
        → IsOpen v place → f ≤ 4
        → (step : AtStep HoldsSorted no_field_is_fixed v (event.Read v.number place f) same_pass
        word w)
        → found_by step.core (event.Read v.number place f) ≡ finds.Field (field.Cell cell)
        → KnownOfSort (sort_at v place f)
        (learned step.core step.lore (event.Read v.number place f)).found }
    ensures records { (v w : View Sorting) (place f word cell : ℕ) → place < length v.own.held
        → KnownOfSort Records (known_of v place) → f ≤ 4
        → (step : AtStep HoldsSorted no_field_is_fixed v (event.Read v.number place f) same_pass
        word w)
        → found_by step.core (event.Read v.number place f) ≡ finds.Field (field.Cell cell)
        → KnownOfSort Records
        (learned step.core step.lore (event.Read v.number place f)).found }
{}

/// A write of what may stand in a field of an open place keeps the rule, with the pass as it is: by
/// an exchange, whatever was there before, and by a store of the write that was begun.
pub fn a_write_of_its_sort_keeps_the_rule()
    ensures exchanged { (v : View Sorting) (place f : ℕ) → place < length v.own.held
        → IsOpen v place → (old new : Field) → MayStand v (sort_at v place f) new
        → Picks HoldsSorted no_field_is_fixed same_pass v (event.Write v.number place f old new) }
    ensures stored { (v : View Sorting) (place f : ℕ) → place < length v.own.held
        → IsOpen v place → (begun_of v).place ≡ place → (begun_of v).f ≡ f → (new : Field)
        → MayStand v (sort_at v place f) new
        → Picks HoldsSorted no_field_is_fixed same_pass v (event.Store v.number new) }
{}

/// So does a write of a fresh box into a field of its own that names boxes, if the box has what any
/// box may have: from then on others may know it. No other cell is needed to show it, and nobody
/// else comes to know it by that.
pub fn a_new_box_may_name_itself()
    ensures { (v : View Sorting) (fresh f : ℕ) → MayShow v fresh → sort_at v 1 f ≡ Boxes
        → (old : Field)
        → Picks HoldsSorted no_field_is_fixed same_pass v
        (event.Write v.number fresh f old (field.Cell (target v fresh))) }
{}
