//! Laws of the rule of a mailbox: the contracts of functions that do nothing.
ghost use Rattle.std.specs.Prelude.{Contains, List, length, ℕ, ◌≡◌, ◌≤◌};
ghost use Rattle.std.specs.List.Sorted.{IsStrictlyIncreasing};
ghost use mathlib.Core.Option.{some};
ghost use lib.ListN.{get_elem?};
ghost use Rattle.cell_words.specs.declared.fields.Field.TheVariants as field;
ghost use Rattle.core_machine.specs.Next.{found_by};
ghost use Rattle.core_machine.specs.declared.events.Event.TheVariants as event;
ghost use Rattle.core_machine.specs.declared.events.Found.TheVariants as finds;
ghost use Rattle.heap_rule.specs.Asks.{target};
ghost use Rattle.heap_rule.specs.Boxes.{Map, boxes_of};
ghost use Rattle.heap_rule.specs.Lore.{learned};
ghost use Rattle.heap_rule.specs.Numbered.{HasNumber};
ghost use Rattle.heap_rule.specs.Opening.{FirstTerms, opening_lore, opening_passes, opening_rooms};
ghost use Rattle.heap_rule.specs.Shape.{Shape, start};
ghost use Rattle.heap_rule.specs.Steps.{AtStep, Picks, same_pass};
ghost use Rattle.heap_rule.specs.declared.view.View.{View};
ghost use Rattle.mail_rule.specs.Chains.{Behind};
ghost use Rattle.mail_rule.specs.Counted.{EachOnce, WasSent, all_sent, all_taken, sent_in};
ghost use Rattle.mail_rule.specs.Counted.{taken_in};
ghost use Rattle.mail_rule.specs.Items.{item_at};
ghost use Rattle.mail_rule.specs.Knowing.{KnowsItem, MaySend, MayTake, next_sent, next_taken};
ghost use Rattle.mail_rule.specs.Mail.{HoldsMail, is_fixed};
ghost use Rattle.mail_rule.specs.Opening.{OpensMail, first_rows, first_terms};
ghost use Rattle.mail_rule.specs.Passes.{opening_pass};
ghost use Rattle.mail_rule.specs.Told.{IsSmall, TellsLatest, TellsNext};
ghost use Rattle.mail_rule.specs.declared.items.Item.{Item};
ghost use Rattle.mail_rule.specs.declared.items.Sent.{Sent};
ghost use Rattle.mail_rule.specs.declared.mail_pass.MailPass.{MailPass};

use run_limits::MOST_VERSIONS;

/// A heap whose first rows are the anchor and a box at position 0, with at most `MOST_CLIENTS`
/// mutators, opens with the rule.
pub fn mail_opens()
    ensures terms { FirstTerms first_rows first_terms }
    ensures holds { (h : Shape) → OpensMail h → HoldsMail
        (boxes_of (start h (opening_rooms h.mutators)) (opening_lore first_terms h.mutators))
        (opening_passes opening_pass h) }
{}

/// A send is one write of a box's next field, over null by a fresh box. Null is there at the last
/// box alone, so the item's position is then the next one, and the rule stands whether the write
/// was made or not; made, the pass has what was sent.
pub fn a_send_keeps_mail()
    ensures { (v : View MailPass) (place box : ℕ) (sent : Sent) → MaySend v place box sent
        → Picks HoldsMail is_fixed (next_sent sent) v
        (event.Write v.number place 3 field.Null (field.Cell (target v box))) }
{}

/// A take is one write of the anchor's field, from the box of an item to the box after it. The rule
/// stands whether the write was made or not; made, the pass has the item of that box.
pub fn a_take_keeps_mail()
    ensures { (v : View MailPass) (place latest next : ℕ) (item : Item)
        → MayTake v place latest next item
        → Picks HoldsMail is_fixed (next_taken (field.Cell (target v latest)) item) v
        (event.Write v.number place 0 (field.Cell (target v latest))
        (field.Cell (target v next))) }
{}

/// A read of the anchor tells the item that was taken last. A read of a known item's box tells its
/// position, its sender and its value, or the item that follows it, if one does.
pub fn reads_tell_items()
    ensures latest { (v w : View MailPass) (place word : ℕ) → target v place ≡ 0
        → (step : AtStep HoldsMail is_fixed v (event.Read v.number place 0) same_pass word w)
        → TellsLatest (learned step.core step.lore (event.Read v.number place 0))
        (found_by step.core (event.Read v.number place 0)) }
    ensures position { (v w : View MailPass) (place word : ℕ) (item : Item)
        → KnowsItem v place item
        → (step : AtStep HoldsMail is_fixed v (event.Read v.number place 0) same_pass word w)
        → found_by step.core (event.Read v.number place 0)
        ≡ finds.Field (field.Num item.position) }
    ensures sender { (v w : View MailPass) (place word : ℕ) (item : Item)
        → KnowsItem v place item
        → (step : AtStep HoldsMail is_fixed v (event.Read v.number place 1) same_pass word w)
        → found_by step.core (event.Read v.number place 1)
        ≡ finds.Field (field.Num item.sender) }
    ensures value { (v w : View MailPass) (place word : ℕ) (item : Item)
        → KnowsItem v place item
        → (step : AtStep HoldsMail is_fixed v (event.Read v.number place 2) same_pass word w)
        → found_by step.core (event.Read v.number place 2)
        ≡ finds.Field (field.Num item.value) }
    ensures next { (v w : View MailPass) (place word : ℕ) (item : Item)
        → KnowsItem v place item
        → (step : AtStep HoldsMail is_fixed v (event.Read v.number place 3) same_pass word w)
        → TellsNext item.position (learned step.core step.lore (event.Read v.number place 3))
        (found_by step.core (event.Read v.number place 3)) }
    ensures small { (v w : View MailPass) (place f word : ℕ) (item : Item)
        → KnowsItem v place item
        → AtStep HoldsMail is_fixed v (event.Read v.number place f) same_pass word w
        → IsSmall item }
{}

/// There are at most `MOST_VERSIONS` items, since each of `MOST_CLIENTS` passes has at most
/// `MOST_COMMANDS` sends.
pub fn items_are_few()
    ensures sent { (map : Map) (passes : List MailPass) → HoldsMail map passes
        → length (all_sent passes) ≤ MOST_VERSIONS }
    ensures boxes { (map : Map) (passes : List MailPass) → HoldsMail map passes
        → (cell position : ℕ) → HasNumber map cell position
        → position ≤ length (all_sent passes) }
{}

/// From each box on, the items that were sent after it follow, each box naming the next, down to
/// the last one.
pub fn items_follow()
    ensures { (map : Map) (passes : List MailPass) (h : HoldsMail map passes)
        (cell position : ℕ) → HasNumber map cell position
        → Behind h.letters map cell position }
{}

/// The sends of all passes have the positions from 1 to how many they are, each once, and in each
/// pass the positions rise. The item at each of them is in its sender's pass.
pub fn each_position_is_sent_once()
    ensures many { (map : Map) (passes : List MailPass) (h : HoldsMail map passes)
        → length (all_sent passes) ≡ length h.letters }
    ensures once { (map : Map) (passes : List MailPass) → HoldsMail map passes
        → EachOnce (all_sent passes) }
    ensures rise { (map : Map) (passes : List MailPass) → HoldsMail map passes
        → (number : ℕ) (pass : MailPass) → get_elem? passes number ≡ some pass
        → IsStrictlyIncreasing (sent_in pass) }
    ensures signed { (map : Map) (passes : List MailPass) (h : HoldsMail map passes)
        (position : ℕ) → 1 ≤ position → position ≤ length (all_sent passes)
        → WasSent passes (item_at h.letters position) }
{}

/// The takes of all passes have the positions from 1 to how many they are, each once, and in each
/// pass the positions rise. A take has the sender and the value of the send at its position.
pub fn each_position_is_taken_once()
    ensures many { (map : Map) (passes : List MailPass) (h : HoldsMail map passes)
        → length (all_taken passes) ≡ length h.takers }
    ensures once { (map : Map) (passes : List MailPass) → HoldsMail map passes
        → EachOnce (all_taken passes) }
    ensures rise { (map : Map) (passes : List MailPass) → HoldsMail map passes
        → (number : ℕ) (pass : MailPass) → get_elem? passes number ≡ some pass
        → IsStrictlyIncreasing (taken_in pass) }
    ensures sent { (map : Map) (passes : List MailPass) → HoldsMail map passes
        → (number : ℕ) (pass : MailPass) → get_elem? passes number ≡ some pass
        → (item : Item) → Contains pass.takes item → WasSent passes item }
    ensures fewer { (map : Map) (passes : List MailPass) → HoldsMail map passes
        → length (all_taken passes) ≤ length (all_sent passes) }
{}
