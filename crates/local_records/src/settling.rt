//! The end of a copying: the roots that are cells are held after the first places, and no others.
ghost use Rattle.std.specs.Prelude.{◌≡◌, ◌<◌, ◌≤◌, ◌+◌, ◌++◌, ◌∷◌, [], All, IfNone, IfSome, List};
ghost use Rattle.std.specs.Prelude.{length, true, ℕ};
ghost use Rattle.minor_heap.specs.declared.fields.MinorRef.{MinorRef};
ghost use Rattle.minor_heap.specs.Spans.{NoneMarked};
ghost use Rattle.mutator_seat.specs.Bound.{Bound, IsBound, bound};
ghost use Rattle.record_copying.specs.Copies.{IsCopied};
ghost use Rattle.local_references.specs.Roots.{AllStand, private_of, slot_at};
ghost use Rattle.local_references.specs.declared.roots.Root.TheVariants as roots;
ghost use Rattle.local_records.specs.Local.{AreLocal, IsLocal, IsNextTurn};
ghost use Rattle.local_records.specs.Settling.{HoldsAgain, RootsSettled, cell_count};
ghost use Rattle.local_records.specs.Settling.{cells_in, places_of, shared_at, shared_from};

use crate::local::LocalRecords;
use heap_rule::Keeping;
use heap_table::CellHeap;
use local_references::{Root, RootStack};
use minor_heap::MinorHeap;
use mutator_seat::{MutSeat, operations};
use record_copying::CopyTable;

/// The place of a root that is a cell. A record has its copy.
fn place_of(table: &CopyTable, root: Root) -> Option<usize>
    requires fits { (r : MinorRef) → root ≡ roots.Private r → r.number < table.now.room }
    requires copied { (r : MinorRef) → root ≡ roots.Private r → IsCopied table.now.copied r }
    ensures place { IfSome result (λ place. places_of table.now.places (root ∷ []) ≡ place ∷ []) }
    ensures none { IfNone result (places_of table.now.places (root ∷ []) ≡ []) }
{
    match root {
        Root::Null => None,
        Root::Num(_) => None,
        Root::Private(r) => table.place(r),
        Root::Shared(place) => Some(place),
    }
}

/// Holds a root that is a cell at one more place.
fn hold_root<P: Keeping>(heap: &CellHeap<P>, seat: &mut MutSeat<P>, table: &CopyTable, root: Root)
    requires seat { IsBound heap.now seat.old }
    requires inside { seat.old.me.presence.inside ≡ true }
    requires some { 1 ≤ length seat.old.me.own.held }
    requires room { length seat.old.me.own.held < seat.old.me.room }
    requires fits { (r : MinorRef) → root ≡ roots.Private r → r.number < table.now.room }
    requires copied { (r : MinorRef) → root ≡ roots.Private r → IsCopied table.now.copied r }
    requires there { All (λ place. place < length seat.old.me.own.held)
        (places_of table.now.places (root ∷ [])) }
    ensures seat { IsBound heap.now seat.new }
    ensures held { (before : Bound P) (places : List ℕ)
        → length before.seat.me.own.held ≡ length before.seat.me.known
        → All (λ place. place < length before.seat.me.own.held)
        (places_of table.now.places (root ∷ []))
        → HoldsAgain before places (bound heap.now seat.old)
        → HoldsAgain before (places ++ places_of table.now.places (root ∷ []))
        (bound heap.now seat.new) }
{
    match place_of(table, root) {
        Some(place) => {
            let held = seat.held_len();
            operations::keep(heap, seat, held, place, 1);
        }
        None => (),
    }
}

/// Holds each root that is a cell at one more place, in order.
fn hold_roots<P: Keeping>(
    heap: &CellHeap<P>,
    seat: &mut MutSeat<P>,
    table: &CopyTable,
    stack: &RootStack,
)
    requires seat { IsBound heap.now seat.old }
    requires inside { seat.old.me.presence.inside ≡ true }
    requires some { 1 ≤ length seat.old.me.own.held }
    requires fit { length seat.old.me.own.held ≡ length seat.old.me.known }
    requires room { length seat.old.me.own.held + length stack.now.roots ≤ seat.old.me.room }
    requires fits { (i : ℕ) (r : MinorRef) → slot_at stack.now.roots i ≡ roots.Private r
        → r.number < table.now.room }
    requires copied { (i : ℕ) (r : MinorRef) → slot_at stack.now.roots i ≡ roots.Private r
        → IsCopied table.now.copied r }
    requires there { (i : ℕ) → All (λ place. place < length seat.old.me.known)
        (places_of table.now.places (slot_at stack.now.roots i ∷ [])) }
    ensures seat { IsBound heap.now seat.new }
    ensures held { HoldsAgain (bound heap.now seat.old)
        (places_of table.now.places stack.now.roots) (bound heap.now seat.new) }
{
    for i in 0..stack.len() {
        let root = stack.root(i);
        hold_root(heap, seat, table, root);
    }
}

/// A root once its cell, if it is one, is held at this place.
fn shared_at(root: Root, place: usize) -> Root
    ensures shared { result ≡ shared_at place root }
{
    match root {
        Root::Null => Root::Null,
        Root::Num(number) => Root::Num(number),
        Root::Private(_) => Root::Shared(place),
        Root::Shared(_) => Root::Shared(place),
    }
}

/// How many cells a root is: one or none.
fn cells_in(root: Root) -> usize
    ensures count { result ≡ cells_in root }
{
    match root {
        Root::Null => 0,
        Root::Num(_) => 0,
        Root::Private(_) => 1,
        Root::Shared(_) => 1,
    }
}

/// Makes the roots that are cells the places from this one on, in order. The places end there.
fn share_roots(stack: &mut RootStack, first: usize, end: usize)
    requires fits { first + cell_count stack.old.roots ≡ end }
    ensures roots { stack.new.roots ≡ shared_from first stack.old.roots }
    ensures most { stack.new.room ≡ stack.old.room }
{
    let _ = end;
    let mut next = first;
    for i in 0..stack.len() {
        let root = stack.root(i);
        stack.set(i, shared_at(root, next));
        next += cells_in(root);
    }
}

/// Holds the first `base` places and after them each root that is a cell, in order, and makes these
/// roots the places: the number after the last.
fn settle_roots<P: Keeping>(
    heap: &CellHeap<P>,
    seat: &mut MutSeat<P>,
    minor: &MinorHeap,
    table: &CopyTable,
    stack: &mut RootStack,
    named: usize,
    base: usize,
) -> usize
    requires seat { IsBound heap.now seat.old }
    requires inside { seat.old.me.presence.inside ≡ true }
    requires some { 1 ≤ base }
    requires base { base ≤ length seat.old.me.own.held }
    requires room { length seat.old.me.own.held + length stack.old.roots ≤ seat.old.me.room }
    requires fits { length minor.now.records ≤ table.now.room }
    requires stand { AllStand minor.now.records stack.old.roots }
    requires done { All (IsCopied table.now.copied) (private_of stack.old.roots) }
    requires local { AreLocal seat.old.me.known named minor.now.records table.now.copied
        table.now.places stack.old.roots }
    ensures seat { IsBound heap.now seat.new }
    ensures settled { RootsSettled (bound heap.now seat.old) minor.now.records table.now.places
        stack.old.roots base (bound heap.now seat.new) }
    ensures roots { stack.new.roots ≡ shared_from base stack.old.roots }
    ensures most { stack.new.room ≡ stack.old.room }
    ensures end { result ≡ base + cell_count stack.old.roots }
    ensures known { result ≡ length seat.new.me.known }
{
    let _ = minor;
    let _ = named;
    let first = seat.held_len();
    hold_roots(heap, seat, table, stack);
    let last = seat.held_len();
    operations::keep(heap, seat, base, first, last - first);
    let end = seat.held_len();
    share_roots(stack, base, end);
    end
}

impl LocalRecords {
    /// Holds the first `base` places and after them each root that is a cell, in order, and lets
    /// all private records go: for when each private root has its copy. The roots are these places
    /// then.
    pub fn settle<P: Keeping>(&mut self, heap: &CellHeap<P>, seat: &mut MutSeat<P>, base: usize)
        requires seat { IsBound heap.now seat.old }
        requires inside { seat.old.me.presence.inside ≡ true }
        requires some { 1 ≤ base }
        requires base { base ≤ length seat.old.me.own.held }
        requires room { length seat.old.me.own.held + length self.old.roots ≤ seat.old.me.room }
        requires done { All (IsCopied self.old.copied) (private_of self.old.roots) }
        requires local { IsLocal self.old seat.old.me.known }
        ensures seat { IsBound heap.now seat.new }
        ensures settled { RootsSettled (bound heap.now seat.old) self.old.records self.old.places
            self.old.roots base (bound heap.now seat.new) }
        ensures roots { self.new.roots ≡ shared_from base self.old.roots }
        ensures named { self.new.named
            ≡ base + cell_count self.old.roots }
        ensures empty { self.new.records ≡ [] }
        ensures none { NoneMarked self.new.copied }
        ensures aged { self.new.aged ≡ 0 }
        ensures turn { IsNextTurn self.old.turn self.new.turn }
        ensures room { self.new.room ≡ self.old.room }
        ensures most { self.new.most ≡ self.old.most }
        ensures local { IsLocal self.new seat.new.me.known }
    {
        let minor = self.nursery.heap();
        let _spare = minor.spare();
        let named = settle_roots(
            heap,
            seat,
            minor,
            &self.table,
            &mut self.stack,
            self.named,
            base,
        );
        self.named = named;
        self.empty();
    }
}
