//! What a mutator's handle owns: its seat, and a share of the heap that the seat is of.
ghost use Rattle.std.specs.Prelude.{◌≡◌, ◌≤◌, ◌+◌, ◌⊎◌, [], if◌then◌else◌, List, MatchOption};
ghost use Rattle.std.specs.Prelude.{OnErr, OnOk, false, length};
ghost use Rattle.std.specs.Bool.{OnFalse, OnTrue};
ghost use Rattle.heap_c.specs.Calls.{ComesIn, ComparesPlaces, MakesCell};
ghost use Rattle.heap_c.specs.Calls.{ReachesSafePoint, ReadsAllFields, ReadsField, SwapsField};
ghost use Rattle.heap_c.specs.Calls.{IsIn, WritesField};
ghost use Rattle.heap_c.specs.Holding.{StillLocal, owned_by, turns_of};
ghost use Rattle.heap_c.specs.Keeps.{EndsAll, KeepsAbove, MakesAbove};
ghost use Rattle.heap_c.specs.Moving.{MakesRoom, PromotesRecord, ReleasesPlaces, SharesRoots};
ghost use Rattle.heap_c.specs.Moving.{Steadies};
ghost use Rattle.heap_c.specs.Records.{GetsAllFields, GetsField, MakesRecord, PopsRoots};
ghost use Rattle.heap_c.specs.Records.{PushesRoot};
ghost use Rattle.heap_c.specs.Records.{SetsRoot, TellsPlace, TellsRoot};
ghost use Rattle.heap_c.specs.Refusing.{held_of};
ghost use Rattle.heap_c.specs.Turns.{NamesNone, NamesPlace};
ghost use Rattle.heap_c.specs.Walking.{MayStay, NarrowsTo};
ghost use Rattle.heap_rule.specs.declared.known.Known.{Known};
ghost use Rattle.local_records.specs.Local.{IsLocal};
ghost use Rattle.minor_heap.specs.Spans.{NoneMarked};
ghost use Rattle.heap_c.specs.declared.codes.Code.TheVariants as code;
ghost use Rattle.heap_table.specs.Seats.{IsSeatOf};
ghost use Rattle.heap_rule.specs.Asks.{MayComeIn};
ghost use Rattle.sorted_boxes.specs.Sorts.{Serves};

use crate::cells::FreeCells;
use crate::claiming::{Looks, Waiting};
use crate::codes::Code;
use crate::rule::Rule;
use crate::sharing::Sharing;
use crate::turns::{NUMBERS, Turns};
use crate::values::{HeapVal, REF, val_of, vals_of};
use crate::{moving, owned, records, rooting};
use heap_table::CellHeap;
use local_records::{LocalRecords, NoMemory};
use minor_heap::MinorRef;
use mutator_events::MutSeat;
use mutator_seat::{Value, operations};
use sorted_boxes::Sorts;
use std::alloc::Global;
use std::marker::Model;
use std::sync::Arc;

/// A mutator's seat with its heap, and where free cells may be.
#[derive(Drop)]
pub struct Mine {
    heap: Arc<CellHeap<Rule>, Global>,
    sharing: Arc<Sharing, Global>,
    seat: MutSeat<Rule>,
    sorts: Sorts,
    local: LocalRecords,
    wait: Waiting,
    /// whether private records may have copies
    copied: bool,
    /// the places below this one have stayed through all moves of records
    steady: u64,
}

impl Model for Mine {
    ghost use Rattle.std.specs.Coded.{codes};
    ghost use Rattle.cell_words.specs.contracts.terms.Term as term;
    ghost use Rattle.heap_c.specs.Holding.{IsOwned, Mutator, NotesCopies, owned_by};

    ghost Value = { Mutator };

    ghost coded = { Prim.hlevel (codes, term.the_row.coded) };

    ghost view = { λ m. record {
      owned = owned_by m.heap.value m.seat m.sorts m.local;
      steady = m.steady;
    } };

    ghost invariant = { λ m. IsOwned m.heap.value m.seat m.sorts m.local
        × NotesCopies m.copied m.local };
}

impl Mine {
    /// What has this seat on this heap.
    pub(crate) fn new(
        heap: Arc<CellHeap<Rule>, Global>,
        sharing: Arc<Sharing, Global>,
        seat: MutSeat<Rule>,
        sorts: Sorts,
        local: LocalRecords,
        start: u32,
    ) -> Mine
        requires seat { IsSeatOf heap.value seat }
        requires out { MayComeIn seat.me }
        requires some { 1 ≤ sorts.boxes }
        requires serves { Serves sorts seat.me }
        requires local { (known : List Known) → IsLocal local known }
        requires rootless { local.roots ≡ [] }
        requires none { NoneMarked local.copied }
        ensures mine { result ≡ record {
          owned = owned_by heap.value seat sorts local;
          steady = 4294967296;
        } }
    {
        // Who is out has begun no write.
        let _inside = seat.is_in();
        Mine {
            heap,
            sharing,
            seat,
            sorts,
            local,
            wait: Waiting {
                began: None,
                looks: Looks {
                    block: start,
                    next: 0,
                },
            },
            copied: false,
            steady: NUMBERS,
        }
    }

    /// Whether it is in.
    pub(crate) fn is_in(&self) -> bool
        ensures inside { result ≡ self.now.owned.held.bound.seat.me.presence.inside }
    {
        self.seat.is_in()
    }

    /// How many cells it holds, counted by place.
    pub(crate) fn held_len(&self) -> usize
        ensures len { result ≡ length self.now.owned.held.bound.seat.me.own.held }
    {
        self.seat.held_len()
    }

    /// How many cells it holds. Their places may be kept alone at any time later.
    pub(crate) fn base(&self) -> usize
        ensures len { result ≡ held_of self.now.owned.held }
        ensures stays { MayStay result self.now.owned }
    {
        owned::base(&self.heap, &self.seat, &self.sorts, &self.local)
    }

    /// How many places are free.
    pub(crate) fn room(&self) -> usize
        ensures room { length self.now.owned.held.bound.seat.me.own.held + result
            ≡ self.now.owned.held.bound.seat.me.room }
    {
        self.seat.room()
    }

    /// How it numbers places.
    pub(crate) fn turns(&self) -> Turns
        ensures turns { result ≡ turns_of self.now }
    {
        Turns {
            turn: self.local.give(MinorRef { number: 0 }).turn,
            steady: self.steady,
        }
    }

    /// The place that a number of C's names.
    pub(crate) fn place(&self, n: usize) -> Option<usize>
        ensures names { MatchOption result (NamesNone (turns_of self.now) n)
            (NamesPlace (turns_of self.now) n) }
    {
        self.turns().place(n as u64)
    }

    /// The number of a held place, counted from the anchor's.
    pub(crate) fn number(&self, i: usize) -> Result<usize, Code>
        ensures told { TellsPlace (turns_of self.now) self.now.owned.held i result }
    {
        if !self.seat.is_in() {
            return Err(Code::NotIn);
        }
        if self.seat.held_len() <= i {
            return Err(Code::BadPlace);
        }
        Ok(self.turns().number(i) as usize)
    }

    /// Comes in.
    pub(crate) fn begin(&mut self) -> Code
        ensures begun { ComesIn self.old.owned.held self.new.owned.held result }
        ensures still { StillLocal self.old self.new }
    {
        owned::begin(&self.heap, &mut self.seat, &self.sorts, &self.local)
    }

    /// Goes out.
    pub(crate) fn end(&mut self) -> Code
        ensures answer { result ≡ (if self.old.owned.held.bound.seat.me.presence.inside
            then code.Ok else code.NotIn) }
        ensures ended { EndsAll self.old.owned self.new.owned result }
        ensures steady { self.new.steady ≡ self.old.steady }
    {
        owned::end(
            &self.heap,
            &mut self.seat,
            &self.sorts,
            &mut self.local,
            &mut self.copied,
        )
    }

    /// Answers a handshake, if one is asked for.
    pub(crate) fn answer(&mut self) -> Code
        ensures answer { result ≡ (if self.old.owned.held.bound.seat.me.presence.inside
            then code.Ok else code.NotIn) }
        ensures answered { ReachesSafePoint self.old.owned.held self.new.owned.held result }
        ensures still { StillLocal self.old self.new }
    {
        owned::answer(&self.heap, &mut self.seat, &self.sorts, &self.local)
    }

    /// Keeps the first n places, and after them so many from a place on.
    pub(crate) fn keep(&mut self, n: usize, place: usize, count: usize) -> Code
        ensures kept { KeepsAbove self.old.owned self.new.owned n place count result }
        ensures steady { self.new.steady ≡ self.old.steady }
    {
        owned::keep(
            &self.heap,
            &mut self.seat,
            &mut self.sorts,
            &self.local,
            n,
            place,
            count,
        )
    }

    /// Keeps the first places, and after them so many from a place on.
    pub(crate) fn narrow(&mut self, base: usize, place: usize, count: usize)
        requires stays { MayStay base self.old.owned }
        requires inside { IsIn self.old.owned.held }
        requires others { place + count ≤ held_of self.old.owned.held }
        requires after { (base ≤ place) ⊎ (count ≡ 0) }
        ensures kept { NarrowsTo base place count self.old self.new }
    {
        owned::narrow(
            &self.heap,
            &mut self.seat,
            &mut self.sorts,
            &self.local,
            base,
            place,
            count,
        );
    }

    /// Makes a box.
    pub(crate) fn make(&mut self, vals: &[HeapVal]) -> Result<usize, Code>
        ensures made { MakesCell (turns_of self.old) self.old.owned.held self.new.owned.held
            vals.now result }
        ensures still { StillLocal self.old self.new }
    {
        let turns = self.turns();
        owned::make(
            &self.heap,
            &mut self.seat,
            &mut self.sorts,
            &self.local,
            &self.sharing,
            &mut self.wait,
            turns,
            vals,
        )
    }

    /// Makes a box, and keeps the first places and it alone.
    pub(crate) fn make_at(&mut self, first: usize, vals: &[HeapVal]) -> Code
        ensures made { MakesAbove self.old.owned self.new.owned (turns_of self.old) first vals.now
            result }
        ensures steady { self.new.steady ≡ self.old.steady }
    {
        let turns = self.turns();
        owned::make_at(
            &self.heap,
            &mut self.seat,
            &mut self.sorts,
            &self.local,
            &self.sharing,
            &mut self.wait,
            turns,
            first,
            vals,
        )
    }

    /// Reads one field.
    pub(crate) fn read(&mut self, place: usize, field: usize) -> Result<Value, Code>
        ensures read { ReadsField self.old.owned.held self.new.owned.held place field result }
        ensures still { StillLocal self.old self.new }
    {
        owned::read(
            &self.heap,
            &mut self.seat,
            &mut self.sorts,
            &self.local,
            place,
            field,
        )
    }

    /// Reads all five, which are so many.
    pub(crate) fn read_all(&mut self, place: usize, five: usize) -> Result<[Value; 5], Code>
        ensures read { ReadsAllFields self.old.owned.held self.new.owned.held place five result }
        ensures still { StillLocal self.old self.new }
    {
        owned::read_all(
            &self.heap,
            &mut self.seat,
            &mut self.sorts,
            &self.local,
            place,
            five,
        )
    }

    /// Stores a value.
    pub(crate) fn write(&mut self, place: usize, field: usize, val: HeapVal) -> Code
        ensures wrote { WritesField (turns_of self.old) self.old.owned.held self.new.owned.held
            place field val result }
        ensures still { StillLocal self.old self.new }
    {
        let turns = self.turns();
        owned::write(
            &self.heap,
            &mut self.seat,
            &self.sorts,
            &self.local,
            turns,
            place,
            field,
            val,
        )
    }

    /// Exchanges a value.
    pub(crate) fn swap(&mut self, place: usize, field: usize, was: HeapVal, now: HeapVal) -> Code
        ensures swapped { SwapsField (turns_of self.old) self.old.owned.held self.new.owned.held
            place field was now result }
        ensures still { StillLocal self.old self.new }
    {
        let turns = self.turns();
        owned::swap(
            &self.heap,
            &mut self.seat,
            &self.sorts,
            &self.local,
            turns,
            place,
            field,
            was,
            now,
        )
    }

    /// Whether two places hold one cell.
    pub(crate) fn is_same(&mut self, one: usize, other: usize) -> Result<bool, Code>
        ensures same { ComparesPlaces self.old.owned.held self.new.owned.held one other
            result }
        ensures still { StillLocal self.old self.new }
    {
        owned::is_same(
            &self.heap,
            &mut self.seat,
            &self.sorts,
            &self.local,
            one,
            other,
        )
    }

    /// Whether it has room for private records.
    pub(crate) fn has_records(&self) -> bool
        ensures has { OnTrue result (1 ≤ self.now.owned.local.room) }
        ensures none { OnFalse result (self.now.owned.local.room ≡ 0) }
    {
        0 < self.local.spare() || 0 < self.local.len()
    }

    /// Gets room for so many private records, and for so many roots.
    pub(crate) fn give_records(
        &mut self,
        alloc: Global,
        records: u32,
        roots: u32,
    ) -> Result<(), NoMemory>
        requires out { self.old.owned.held.bound.seat.me.presence.inside ≡ false }
        ensures held { self.new.owned.held ≡ self.old.owned.held }
        ensures room { OnOk result (self.new.owned.local.room ≡ records) }
        ensures most { OnOk result (self.new.owned.local.most ≡ roots) }
        ensures empty { OnOk result (self.new.owned.local.records ≡ []) }
        ensures rootless { OnOk result (self.new.owned.local.roots ≡ []) }
        ensures unchanged { OnErr result (self.new ≡ self.old) }
        ensures steady { self.new.steady ≡ self.old.steady }
    {
        self.local = LocalRecords::with_room(alloc, records, roots as usize)?;
        Ok(())
    }

    /// Makes a private record.
    pub(crate) fn new_record(&mut self, kinds: u64, words: [u64; 5]) -> Result<HeapVal, Code>
        ensures made { MakesRecord (turns_of self.old) self.old.owned self.new.owned.local
            kinds words result }
        ensures held { self.new.owned.held ≡ self.old.owned.held }
        ensures steady { self.new.steady ≡ self.old.steady }
    {
        let turns = self.turns();
        records::make(
            &self.heap,
            &self.seat,
            &self.sorts,
            &mut self.local,
            turns,
            kinds,
            words,
        )
    }

    /// A field of a private record, or of the cell at a place.
    #[inline(always)]
    pub(crate) fn get(&mut self, of: HeapVal, field: usize) -> Result<HeapVal, Code>
        ensures got { GetsField self.old self.new of field result }
    {
        let turns = self.turns();
        if of.tag == REF {
            let Some(place) = turns.place(of.n) else {
                return Err(Code::BadPlace);
            };
            match self.read(place, field) {
                Ok(value) => Ok(val_of(turns, value)),
                Err(code) => Err(code),
            }
        } else {
            records::get(&self.seat, &self.local, turns, of, field)
        }
    }

    /// All five fields, which are so many.
    pub(crate) fn get_all(&mut self, of: HeapVal, five: usize) -> Result<[HeapVal; 5], Code>
        ensures got { GetsAllFields self.old self.new of five result }
    {
        let turns = self.turns();
        if of.tag == REF {
            let Some(place) = turns.place(of.n) else {
                return Err(Code::BadPlace);
            };
            match self.read_all(place, five) {
                Ok(values) => Ok(vals_of(turns, values)),
                Err(code) => Err(code),
            }
        } else {
            records::get_all(&self.seat, &self.local, turns, of, five)
        }
    }

    /// How many roots are kept.
    pub(crate) fn roots_len(&self) -> usize
        ensures count { result ≡ length self.now.owned.local.roots }
    {
        self.local.roots_len()
    }

    /// One more root.
    pub(crate) fn push(&mut self, val: HeapVal) -> Code
        ensures pushed { PushesRoot (turns_of self.old) self.old.owned self.new.owned.local
            val result }
        ensures held { self.new.owned.held ≡ self.old.owned.held }
        ensures steady { self.new.steady ≡ self.old.steady }
    {
        let turns = self.turns();
        rooting::push(
            &self.heap,
            &self.seat,
            &self.sorts,
            &mut self.local,
            turns,
            val,
        )
    }

    /// Lets the newest n roots go.
    pub(crate) fn pop(&mut self, n: usize) -> Code
        ensures popped { PopsRoots self.old.owned self.new.owned.local n result }
        ensures held { self.new.owned.held ≡ self.old.owned.held }
        ensures steady { self.new.steady ≡ self.old.steady }
    {
        rooting::pop(&self.heap, &self.seat, &self.sorts, &mut self.local, n)
    }

    /// A root.
    pub(crate) fn root(&mut self, i: usize) -> Result<HeapVal, Code>
        ensures told { TellsRoot (turns_of self.old) self.old.owned i result }
        ensures unchanged { self.new ≡ self.old }
    {
        let turns = self.turns();
        rooting::root(&self.heap, &self.seat, &self.sorts, &self.local, turns, i)
    }

    /// Another root in place of one.
    pub(crate) fn set(&mut self, i: usize, val: HeapVal) -> Code
        ensures set { SetsRoot (turns_of self.old) self.old.owned self.new.owned.local i val
            result }
        ensures held { self.new.owned.held ≡ self.old.owned.held }
        ensures steady { self.new.steady ≡ self.old.steady }
    {
        let turns = self.turns();
        rooting::set(
            &self.heap,
            &self.seat,
            &self.sorts,
            &mut self.local,
            turns,
            i,
            val,
        )
    }

    /// Keeps the first n places, and those that private records and roots name.
    pub(crate) fn release(&mut self, n: usize) -> Code
        ensures released { ReleasesPlaces self.old.owned self.new.owned n result }
        ensures steady { self.new.steady ≡ self.old.steady }
    {
        moving::release(&self.heap, &mut self.seat, &mut self.sorts, &self.local, n)
    }

    /// The place of the copy of a private record, for which so many copies are made at most.
    pub(crate) fn promote(&mut self, val: HeapVal, most: usize) -> Result<usize, Code>
        ensures promoted { PromotesRecord self.old.owned self.new.owned val most result }
        ensures steady { self.new.steady ≡ self.old.steady }
    {
        let mut cells = FreeCells::new(&self.sharing, self.wait);
        let copy = moving::promote(
            &self.heap,
            &mut self.seat,
            &mut self.sorts,
            &mut self.local,
            &mut self.copied,
            &mut cells,
            val,
            most,
        );
        self.wait = cells.wait;
        copy
    }

    /// Copies private records that the roots lead to, and at most so many.
    pub(crate) fn share(&mut self, base: usize, most: usize) -> Code
        ensures shared { SharesRoots self.old.owned self.new.owned base most result }
        ensures steady { Steadies base self.old self.new }
    {
        let turns = self.turns();
        let mut cells = FreeCells::new(&self.sharing, self.wait);
        let code = moving::share(
            &self.heap,
            &mut self.seat,
            &mut self.sorts,
            &mut self.local,
            &mut self.copied,
            &mut cells,
            base,
            most,
        );
        self.wait = cells.wait;
        self.steady = turns.steady_after(self.turns().turn, base);
        code
    }

    /// Makes room for so many more private records and places, by one step.
    pub(crate) fn reserve(&mut self, base: usize, records: u32, places: usize) -> Code
        ensures reserved { MakesRoom self.old.owned self.new.owned base records places result }
        ensures steady { Steadies base self.old self.new }
    {
        let turns = self.turns();
        let mut cells = FreeCells::new(&self.sharing, self.wait);
        let code = moving::reserve(
            &self.heap,
            &mut self.seat,
            &mut self.sorts,
            &mut self.local,
            &mut self.copied,
            &mut cells,
            base,
            records,
            places,
        );
        self.wait = cells.wait;
        self.steady = turns.steady_after(self.turns().turn, base);
        code
    }

    /// Is over: the collector waits for it no more.
    pub(crate) fn finish(self)
        requires out { self.owned.held.bound.seat.me.presence.inside ≡ false }
    {
        let Mine { heap, mut seat, .. } = self;
        operations::finish(&heap, &mut seat);
    }
}
