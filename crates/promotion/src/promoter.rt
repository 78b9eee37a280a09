//! The memory that copying needs, and the two calls that copy.
ghost use Rattle.std.specs.Prelude.{◌≡◌, ◌≤◌, ◌+◌, ◌∷◌, All, IfErr, IfOk, OnErr, OnOk, [], length, true};
ghost use Rattle.free_cells.specs.Hints.{counts_of, queue_of};
ghost use Rattle.minor_heap.specs.Nursery.{Stands};
ghost use Rattle.promotion.specs.Hinting.{Hinted};
ghost use Rattle.promotion.specs.Linking.{KeepsCopies, LinksNothing};
ghost use Rattle.promotion.specs.Promoting.{Adds, Collected, Promoted, Refused};
ghost use Rattle.promotion.specs.Sharing.{ShareRecords};

use crate::copying::{copy_reached, give_back, hold_roots};
use free_cells::Hints;
use heap_rule::Keeping;
use minor_heap::{MinorHeap, MinorRef};
use mutator_seat::{HeapFull, Mutator};
pub use std::alloc::AllocError as NoMemory;
use std::alloc::Global;
use std::marker::Model;
use std::sync::Wait;

/// Memory for the copying of so many records. Contracts see it as their number.
pub struct Promoter {
    room: u32,
    /// by record, whether it is reached; between calls no record is marked
    marks: Vec<bool>,
    /// by record, the hint that was taken for its copy
    taken: Vec<Option<u32>>,
    /// by record, the place of its copy
    places: Vec<usize>,
}

impl Drop for Promoter {
    fn drop(self) {
        let Promoter {
            room: _,
            marks: _marks,
            taken: _taken,
            places: _places,
        } = self;
    }
}

impl Model for Promoter {
    ghost use Rattle.std.specs.Prelude.{ℕ};
    ghost use Rattle.promotion.specs.Ready.{IsReadyFor};

    ghost Value = { ℕ };

    ghost view = { λ p. p.room };

    ghost invariant = { λ p. IsReadyFor p.room p.marks.items p.taken.items p.places.items };
}

impl Promoter {
    /// Reserves the memory for copying so many records. All of it is taken here.
    pub fn with_room(alloc: Global, records: u32) -> Result<Promoter, NoMemory>
        ensures room { IfOk result (λ promoter. promoter ≡ records) }
    {
        Ok(Promoter {
            room: records,
            marks: Vec::from_elem(alloc, false, records as usize)?,
            taken: Vec::from_elem(alloc, None, records as usize)?,
            places: Vec::from_elem(alloc, 0, records as usize)?,
        })
    }

    /// Copies a record and all that it reaches, each record once, the oldest first. The copy is
    /// held at the end of the held list; the answer is its place.
    pub fn promote<P: Keeping, R: Wait>(
        &mut self,
        rt: &R,
        hints: &mut Hints<'_>,
        m: &mut Mutator<'_, P>,
        minor: &MinorHeap,
        r: MinorRef,
    ) -> Result<usize, HeapFull>
        requires inside { m.old.seat.me.presence.inside ≡ true }
        requires stands { Stands minor.now.records r }
        requires shares { ShareRecords m.old.seat.me.known minor.now.records (r ∷ []) }
        requires fits { length minor.now.records ≤ self.old }
        requires room { length m.old.seat.me.own.held + length minor.now.records
            ≤ m.old.seat.me.room }
        ensures promoted { OnOk result (Promoted m.old minor.now.records r m.new) }
        ensures place { IfOk result (λ place. place ≡ length m.old.seat.me.own.held) }
        ensures copies { OnOk result (Adds (KeepsCopies m.old.seat.me.number
            (length m.old.seat.me.own.held) (length m.old.seat.me.own.held)) m.old m.new) }
        ensures hinted { OnOk result
            (Hinted m.old minor.now.records (r ∷ []) hints.old hints.new m.new) }
        ensures full { IfErr result (λ full. Refused m.old full m.new) }
        ensures unlinked { OnErr result (Adds (LinksNothing m.old.seat.me.number
            (length m.old.seat.me.own.held)) m.old m.new) }
        ensures room { self.new ≡ self.old }
        ensures queue { queue_of hints.new ≡ queue_of hints.old }
        ensures takes { (counts_of hints.old).takes ≤ (counts_of hints.new).takes }
    {
        let held = m.held_len();
        let marks = self.marks.as_mut_slice();
        let taken = self.taken.as_mut_slice();
        let places = self.places.as_mut_slice();
        match copy_reached(rt, hints, m, minor, &[r], marks, taken, places) {
            Ok(()) => {
                let place = places[r.number as usize];
                m.keep(held, place, 1);
                Ok(held)
            }
            Err(full) => {
                give_back(m, held);
                Err(full)
            }
        }
    }

    /// Copies all that the roots reach, each record once, the oldest first, and empties the private
    /// heap. Of the held list the first `base` places stay, and the copies of the roots are held
    /// after them; the answer is the place of the first copy.
    pub fn collect<P: Keeping, R: Wait>(
        &mut self,
        rt: &R,
        hints: &mut Hints<'_>,
        m: &mut Mutator<'_, P>,
        minor: &mut MinorHeap,
        roots: &[MinorRef],
        base: usize,
    ) -> Result<usize, HeapFull>
        requires inside { m.old.seat.me.presence.inside ≡ true }
        requires some { 1 ≤ base }
        requires base { base ≤ length m.old.seat.me.own.held }
        requires stand { All (Stands minor.old.records) roots.now }
        requires shares { ShareRecords m.old.seat.me.known minor.old.records roots.now }
        requires fits { length minor.old.records ≤ self.old }
        requires room { length m.old.seat.me.own.held + length minor.old.records + length roots.now
            ≤ m.old.seat.me.room }
        ensures collected { OnOk result (Collected m.old minor.old.records roots.now base m.new) }
        ensures base { IfOk result (λ first. first ≡ base) }
        ensures emptied { OnOk result (minor.new.records ≡ []) }
        ensures copies { OnOk result (Adds (KeepsCopies m.old.seat.me.number base
            (length m.old.seat.me.own.held)) m.old m.new) }
        ensures hinted { OnOk result
            (Hinted m.old minor.old.records roots.now hints.old hints.new m.new) }
        ensures full { IfErr result (λ full. Refused m.old full m.new) }
        ensures unlinked { OnErr result (Adds (LinksNothing m.old.seat.me.number
            (length m.old.seat.me.own.held)) m.old m.new) }
        ensures unchanged { OnErr result (minor.new.records ≡ minor.old.records) }
        ensures minor_room { minor.new.room ≡ minor.old.room }
        ensures room { self.new ≡ self.old }
        ensures queue { queue_of hints.new ≡ queue_of hints.old }
        ensures takes { (counts_of hints.old).takes ≤ (counts_of hints.new).takes }
    {
        let held = m.held_len();
        let marks = self.marks.as_mut_slice();
        let taken = self.taken.as_mut_slice();
        let places = self.places.as_mut_slice();
        match copy_reached(rt, hints, m, minor, roots, marks, taken, places) {
            Ok(()) => {
                let first = m.held_len();
                hold_roots(m, places, roots);
                m.keep(base, first, roots.len());
                minor.clear();
                Ok(base)
            }
            Err(full) => {
                give_back(m, held);
                Err(full)
            }
        }
    }
}
