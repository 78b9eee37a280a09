//! The operations of a mutator's seat. Each is one step of the table, and the event that its
//! caller means.
ghost use Rattle.std.specs.Prelude.{◌≡◌, ◌<◌, Some};
ghost use Rattle.core_machine.specs.Next.{maker};
ghost use Rattle.core_machine.specs.WordOperations.{left_by, Load, Store, Exchange, SetBits, KeepBits};
ghost use Rattle.heap_rule.specs.Asks.{told_by};
ghost use Rattle.heap_rule.specs.Steps.{AtStep, Owes, StandsBy};
ghost use Rattle.heap_rule.specs.declared.view.Role.TheVariants as role;
ghost use Rattle.heap_table.specs.Seats.{words_many};

use crate::heap::{CellHeap, HeapSeat};
use crate::steps::{Intent, MutatorStep};
use core_machine::Event;
use heap_rule::Keeping;

impl<P: Keeping> CellHeap<P> {
    /// Loads a word.
    pub fn mutator_load<E: Intent<P>>(
        &self,
        seat: &mut HeapSeat<P>,
        event: Event,
        word: usize,
    ) -> u64
        requires seat { (seat.old.table ≡ self.now.table) × (seat.old.me.role ≡ role.Mutator) }
        requires word { word < words_many self.now.shape }
        requires made { maker E.event ≡ Some seat.old.me.number }
        requires kind { Owes P.fixed seat.old.me E.event word (left_by Load) (told_by Load) }
        requires rule { StandsBy P.holds P.fixed E.next seat.old.me E.event }
        ensures same { seat.new.table ≡ seat.old.table }
        ensures step { AtStep P.holds P.fixed seat.old.me E.event E.next result seat.new.me }
    {
        let _ = event;
        self.table
            .shared
            .load::<MutatorStep<E>>(&mut seat.seat, word)
    }

    /// Stores a number in a word.
    pub fn mutator_store<E: Intent<P>>(
        &self,
        seat: &mut HeapSeat<P>,
        event: Event,
        word: usize,
        new: u64,
    )
        requires seat { (seat.old.table ≡ self.now.table) × (seat.old.me.role ≡ role.Mutator) }
        requires word { word < words_many self.now.shape }
        requires made { maker E.event ≡ Some seat.old.me.number }
        requires kind { Owes P.fixed seat.old.me E.event word (left_by (Store new)) (told_by (Store new)) }
        requires rule { StandsBy P.holds P.fixed E.next seat.old.me E.event }
        ensures same { seat.new.table ≡ seat.old.table }
        ensures step { AtStep P.holds P.fixed seat.old.me E.event E.next new seat.new.me }
    {
        let _ = event;
        self.table
            .shared
            .store::<MutatorStep<E>>(&mut seat.seat, word, new);
    }

    /// Exchanges the number in a word for `new`, where it finds `old`. It gives the number found.
    pub fn mutator_exchange<E: Intent<P>>(
        &self,
        seat: &mut HeapSeat<P>,
        event: Event,
        word: usize,
        old: u64,
        new: u64,
    ) -> u64
        requires seat { (seat.old.table ≡ self.now.table) × (seat.old.me.role ≡ role.Mutator) }
        requires word { word < words_many self.now.shape }
        requires made { maker E.event ≡ Some seat.old.me.number }
        requires kind { Owes P.fixed seat.old.me E.event word (left_by (Exchange old new)) (told_by (Exchange old new)) }
        requires rule { StandsBy P.holds P.fixed E.next seat.old.me E.event }
        ensures same { seat.new.table ≡ seat.old.table }
        ensures step { AtStep P.holds P.fixed seat.old.me E.event E.next result seat.new.me }
    {
        let _ = event;
        self.table
            .shared
            .compare_exchange::<MutatorStep<E>>(&mut seat.seat, word, old, new)
    }

    /// Sets bits of a word. It gives the number found.
    pub fn mutator_set_bits<E: Intent<P>>(
        &self,
        seat: &mut HeapSeat<P>,
        event: Event,
        word: usize,
        bits: u64,
    ) -> u64
        requires seat { (seat.old.table ≡ self.now.table) × (seat.old.me.role ≡ role.Mutator) }
        requires word { word < words_many self.now.shape }
        requires made { maker E.event ≡ Some seat.old.me.number }
        requires kind { Owes P.fixed seat.old.me E.event word (left_by (SetBits bits)) (told_by (SetBits bits)) }
        requires rule { StandsBy P.holds P.fixed E.next seat.old.me E.event }
        ensures same { seat.new.table ≡ seat.old.table }
        ensures step { AtStep P.holds P.fixed seat.old.me E.event E.next result seat.new.me }
    {
        let _ = event;
        self.table
            .shared
            .fetch_or::<MutatorStep<E>>(&mut seat.seat, word, bits)
    }

    /// Clears all bits of a word but these. It gives the number found.
    pub fn mutator_keep_bits<E: Intent<P>>(
        &self,
        seat: &mut HeapSeat<P>,
        event: Event,
        word: usize,
        bits: u64,
    ) -> u64
        requires seat { (seat.old.table ≡ self.now.table) × (seat.old.me.role ≡ role.Mutator) }
        requires word { word < words_many self.now.shape }
        requires made { maker E.event ≡ Some seat.old.me.number }
        requires kind { Owes P.fixed seat.old.me E.event word (left_by (KeepBits bits)) (told_by (KeepBits bits)) }
        requires rule { StandsBy P.holds P.fixed E.next seat.old.me E.event }
        ensures same { seat.new.table ≡ seat.old.table }
        ensures step { AtStep P.holds P.fixed seat.old.me E.event E.next result seat.new.me }
    {
        let _ = event;
        self.table
            .shared
            .fetch_and::<MutatorStep<E>>(&mut seat.seat, word, bits)
    }
}
