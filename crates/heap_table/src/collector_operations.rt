//! The operations of the collector's seat. Each is one step of the table, and the event that its
//! caller means.
ghost use Rattle.std.specs.Prelude.{◌≡◌, ◌<◌, None};
ghost use Rattle.core_machine.specs.Next.{maker};
ghost use Rattle.core_machine.specs.WordOperations.{left_by, Load, Store, Exchange};
ghost use Rattle.heap_rule.specs.Asks.{told_by};
ghost use Rattle.heap_rule.specs.Steps.{AtCollectorStep, CollectorOwes};
ghost use Rattle.heap_rule.specs.declared.view.Role.TheVariants as role;
ghost use Rattle.heap_table.specs.Joined.{JoinedIsOver};
ghost use Rattle.heap_table.specs.Seats.{words_many};

use crate::heap::{CellHeap, HeapSeat};
use crate::steps::{CollectorLook, CollectorStep, Intent};
use core_machine::Event;
use heap_rule::Keeping;

impl<P: Keeping> CellHeap<P> {
    /// Loads a word.
    pub fn collector_load<E: Intent<P>>(
        &self,
        seat: &mut HeapSeat<P>,
        event: Event,
        word: usize,
    ) -> u64
        requires seat { (seat.old.table ≡ self.now.table) × (seat.old.me.role ≡ role.Collector) }
        requires word { word < words_many self.now.shape }
        requires made { maker E.event ≡ None }
        requires kind { CollectorOwes P.fixed seat.old.me E.event word (left_by Load) (told_by Load) }
        ensures same { seat.new.table ≡ seat.old.table }
        ensures step { AtCollectorStep P.fixed seat.old.me E.event result seat.new.me }
        ensures joined { JoinedIsOver seat.old.me word result }
    {
        let _ = event;
        self.table
            .shared
            .load::<CollectorLook<E>>(&mut seat.seat, word)
    }

    /// Stores a number in a word.
    pub fn collector_store<E: Intent<P>>(
        &self,
        seat: &mut HeapSeat<P>,
        event: Event,
        word: usize,
        new: u64,
    )
        requires seat { (seat.old.table ≡ self.now.table) × (seat.old.me.role ≡ role.Collector) }
        requires word { word < words_many self.now.shape }
        requires made { maker E.event ≡ None }
        requires kind { CollectorOwes P.fixed seat.old.me E.event word (left_by (Store new)) (told_by (Store new)) }
        ensures same { seat.new.table ≡ seat.old.table }
        ensures step { AtCollectorStep P.fixed seat.old.me E.event new seat.new.me }
    {
        let _ = event;
        self.table
            .shared
            .store::<CollectorStep<E>>(&mut seat.seat, word, new);
    }

    /// Exchanges the number in a word for `new`, where it finds `old`. It gives the number found.
    pub fn collector_exchange<E: Intent<P>>(
        &self,
        seat: &mut HeapSeat<P>,
        event: Event,
        word: usize,
        old: u64,
        new: u64,
    ) -> u64
        requires seat { (seat.old.table ≡ self.now.table) × (seat.old.me.role ≡ role.Collector) }
        requires word { word < words_many self.now.shape }
        requires made { maker E.event ≡ None }
        requires kind { CollectorOwes P.fixed seat.old.me E.event word (left_by (Exchange old new)) (told_by (Exchange old new)) }
        ensures same { seat.new.table ≡ seat.old.table }
        ensures step { AtCollectorStep P.fixed seat.old.me E.event result seat.new.me }
        ensures joined { JoinedIsOver seat.old.me word result }
    {
        let _ = event;
        self.table
            .shared
            .compare_exchange::<CollectorLook<E>>(&mut seat.seat, word, old, new)
    }
}
