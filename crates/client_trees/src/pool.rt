//! A client's private records and the cells that its mutator holds, as one pool of records. Both
//! are borrowed, so that a session can use either between two trees.
ghost use Rattle.std.specs.Prelude.{◌≡◌, ◌+◌, ◌≤◌};
ghost use Rattle.cell_words.specs.Term.{five};
ghost use Rattle.doc_records.specs.Pool.{Later, Stands, part_term};
ghost use Rattle.client_trees.specs.Records.{field_of, part_read, shown_by};

use crate::at::NodeAt;
use crate::records::ClientRecords;
use crate::seat::ClientSeat;
use doc_records::{Part, RecordPool};
use minor_heap::MinorField;

impl<'a, M: ClientSeat> RecordPool for ClientRecords<'a, M> {
    ghost use Rattle.client_trees.specs.Records.{ClientFact, is_shared, shown_by};

    type At = NodeAt;

    ghost Fact = { ClientFact M.Pass };

    ghost shown = { λ r. shown_by (M.bound r.mutator.now) r.minor.now
        (r.mutator.ghost_name, r.minor.ghost_name) };

    ghost shared = { is_shared };

    #[inline(always)]
    fn read(&mut self, at: NodeAt, index: usize) -> Part<NodeAt> {
        // As many places are known as are held, and a record names only older ones.
        let _held = self.mutator.held_count();
        let _records = self.minor.len();
        match at {
            NodeAt::Shared(place) => self.mutator.read_part(place, index),
            NodeAt::Minor(r) => part_read(self.minor.field(r, index)),
        }
    }

    #[inline(always)]
    fn make(
        &mut self,
        first: Part<NodeAt>,
        second: Part<NodeAt>,
        third: Part<NodeAt>,
        fourth: Part<NodeAt>,
        fifth: Part<NodeAt>,
    ) -> NodeAt
        requires first { Stands (shown_by (M.bound self.old.mutator.now) self.old.minor.now (self.old.mutator.ghost_name, self.old.minor.ghost_name)) first }
        requires second { Stands (shown_by (M.bound self.old.mutator.now) self.old.minor.now (self.old.mutator.ghost_name, self.old.minor.ghost_name)) second }
        requires third { Stands (shown_by (M.bound self.old.mutator.now) self.old.minor.now (self.old.mutator.ghost_name, self.old.minor.ghost_name)) third }
        requires fourth { Stands (shown_by (M.bound self.old.mutator.now) self.old.minor.now (self.old.mutator.ghost_name, self.old.minor.ghost_name)) fourth }
        requires fifth { Stands (shown_by (M.bound self.old.mutator.now) self.old.minor.now (self.old.mutator.ghost_name, self.old.minor.ghost_name)) fifth }
        requires records { 1 ≤ (shown_by (M.bound self.old.mutator.now) self.old.minor.now
            (self.old.mutator.ghost_name, self.old.minor.ghost_name)).records }
        ensures term { (shown_by (M.bound self.new.mutator.now) self.new.minor.now
            (self.new.mutator.ghost_name, self.new.minor.ghost_name)).term result ≡ five
            (part_term (shown_by (M.bound self.old.mutator.now) self.old.minor.now (self.old.mutator.ghost_name, self.old.minor.ghost_name)).term first) (part_term (shown_by (M.bound self.old.mutator.now) self.old.minor.now (self.old.mutator.ghost_name, self.old.minor.ghost_name)).term second)
            (part_term (shown_by (M.bound self.old.mutator.now) self.old.minor.now (self.old.mutator.ghost_name, self.old.minor.ghost_name)).term third) (part_term (shown_by (M.bound self.old.mutator.now) self.old.minor.now (self.old.mutator.ghost_name, self.old.minor.ghost_name)).term fourth)
            (part_term (shown_by (M.bound self.old.mutator.now) self.old.minor.now (self.old.mutator.ghost_name, self.old.minor.ghost_name)).term fifth) }
        ensures stands { (shown_by (M.bound self.new.mutator.now) self.new.minor.now (self.new.mutator.ghost_name, self.new.minor.ghost_name)).stands (shown_by (M.bound self.new.mutator.now) self.new.minor.now (self.new.mutator.ghost_name, self.new.minor.ghost_name)).held result }
        ensures later { Later (shown_by (M.bound self.old.mutator.now) self.old.minor.now (self.old.mutator.ghost_name, self.old.minor.ghost_name)) (shown_by (M.bound self.new.mutator.now) self.new.minor.now (self.new.mutator.ghost_name, self.new.minor.ghost_name)) }
        ensures held { (shown_by (M.bound self.new.mutator.now) self.new.minor.now
            (self.new.mutator.ghost_name, self.new.minor.ghost_name)).held
            ≡ (shown_by (M.bound self.old.mutator.now) self.old.minor.now
            (self.old.mutator.ghost_name, self.old.minor.ghost_name)).held }
        ensures records { (shown_by (M.bound self.old.mutator.now) self.old.minor.now
            (self.old.mutator.ghost_name, self.old.minor.ghost_name)).records
            ≡ (shown_by (M.bound self.new.mutator.now) self.new.minor.now
            (self.new.mutator.ghost_name, self.new.minor.ghost_name)).records + 1 }
    {
        let _records = self.minor.len();
        let fields = [
            field_of(first),
            field_of(second),
            field_of(third),
            field_of(fourth),
            field_of(fifth),
        ];
        match self.minor.make(fields) {
            Ok(made) => NodeAt::Minor(made),
            Err(_) => unreachable!(),
        }
    }

    #[inline(always)]
    fn held(&self) -> usize {
        let _spare = self.minor.spare();
        self.mutator.held_count()
    }

    #[inline(always)]
    fn cut(&mut self, places: usize) {
        let _held = self.mutator.held_count();
        let _records = self.minor.len();
        self.mutator.cut_to(places);
    }

    #[inline(always)]
    fn keep(&mut self, places: usize, at: NodeAt) -> NodeAt {
        let _held = self.mutator.held_count();
        let _records = self.minor.len();
        match at {
            NodeAt::Shared(place) => {
                self.mutator.keep_one(places, place);
                NodeAt::Shared(places)
            }
            NodeAt::Minor(r) => {
                self.mutator.cut_to(places);
                NodeAt::Minor(r)
            }
        }
    }
}

/// What a field of a private record gave.
#[inline(always)]
fn part_read(field: MinorField) -> Part<NodeAt>
    ensures { result ≡ part_read field }
{
    match field {
        MinorField::Null => Part::Null,
        MinorField::Num(number) => Part::Num(number),
        MinorField::Minor(older) => Part::Record(NodeAt::Minor(older)),
        MinorField::Shared(place) => Part::Record(NodeAt::Shared(place)),
    }
}

/// A part as a field of a private record.
#[inline(always)]
fn field_of(part: Part<NodeAt>) -> MinorField
    ensures { result ≡ field_of part }
{
    match part {
        Part::Null => MinorField::Null,
        Part::Num(number) => MinorField::Num(number),
        Part::Record(NodeAt::Shared(place)) => MinorField::Shared(place),
        Part::Record(NodeAt::Minor(r)) => MinorField::Minor(r),
    }
}
