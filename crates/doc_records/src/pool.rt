//! Where records stand: what a pool offers, and what it needs for it.
ghost use Rattle.std.specs.Prelude.{◌≡◌, ◌+◌, ◌≤◌, ◌<◌, ◌^◌, ℕ, Bool, true};
ghost use Rattle.cell_words.specs.Term.{five, part, IsFive};
ghost use Rattle.trails.specs.Telling.{Tells};
ghost use Rattle.doc_records.specs.Pool.{Shown, Later, Kept, Stands, IsOn, PartOn};
ghost use Rattle.doc_records.specs.Pool.{part_term, places_of, own_place, is_shared, ask_part};

/// What a field of a record is.
#[derive(Clone, Copy)]
pub enum Part<At> {
    Null,
    /// a number below 2^62
    Num(u64),
    Record(At),
}

/// A pool of records that never change: some are shared and stand at places of a held list, others
/// are private.
pub trait RecordPool {
    type At: Copy;

    /// What a pool says besides its records: of a pool that borrows what it fills, what no call
    /// changes of that, and what is known of the places that are held.
    ghost Fact: { Type 0 };

    ghost shown: { Self → Shown Self.At Fact };

    /// The record is shared, and so is all that it leads to.
    ghost shared: { Self.At → Bool };

    /// A field of a record. A shared record that it names is held from then on.
    fn read(&mut self, at: Self::At, index: usize) -> Part<Self::At>
        requires stands { (shown self.old).stands (shown self.old).held at }
        requires range { index < 5 }
        requires place { (shown self.old).held < (shown self.old).room }
        ensures part { part_term (shown self.new).term result
            ≡ part index ((shown self.old).term at) }
        ensures record { IsFive ((shown self.old).term at) }
        ensures stands { Stands (shown self.new) result }
        ensures later { Later (shown self.old) (shown self.new) }
        ensures held { (shown self.new).held ≤ (shown self.old).held + places_of result }
        ensures records { (shown self.new).records ≡ (shown self.old).records }
        ensures shared { shared at ≡ true → is_shared shared result ≡ true }
        ensures on { (places : ℕ) → places ≤ (shown self.old).held
            → IsOn shared (shown self.old) places at → PartOn shared (shown self.new) places result }
        ensures told { shared at ≡ true
            → Tells (ask_part result) (shown self.old).marks (shown self.new).marks };

    /// A new private record.
    fn make(
        &mut self,
        first: Part<Self::At>,
        second: Part<Self::At>,
        third: Part<Self::At>,
        fourth: Part<Self::At>,
        fifth: Part<Self::At>,
    ) -> Self::At
        requires first { Stands (shown self.old) first }
        requires second { Stands (shown self.old) second }
        requires third { Stands (shown self.old) third }
        requires fourth { Stands (shown self.old) fourth }
        requires fifth { Stands (shown self.old) fifth }
        requires records { 1 ≤ (shown self.old).records }
        ensures term { (shown self.new).term result ≡ five
            (part_term (shown self.old).term first) (part_term (shown self.old).term second)
            (part_term (shown self.old).term third) (part_term (shown self.old).term fourth)
            (part_term (shown self.old).term fifth) }
        ensures stands { (shown self.new).stands (shown self.new).held result }
        ensures later { Later (shown self.old) (shown self.new) }
        ensures held { (shown self.new).held ≡ (shown self.old).held }
        ensures records { (shown self.old).records ≡ (shown self.new).records + 1 };

    /// How many places are held.
    fn held(&self) -> usize
        ensures held { result ≡ (shown self.now).held }
        ensures some { 1 ≤ result }
        ensures few { (shown self.now).records ≤ 2 ^ 32 };

    /// Gives back all places but the first so many.
    fn cut(&mut self, places: usize)
        requires some { 1 ≤ places }
        requires held { places ≤ (shown self.old).held }
        ensures kept { Kept places (shown self.old) (shown self.new) }
        ensures held { (shown self.new).held ≡ places }
        ensures records { (shown self.new).records ≡ (shown self.old).records };

    /// Gives back all places but the first so many, and keeps this record. A shared one then stands
    /// at the end.
    fn keep(&mut self, places: usize, at: Self::At) -> Self::At
        requires some { 1 ≤ places }
        requires held { places ≤ (shown self.old).held }
        requires room { places < (shown self.old).room }
        requires stands { (shown self.old).stands (shown self.old).held at }
        requires on { IsOn shared (shown self.old) places at }
        ensures kept { Kept places (shown self.old) (shown self.new) }
        ensures term { (shown self.new).term result ≡ (shown self.old).term at }
        ensures stands { (shown self.new).stands (shown self.new).held result }
        ensures shared { shared result ≡ shared at }
        ensures last { shared result ≡ true
            → (n : ℕ) → (shown self.new).stands n result → places < n }
        ensures held { (shown self.new).held ≡ places + own_place (shared at) }
        ensures records { (shown self.new).records ≡ (shown self.old).records };
}
