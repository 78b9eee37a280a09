//! What a thread knows of the queue, the rule of all such views, and how each call changes its own.
//!
//! The rule ties the views to what the queue holds: each number is below the number of cells, and a
//! pass that is the only one knows the numbers themselves, in order.
ghost use Rattle.std.specs.Prelude.{◌≡◌, ◌<◌, ℕ};

use crossbeam_queue::Pass;
use crossbeam_queue::protocol::{Lesson, Outcome, Protocol, Split};
use std::collections::LinkedList;
use std::marker::{Brand, PhantomData};

/// What a pass knows of the queue and has done there. No value of it is made.
pub struct Counts {
    /// how many cells there are; 0 of a pass that is not in use
    pub cells: u32,
    /// what the queue holds, the front first, as long as no other pass was split off
    pub content: Option<LinkedList<u32>>,
    pub pushes: u64,
    pub pops: u64,
    /// how often `put` was called, whatever it answered
    pub puts: u64,
    /// how often `take` was called, whatever it answered
    pub takes: u64,
}

/// A thread's right to use a queue of hints, with its counts. It takes no room at run time.
pub type HintPass = Pass<u32, Counts>;

/// The rule: each number in the queue is below the number of cells.
pub struct Below;

impl Protocol<u32, Counts> for Below {
    ghost use Rattle.free_cells.specs.Counts.{opened};
    ghost use Rattle.free_cells.specs.Below.{IsBelow};

    ghost holds = { IsBelow };

    ghost first = { opened 0 };
}

/// How many cells there are, picked where a queue is opened.
pub trait Opening {
    ghost cells: { ℕ };
}

impl Opening for Brand {
    ghost cells = { 0 };
}

/// The only pass learns how many cells there are. The pass split off is never used.
pub struct Opens<S> {
    opening: PhantomData<S>,
}

impl<S: Opening> Split<Counts> for Opens<S> {
    ghost use Rattle.free_cells.specs.Counts.{opened, unused};

    ghost left = { λ counts. opened S.cells };

    ghost right = { λ counts. unused };
}

/// One more pass, with counts of its own. From now on neither knows what the queue holds.
pub struct Splits;

impl Split<Counts> for Splits {
    ghost use Rattle.free_cells.specs.Counts.{shared, begun};

    ghost left = { shared };

    ghost right = { begun };
}

/// A `put` that found no room is counted. The pass split off is never used.
pub struct PutRefused;

impl Split<Counts> for PutRefused {
    ghost use Rattle.free_cells.specs.Counts.{put_refused, unused};

    ghost left = { put_refused };

    ghost right = { λ counts. unused };
}

/// A `take` that found no number is counted. The pass split off is never used.
pub struct NoneTaken;

impl Split<Counts> for NoneTaken {
    ghost use Rattle.free_cells.specs.Counts.{none_taken, unused};

    ghost left = { none_taken };

    ghost right = { λ counts. unused };
}

/// A number joined at the back while the queue was filled.
pub struct Filled;

impl Outcome<u32, Counts> for Filled {
    ghost use Rattle.free_cells.specs.Counts.{pushed};

    ghost then = { λ counts cell after. after ≡ pushed cell counts };
}

/// A number joined at the back by `put`.
pub struct Put;

impl Outcome<u32, Counts> for Put {
    ghost use Rattle.free_cells.specs.Counts.{put};

    ghost then = { λ counts cell after. after ≡ put cell counts };
}

/// A number left at the front by `take`.
pub struct Taken;

impl Outcome<u32, Counts> for Taken {
    ghost use Rattle.free_cells.specs.Counts.{taken, IsFront};

    ghost then = { λ counts cell after. (cell < counts.cells) × IsFront cell counts.content
        × (after ≡ taken counts) };
}

impl Lesson<u32, Counts> for Filled {
    ghost use Rattle.free_cells.specs.Counts.{IsContent};

    ghost fact = { λ counts items. IsContent counts.content items };
}

impl Lesson<u32, Counts> for Put {
    ghost use Rattle.free_cells.specs.Counts.{IsContent};

    ghost fact = { λ counts items. IsContent counts.content items };
}

impl Lesson<u32, Counts> for Taken {
    ghost use Rattle.free_cells.specs.Counts.{IsContent};

    ghost fact = { λ counts items. IsContent counts.content items };
}
