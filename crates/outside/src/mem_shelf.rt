ghost use Rattle.std.specs.Prelude.{◌≡◌, ℕ, ◌+◌, ◌<◌, ◌≤◌, ◌⊎◌, ◌↔◌, None, length, Contains, IsErr};
ghost use Rattle.std.specs.Prelude.{IfErr, IfOk, IfSome, OnOk, OnErr, is_ok, IsErrOf, IsSome};
ghost use Rattle.std.specs.Prelude.{◌-◌, ◌^◌, IsNone, min};
ghost use Rattle.std.specs.Io.{ReadsAtMost};
ghost use Rattle.std.specs.Io.KnownBytes.{ReadConsumes, Consumes};
ghost use Rattle.outside.specs.Calls.{after_call, IsUnbroken};
ghost use Rattle.outside.specs.Causes.{Rose, next_count};
ghost use Rattle.outside.specs.Named.{files_of, content_named};
ghost use Rattle.outside.specs.Memory.{after_open, after_failed_open, after_read};
ghost use Rattle.outside.specs.Memory.{after_failed_read};

use crate::course::Course;
use crate::fault::OutFault;
use crate::named_files::{Place, index_of, read_at};
use crate::reading::Shelf;
use std::marker::Model;

/// A shelf in memory that fails at chosen calls, for tests and for what is proved of failures.
///
/// Its calls of `open` and `read` are numbered together, from 1. A call of `read` gives at most a
/// chosen number of bytes.
pub struct MemShelf {
    files: Vec<(String, Vec<u8>)>,
    place: Option<Place>,
    most: usize,
    failing: Vec<u64>,
    calls: u64,
    opens: u64,
    faults: u64,
    course: Course,
}

impl Drop for MemShelf {
    fn drop(self) {
        let MemShelf {
            files: _files,
            place: _,
            most: _,
            failing: _failing,
            calls: _,
            opens: _,
            faults: _,
            course: _,
        } = self;
    }
}

impl Model for MemShelf {
    ghost use Rattle.std.specs.Prelude.{◌≤◌};
    ghost use Rattle.outside.specs.Memory.{ShelfState};
    ghost use Rattle.outside.specs.Named.{files_of, left_of};

    ghost Value = { ShelfState };

    ghost view = { λ s. record {
      files = files_of s.files.items;
      most = s.most;
      failing = s.failing.items;
      calls = s.calls;
      opens = s.opens;
      faults = s.faults;
      course = s.course;
      left = left_of (files_of s.files.items) s.place;
    } };

    ghost invariant = { λ s. 1 ≤ s.most };
}

impl MemShelf {
    /// A shelf of these names and contents, whose calls with these numbers fail.
    pub fn new(files: Vec<(String, Vec<u8>)>, failing: Vec<u64>) -> MemShelf
        ensures files { result.files ≡ files_of files.items }
        ensures most { result.most ≡ 2 ^ 64 - 1 }
        ensures failing { result.failing ≡ failing.items }
        ensures unused { (result.calls ≡ 0) × (result.opens ≡ 0) × (result.faults ≡ 0) }
        ensures unbroken { IsUnbroken result.course }
        ensures closed { result.left ≡ None }
    {
        MemShelf::short(files, usize::MAX, failing)
    }

    /// The same, where a call of `read` gives at most so many bytes.
    pub fn short(files: Vec<(String, Vec<u8>)>, most: usize, failing: Vec<u64>) -> MemShelf
        requires some { 1 ≤ most }
        ensures files { result.files ≡ files_of files.items }
        ensures most { result.most ≡ most }
        ensures failing { result.failing ≡ failing.items }
        ensures unused { (result.calls ≡ 0) × (result.opens ≡ 0) × (result.faults ≡ 0) }
        ensures unbroken { IsUnbroken result.course }
        ensures closed { result.left ≡ None }
    {
        MemShelf {
            files,
            place: None,
            most,
            failing,
            calls: 0,
            opens: 0,
            faults: 0,
            course: Course::Unbroken,
        }
    }

    /// How many calls of `open` and `read` were made.
    pub fn calls(&self) -> u64
        ensures { result ≡ self.now.calls }
    {
        self.calls
    }
}

impl Shelf for MemShelf {
    ghost holds = { λ s. content_named s.files };

    ghost left = { λ s. s.left };

    ghost is_open = { λ s. IsSome s.left };

    ghost opens = { λ s. s.opens };

    ghost faults = { λ s. s.faults };

    ghost course = { λ s. s.course };

    ghost calls = { λ s. s.calls };

    fn open(&mut self, name: &str) -> Result<(), OutFault>
        ensures open { OnOk result (IsSome self.new.left) }
        ensures whole { OnOk result (self.new.left ≡ content_named self.old.files name.now) }
        ensures held { content_named self.new.files ≡ content_named self.old.files }
        ensures opens { self.new.opens ≡ next_count self.old.opens }
        ensures calls { self.new.calls ≤ self.old.calls + 1 }
        ensures course { self.new.course ≡ after_call self.old.course (is_ok result) }
        ensures faults { self.old.faults ≤ self.new.faults }
        ensures cause { IsErrOf result OutFault.Failed → Rose self.old.faults self.new.faults }

        // It fails at a chosen call and at an absent name alone, and no memory is asked for.
        ensures failed { IsErr result ↔ (Contains self.old.failing (next_count self.old.calls)
            ⊎ IsNone (content_named self.old.files name.now)) }
        ensures memory { IfErr result (λ fault. fault ≡ OutFault.Failed) }
        ensures ok { OnOk result (self.new ≡ after_open self.old name.now) }
        ensures err { OnErr result (self.new ≡ after_failed_open self.old) }
    {
        self.calls = self.calls.saturating_add(1);
        self.opens = self.opens.saturating_add(1);
        self.place = None;
        if self.failing.contains(&self.calls) {
            self.faults = self.faults.saturating_add(1);
            self.course = self.course.after(false);
            return Err(OutFault::Failed);
        }
        let Some(index) = index_of(&self.files, name) else {
            self.faults = self.faults.saturating_add(1);
            self.course = self.course.after(false);
            return Err(OutFault::Failed);
        };
        self.place = Some(Place { index, position: 0 });
        self.course = self.course.after(true);
        Ok(())
    }

    fn read(&mut self, buffer: &mut [u8]) -> Result<usize, OutFault>
        requires { IsSome self.old.left }
        ensures open { IsSome self.new.left }
        ensures bound { ReadsAtMost result buffer.new }
        ensures bytes { ReadConsumes self.old.left self.new.left result buffer.new }
        ensures held { content_named self.new.files ≡ content_named self.old.files }
        ensures opens { self.new.opens ≡ self.old.opens }
        ensures calls { self.new.calls ≤ self.old.calls + 1 }
        ensures course { self.new.course ≡ after_call self.old.course (is_ok result) }
        ensures faults { self.old.faults ≤ self.new.faults }
        ensures cause { IsErrOf result OutFault.Failed → Rose self.old.faults self.new.faults }

        // It fails at a chosen call alone, asks for no memory, and gives all that there is room
        // for, up to the most that it may.
        ensures failed { IsErr result ↔ Contains self.old.failing (next_count self.old.calls) }
        ensures memory { IfErr result (λ fault. fault ≡ OutFault.Failed) }
        ensures count { IfOk result (λ count. IfSome self.old.left (λ left.
            count ≡ min (length left) (min self.old.most (length buffer.old)))) }
        ensures ok { OnOk result (self.new ≡ after_read self.old self.new.left) }
        ensures err { OnErr result (self.new ≡ after_failed_read self.old) }
    {
        self.calls = self.calls.saturating_add(1);
        if self.failing.contains(&self.calls) {
            self.faults = self.faults.saturating_add(1);
            self.course = self.course.after(false);
            return Err(OutFault::Failed);
        }
        let Some(place) = self.place else {
            unreachable!();
        };
        let room = self.most.min(buffer.len());
        let (count, behind) = read_at(&self.files, place, &mut buffer[..room]);
        self.place = Some(behind);
        self.course = self.course.after(true);
        Ok(count)
    }
}
