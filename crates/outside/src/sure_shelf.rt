ghost use Rattle.std.specs.Prelude.{◌≡◌, ℕ, ◌+◌, ◌<◌, ◌≤◌, [], None, Some, IfOk, IfSome, IsOk};
ghost use Rattle.std.specs.Prelude.{unwrap_or, IsSome, length, min};
ghost use Rattle.std.specs.Io.{ReadsAtMost};
ghost use Rattle.std.specs.Io.KnownBytes.{ReadConsumes};
ghost use Rattle.outside.specs.Causes.{next_count};
ghost use Rattle.outside.specs.Named.{files_of, content_named};

use crate::fault::OutFault;
use crate::named_files::{Place, index_of, read_at};
use crate::reading::Shelf;
use std::marker::Model;

/// A shelf in memory that never fails: a name that is absent is an empty file.
pub struct SureShelf {
    files: Vec<(String, Vec<u8>)>,
    place: Option<Place>,
    opens: u64,
}

impl Drop for SureShelf {
    fn drop(self) {
        let SureShelf {
            files: _files,
            place: _,
            opens: _,
        } = self;
    }
}

impl Model for SureShelf {
    ghost use Rattle.outside.specs.Memory.{SureState};
    ghost use Rattle.outside.specs.Named.{files_of, left_of};

    ghost Value = { SureState };

    ghost view = { λ s. record {
      files = files_of s.files.items;
      opens = s.opens;
      left = left_of (files_of s.files.items) s.place;
    } };
}

impl SureShelf {
    /// A shelf of these names and contents.
    pub fn new(files: Vec<(String, Vec<u8>)>) -> SureShelf
        ensures files { result.files ≡ files_of files.items }
        ensures unused { result.opens ≡ 0 }
        ensures closed { result.left ≡ None }
    {
        SureShelf {
            files,
            place: None,
            opens: 0,
        }
    }
}

impl Shelf for SureShelf {
    ghost use Rattle.outside.specs.declared.course.Course.TheVariants.{Unbroken};

    ghost holds = { λ s name. Some (unwrap_or (content_named s.files name) []) };

    ghost left = { λ s. s.left };

    ghost is_open = { λ s. IsSome s.left };

    ghost opens = { λ s. s.opens };

    ghost faults = { λ _. 0 };

    ghost course = { λ _. Unbroken };

    fn open(&mut self, name: &str) -> Result<(), OutFault>
        ensures open { IsSome self.new.left }
        ensures whole { self.new.left
            ≡ Some (unwrap_or (content_named self.old.files name.now) []) }
        ensures held { self.new.files ≡ self.old.files }
        ensures opens { self.new.opens ≡ next_count self.old.opens }

        // It never fails.
        ensures done { IsOk result }
    {
        self.opens = self.opens.saturating_add(1);
        let index = match index_of(&self.files, name) {
            Some(index) => index,
            None => self.files.len(),
        };
        self.place = Some(Place { index, position: 0 });
        Ok(())
    }

    fn read(&mut self, buffer: &mut [u8]) -> Result<usize, OutFault>
        requires { IsSome self.old.left }
        ensures open { IsSome self.new.left }
        ensures bound { ReadsAtMost result buffer.new }
        ensures bytes { ReadConsumes self.old.left self.new.left result buffer.new }
        ensures held { self.new.files ≡ self.old.files }
        ensures opens { self.new.opens ≡ self.old.opens }

        // It never fails, and gives all that there is room for.
        ensures done { IsOk result }
        ensures count { IfOk result (λ count. IfSome self.old.left (λ left.
            count ≡ min (length left) (length buffer.old))) }
    {
        let Some(place) = self.place else {
            unreachable!();
        };
        let (count, behind) = read_at(&self.files, place, buffer);
        self.place = Some(behind);
        Ok(count)
    }
}
