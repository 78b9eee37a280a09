//! What can be wrong with a heap file.
ghost use Rattle.image_files.specs.Answers.{kind_of};
ghost use Rattle.image_files.specs.declared.fault.ImageError.TheVariants as error;
ghost use Rattle.std.specs.Prelude.{◌≡◌};

use heap_census::{Flaw, NoMemory};

/// What is at fault in a line of a heap file, or in the cell that has this line. Where several
/// faults stand in one line, the first of this list counts.
#[derive(Clone, Copy, Debug, PartialEq, Eq)]
pub enum ImageKind {
    /// line 1 is no head with a number of cells from 64 to `GREATEST_POSITION`
    NoHead,
    /// a line is missing, or comes after the end
    BadEnd,
    /// the line is none of a cell in use, or its cell or one that it names is not below the number
    /// of cells
    BadLine,
    /// the cell is not above the one before it
    NoOrder,
    /// the anchor has no line, or a cell that the anchor leads to names one without a line
    Blue,
    /// the cell has not the layout of its role, or has two roles
    BadShape,
}

/// The first faulty line of a text that is no heap file, or the line of the first faulty cell.
/// Lines are numbered from 1; an anchor without a line stands at line 1.
#[derive(Clone, Copy, Debug, PartialEq, Eq)]
pub struct ImageFault {
    pub line: u32,
    pub kind: ImageKind,
}

/// Why there is no census of a heap file.
#[derive(Clone, Copy, Debug, PartialEq, Eq)]
pub enum ImageError {
    Fault(ImageFault),
    NoMemory,
}

impl From<NoMemory> for ImageError {
    ghost from_gives = { λ _ given. given ≡ error.NoMemory };

    fn from(_: NoMemory) -> ImageError {
        ImageError::NoMemory
    }
}

/// The fault of a cell with which this is wrong.
pub(crate) fn kind_of(flaw: Flaw) -> ImageKind
    ensures { result ≡ kind_of flaw }
{
    match flaw {
        Flaw::Blue => ImageKind::Blue,
        Flaw::BadShape => ImageKind::BadShape,
    }
}
