//! What can be wrong with a text that should be a dump.
ghost use Rattle.std.specs.Prelude.{◌≡◌};
ghost use Rattle.dump_text.specs.declared.fault.LineError.TheVariants as line;
ghost use Rattle.dump_text.specs.declared.fault.LoadError.TheVariants as load;

use doc_tree::NoMemory;

/// What is at fault in a line of a dump. Where several faults stand in one line, the first of this
/// list counts.
#[derive(Clone, Copy, Debug, PartialEq, Eq)]
pub enum LoadKind {
    /// line 1 is no head with a version's number up to a million
    NoHead,
    /// a line is missing, or one that begins with `end`, a space and a digit is not the right end,
    /// or the line comes after the end
    BadEnd,
    /// line 2 is not the root's, or a later line is no path, space and quoted text
    BadLine,
    /// the path does not come after the one before it, or its parent has no line
    NoOrder,
    /// the 257th child of a node
    Many,
    /// the 10,001st node line
    Big,
}

/// The first faulty line of a text that is no dump. Lines are numbered from 1.
#[derive(Clone, Copy, Debug, PartialEq, Eq)]
pub struct LoadFault {
    pub line: u32,
    pub kind: LoadKind,
}

/// Why a dump could not be loaded.
#[derive(Clone, Copy, Debug, PartialEq, Eq)]
pub enum LoadError {
    Fault(LoadFault),
    NoMemory,
}

/// Why a line could not be read.
#[derive(Clone, Copy, Debug)]
pub(crate) enum LineError {
    Kind(LoadKind),
    NoMemory,
}

impl From<NoMemory> for LineError {
    ghost from_gives = { λ _ error. error ≡ line.NoMemory };

    fn from(_: NoMemory) -> LineError {
        LineError::NoMemory
    }
}

impl From<NoMemory> for LoadError {
    ghost from_gives = { λ _ error. error ≡ load.NoMemory };

    fn from(_: NoMemory) -> LoadError {
        LoadError::NoMemory
    }
}
