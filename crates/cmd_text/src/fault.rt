//! What can be wrong with a script.
ghost use Rattle.cmd_text.specs.declared.fault.LineError.TheVariants as line;
ghost use Rattle.cmd_text.specs.declared.fault.ScriptError.TheVariants as script;
ghost use Rattle.std.specs.Prelude.{◌≡◌};

use doc_model::NoMemory;
use std::alloc::AllocFailed;

/// What is at fault in a line of a script. Where several faults stand in one line, the first of
/// this list counts. Those of quotes and batches stand in scripts of version 2 alone.
#[derive(Clone, Copy, Debug, PartialEq, Eq)]
pub enum ScriptKind {
    /// a byte that is no plain character
    BadByte,
    /// the first word is no command
    NoCommand,
    /// `commit` outside a batch, or inside one what is neither an edit nor `commit`; or a `begin`
    /// whose batch does not end
    NoBatch,
    /// a number is missing, or is not 1 to 7 digits
    BadNumber,
    /// a path is missing, or is no path
    BadPath,
    /// what follows the path is no quoted text that ends the line
    NoQuote,
    /// a text above 4,096 bytes
    LongText,
    /// something follows the last word
    Extra,
    /// an edit after the thousandth of its batch
    LongBatch,
}

/// The first faulty line of a script. Lines are numbered from 1.
#[derive(Clone, Copy, Debug, PartialEq, Eq)]
pub struct ScriptFault {
    pub line: u32,
    pub kind: ScriptKind,
}

/// Why a script could not be read.
#[derive(Clone, Copy, Debug, PartialEq, Eq)]
pub enum ScriptError {
    Fault(ScriptFault),
    NoMemory,
}

/// Why a line could not be read.
#[derive(Clone, Copy, Debug)]
pub(crate) enum LineError {
    Fault(ScriptKind),
    NoMemory,
}

impl From<NoMemory> for LineError {
    ghost from_gives = { λ _ error. error ≡ line.NoMemory };

    fn from(_: NoMemory) -> LineError {
        LineError::NoMemory
    }
}

impl From<NoMemory> for ScriptError {
    ghost from_gives = { λ _ error. error ≡ script.NoMemory };

    fn from(_: NoMemory) -> ScriptError {
        ScriptError::NoMemory
    }
}

impl<T: Drop> From<AllocFailed<T>> for ScriptError {
    ghost from_gives = { λ _ error. error ≡ script.NoMemory };

    fn from(_: AllocFailed<T>) -> ScriptError {
        ScriptError::NoMemory
    }
}
