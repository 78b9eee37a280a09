//! What can be wrong with a script of a sender.
ghost use Rattle.script_files.specs.declared.mail_fault.MailError.TheVariants as mail;
ghost use Rattle.std.specs.Prelude.{◌≡◌};

use std::alloc::AllocFailed;

/// What is at fault in a line. Where several faults stand in one line, the first of this list
/// counts.
#[derive(Clone, Copy, Debug, PartialEq, Eq)]
pub enum MailKind {
    /// a byte that is no plain character
    BadByte,
    /// the first word is not `send`
    NoCommand,
    /// the number is missing, or is not 1 to 10 digits, or is above 4,294,967,295
    BadNumber,
    /// something follows the number
    Extra,
}

/// The first faulty line of a script. Lines are numbered from 1.
#[derive(Clone, Copy, Debug, PartialEq, Eq)]
pub struct MailFault {
    pub line: u32,
    pub kind: MailKind,
}

/// Why a script could not be read.
#[derive(Clone, Copy, Debug, PartialEq, Eq)]
pub enum MailError {
    Fault(MailFault),
    NoMemory,
}

impl<T: Drop> From<AllocFailed<T>> for MailError {
    ghost from_gives = { λ _ error. error ≡ mail.NoMemory };

    fn from(_: AllocFailed<T>) -> MailError {
        MailError::NoMemory
    }
}
