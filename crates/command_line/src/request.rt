//! What words ask for, and why they ask for nothing.
ghost use Rattle.command_line.specs.declared.request.WordsFault.TheVariants as fault;
ghost use Rattle.std.specs.Prelude.{◌≡◌};

use std::alloc::AllocError;

/// What a command line asks for.
#[derive(Debug, Drop)]
pub enum Request<'a> {
    /// The commands of the scripts in these files are answered, a client each.
    Run(RunWords<'a>),
    /// The schedule in the file of this name is replayed.
    Replay(&'a str),
    /// Scripts are generated, and run or printed.
    Gen(GenWords),
    /// The dump in the file of this name is loaded.
    Load(&'a str),
    /// The commands of the scripts in these files are answered, and the heap that they leave is
    /// written in place of the replies. It is asked for neither the history nor the totals.
    Image(RunWords<'a>),
    /// The commands of the scripts in these files are answered, a client each, and meanwhile a
    /// version is dumped.
    Dump(Vec<&'a str>),
    /// The heap in the file of this name is counted.
    Census(&'a str),
    /// The values of the scripts in these files are sent through a mailbox, by a sender each, and
    /// received.
    Mail(MailWords<'a>),
}

/// The words of a run.
#[derive(Debug)]
pub struct RunWords<'a> {
    /// cells of the heap
    pub cells: u32,
    /// records of each client's private heap
    pub minor: u32,
    /// versions that can be read
    pub keep: u32,
    /// the number of the last version that may be made
    pub versions: u32,
    /// cycles that the collector may make
    pub cycles: u32,
    /// whether the merged history is written
    pub history: bool,
    /// whether the totals are written
    pub stats: bool,
    /// names of the clients' files, in order
    pub files: Vec<&'a str>,
}

// By hand, so that a proof above takes a drop as one call.
impl<'a> Drop for RunWords<'a> {
    fn drop(self) {
        let RunWords {
            cells: _,
            minor: _,
            keep: _,
            versions: _,
            cycles: _,
            history: _,
            stats: _,
            files: _files,
        } = self;
    }
}

/// The words of a run of a mailbox.
#[derive(Debug)]
pub struct MailWords<'a> {
    /// cells of the heap
    pub cells: u32,
    /// cycles that the collector may make
    pub cycles: u32,
    /// names of the senders' files, in order
    pub files: Vec<&'a str>,
}

// By hand, so that a proof above takes a drop as one call.
impl<'a> Drop for MailWords<'a> {
    fn drop(self) {
        let MailWords {
            cells: _,
            cycles: _,
            files: _files,
        } = self;
    }
}

/// The words of generated scripts.
#[derive(Clone, Copy, Debug, PartialEq, Eq)]
pub struct GenWords {
    /// where the draws of all clients start
    pub start: u32,
    /// how many scripts
    pub clients: u32,
    /// lines of each script
    pub commands: u32,
    /// the client whose script is printed, where nothing is run
    pub print: Option<u32>,
}

/// Why words ask for nothing.
#[derive(Clone, Copy, Debug, PartialEq, Eq)]
pub enum WordsFault {
    /// They are none of the program's command lines.
    Usage,
    NoMemory,
}

impl From<AllocError> for WordsFault {
    ghost from_gives = { λ _ error. error ≡ fault.NoMemory };

    fn from(_: AllocError) -> WordsFault {
        WordsFault::NoMemory
    }
}
