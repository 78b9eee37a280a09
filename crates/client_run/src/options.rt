ghost use Rattle.std.specs.Prelude.{◌≡◌};

use client_session::Limits;

/// How a store is run, by numbers.
#[derive(Clone, Copy, Debug, PartialEq, Eq)]
pub struct Options {
    /// cells of the heap that all clients share
    pub cells: u32,
    /// records of each client's private heap
    pub minor: u32,
    /// how many of the latest versions stay
    pub keep: u32,
    /// the number of the last version that can be made
    pub versions: u32,
    /// how many cycles the collector makes at most; with none it stays off duty
    pub cycles: u32,
}

impl Options {
    ghost use Rattle.client_run.specs.Options.{client_limits};

    /// What a client's session is told.
    pub fn client_limits(&self) -> Limits
        ensures limits { result ≡ client_limits self.now }
    {
        Limits {
            keep: self.keep,
            versions: self.versions,
            minor: self.minor,
        }
    }
}
