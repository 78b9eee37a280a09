ghost use Rattle.std.specs.Prelude.{◌≡◌};
ghost use Rattle.outside.specs.Calls.{after_call};

/// How the calls on a shelf or a sink went so far. No body reads it: contracts speak of it alone.
#[derive(Clone, Copy, Debug, PartialEq, Eq)]
pub enum Course {
    /// No call failed.
    Unbroken,
    /// The last call failed, and none before it.
    Broken,
    /// A call was made after one that failed.
    Overrun,
}

impl Course {
    // The course after one more call, which was done or failed.
    pub(crate) fn after(self, done: bool) -> Course
        ensures { result ≡ after_call self done }
    {
        match (self, done) {
            (Course::Unbroken, true) => Course::Unbroken,
            (Course::Unbroken, false) => Course::Broken,
            _ => Course::Overrun,
        }
    }
}
