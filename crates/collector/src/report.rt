ghost use Rattle.std.specs.Prelude.{◌≡◌, ◌≤◌, ◌+◌, ◌<◌, ◌^◌};
ghost use Rattle.collector.specs.Counting.{TracesAtMost, nothing, passes_one, plus, scans_one, shades_one};

/// What a cycle did, in numbers.
#[derive(Clone, Copy, Debug, PartialEq, Eq)]
pub struct CycleReport {
    /// how many passes of tracing ended
    pub passes: u64,
    /// how many gray cells were scanned
    pub scanned: u64,
    /// how many cells were freed
    pub freed: u64,
    /// how many shaded children were pushed on the mark stack
    pub stacked: u64,
    /// how many found it full
    pub spilled: u64,
}

impl CycleReport {
    /// Of nothing that was done.
    pub(crate) fn nothing() -> CycleReport
        ensures report { result ≡ nothing }
    {
        CycleReport {
            passes: 0,
            scanned: 0,
            freed: 0,
            stacked: 0,
            spilled: 0,
        }
    }

    /// Of one pass more, if it ended.
    pub(crate) fn passed(self, ends: bool) -> CycleReport
        requires few { self.passes < 2 ^ 63 }
        ensures report { result ≡ plus self (passes_one ends) }
    {
        if ends {
            CycleReport {
                passes: self.passes + 1,
                ..self
            }
        } else {
            self
        }
    }

    /// Of one shaded child more, which was pushed or found the stack full.
    pub(crate) fn shaded(self, pushed: bool) -> CycleReport
        requires stacked { self.stacked < 2 ^ 63 }
        requires spilled { self.spilled < 2 ^ 63 }
        ensures report { result ≡ plus self (shades_one pushed) }
    {
        if pushed {
            CycleReport {
                stacked: self.stacked + 1,
                ..self
            }
        } else {
            CycleReport {
                spilled: self.spilled + 1,
                ..self
            }
        }
    }

    /// Of one more cell that was scanned.
    pub(crate) fn scanned(self) -> CycleReport
        requires few { self.scanned < 2 ^ 63 }
        ensures report { result ≡ plus self scans_one }
    {
        CycleReport {
            scanned: self.scanned + 1,
            ..self
        }
    }

    /// Of both together, while tracing.
    pub(crate) fn with(self, other: CycleReport) -> CycleReport
        requires few { TracesAtMost (2 ^ 62) self }
        requires other { TracesAtMost (2 ^ 62) other }
        ensures report { result ≡ plus self other }
    {
        CycleReport {
            passes: self.passes + other.passes,
            scanned: self.scanned + other.scanned,
            freed: self.freed + other.freed,
            stacked: self.stacked + other.stacked,
            spilled: self.spilled + other.spilled,
        }
    }
}
