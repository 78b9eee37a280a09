//! Scripts of senders.
ghost use Rattle.std.specs.Prelude.{◌≡◌, ◌≤◌, ◌<◌, ◌^◌, IfOk, length};
ghost use Rattle.mail_threads.specs.Workers.{AreSmall};

use mail_run::NoMemory;
use std::alloc::Global;

/// The value of a line.
fn value_of(line: u32, first: u32, rising: bool) -> u64
    requires line { line ≤ 500 }
    requires first { first ≤ 1_000_000 }
    ensures small { result < 2 ^ 32 }
{
    u64::from(if rising { first + line } else { first })
}

/// A script of so many lines. The values are all the first one, or rise from it by one.
pub(crate) fn script(
    alloc: Global,
    lines: u32,
    first: u32,
    rising: bool,
) -> Result<Vec<u64>, NoMemory>
    requires lines { lines ≤ 500 }
    requires first { first ≤ 1_000_000 }
    ensures many { IfOk result (λ script. length script.items ≡ lines) }
    ensures small { IfOk result (λ script. AreSmall script.items) }
{
    let mut values = Vec::new(alloc);
    for line in 0..lines {
        values.push(value_of(line, first, rising))?;
    }
    Ok(values)
}
