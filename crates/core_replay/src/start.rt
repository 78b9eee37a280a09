//! The first line of a schedule: the sizes of the core that it runs.
ghost use Rattle.core_replay.specs.Start.{size_in, sizes_in, start_of};
ghost use Rattle.core_replay.specs.ScheduleValue.{are_sizes};
ghost use Rattle.std.specs.Prelude.{IfOk, IsTrue, ◌<◌, ◌≡◌, ◌≤◌};

use crate::event::at_end;
use crate::fault::ScheduleKind;
use crate::numbers::read_number;
use crate::verb::is;
use line_texts::{first_word, next_rest, next_word};

/// The sizes of a core: its cells, its mutators, and the room of every mutator.
#[derive(Clone, Copy, Debug, PartialEq, Eq)]
pub struct Sizes {
    pub cells: u32,
    pub mutators: u32,
    pub room: u32,
}

/// The sizes that a first line gives.
pub(crate) fn read_start(line: &[u8]) -> Result<Sizes, ScheduleKind>
    ensures sizes { result ≡ start_of line.now }
    ensures allowed { IfOk result (λ sizes. IsTrue (are_sizes sizes)) }
{
    let (word, rest) = first_word(line);
    if is(word, "core") {
        read_sizes(rest)
    } else {
        Err(ScheduleKind::NoStart)
    }
}

fn read_sizes(rest: &[u8]) -> Result<Sizes, ScheduleKind>
    ensures sizes { result ≡ sizes_in rest.now }
    ensures allowed { IfOk result (λ sizes. IsTrue (are_sizes sizes)) }
{
    let cells = read_size(rest, 256)?;
    let second = next_rest(rest);
    let mutators = read_size(second, 64)?;
    let third = next_rest(second);
    let room = read_size(third, 1024)?;
    at_end(
        next_rest(third),
        Sizes {
            cells,
            mutators,
            room,
        },
    )
}

fn read_size(rest: &[u8], most: u32) -> Result<u32, ScheduleKind>
    ensures size { result ≡ size_in most rest.now }
    ensures allowed { IfOk result (λ size. (1 ≤ size) × (size ≤ most)) }
{
    let size = read_number(next_word(rest).0, u64::from(most))?;
    if size == 0 {
        return Err(ScheduleKind::BadNumber);
    }
    Ok(size as u32)
}
