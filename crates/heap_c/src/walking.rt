//! A read along a path of fields. What it passes is let go at its end, all at once, so that a step
//! costs no more than a read.
ghost use Rattle.std.specs.Prelude.{MatchOption, MatchResult, ℕ};
ghost use Rattle.heap_c.specs.Walking.{Follows, HandsOn, IsAfter, LetsGo, MayStay, Stops};
ghost use Rattle.heap_c.specs.Walking.{WalksPath};

use crate::codes::Code;
use crate::mine::Mine;
use crate::turns::Turns;
use crate::values::{HeapVal, REF, val_of};
use mutator_seat::Value;

/// Reads field after field, each of what the one before gave.
fn follow(mine: &mut Mine, of: HeapVal, path: &[u8]) -> Result<HeapVal, Code>
    ensures followed { MatchResult result (λ found. Follows mine.old of path.now mine.new found)
        (λ code. Stops mine.old of path.now mine.new code) }
{
    let mut at = of;
    for field in path {
        match mine.get(at, usize::from(*field)) {
            Ok(found) => at = found,
            Err(code) => return Err(code),
        }
    }
    Ok(at)
}

/// The place of what was found, if that is one after the first ones, where so many are held.
fn place_after(turns: Turns, base: usize, held: usize, found: HeapVal) -> Option<usize>
    ensures place { MatchOption result ((place : ℕ) → IsAfter turns base held found place → ⊥)
        (λ place. IsAfter turns base held found place) }
{
    if found.tag != REF {
        return None;
    }
    let Some(place) = turns.place(found.n) else {
        return None;
    };
    if base <= place && place < held {
        Some(place)
    } else {
        None
    }
}

/// Lets places go but for the first ones.
fn let_go(mine: &mut Mine, base: usize)
    requires stays { MayStay base mine.old.owned }
    ensures gone { LetsGo base mine.old mine.new }
{
    if base < mine.held_len() {
        mine.narrow(base, 0, 0);
    }
}

/// Lets places go but for the first ones and that of what was found: what it is then.
fn hand_on(mine: &mut Mine, base: usize, found: HeapVal) -> HeapVal
    requires stays { MayStay base mine.old.owned }
    ensures handed { HandsOn base mine.old found mine.new result }
{
    let turns = mine.turns();
    match place_after(turns, base, mine.held_len(), found) {
        Some(place) => {
            mine.narrow(base, place, 1);
            val_of(turns, Value::Held(base))
        }
        None => {
            let_go(mine, base);
            found
        }
    }
}

/// Reads along a path of fields, and holds of what it found the last cell alone.
pub(crate) fn walk(mine: &mut Mine, of: HeapVal, path: &[u8]) -> Result<HeapVal, Code>
    ensures walked { WalksPath mine.old mine.new of path.now result }
{
    if path.is_empty() {
        return Err(Code::BadSize);
    }
    let base = mine.base();
    match follow(mine, of, path) {
        Ok(found) => Ok(hand_on(mine, base, found)),
        Err(code) => {
            let_go(mine, base);
            Err(code)
        }
    }
}
