//! The step that a line of a schedule asks for.
//!
//! Each reader below takes what is left of a line after its first word. A fault of an earlier word
//! counts before one of a later word, so each word is read where it stands in the line.
ghost use Rattle.core_replay.specs.Start.{at_end};
ghost use Rattle.core_replay.specs.Steps.{claim_in, copies_in, duty_in, event_in, fetch_in};
ghost use Rattle.core_replay.specs.Steps.{fill_in, keep_in, mark_in, out_in, over_in, place_in};
ghost use Rattle.core_replay.specs.Steps.{post_in, read_in, seal_in, single_in, single_step_of};
ghost use Rattle.core_replay.specs.Steps.{step_of, store_in, write_in};
ghost use Rattle.std.specs.Prelude.{ok_or, ◌<◌, ◌^◌, ◌≡◌};

use crate::fault::ScheduleKind;
use crate::numbers::{read_index, read_value};
use crate::step::Step;
use crate::verb::{Single, Verb, bare_step, duty_named, is, kind_named, stage_named};
use core_machine::Event;
use line_texts::{first_word, next_rest, next_word};

/// The step of a line.
pub(crate) fn read_step(line: &[u8]) -> Result<Step, ScheduleKind>
    ensures { result ≡ step_of line.now }
{
    let (word, rest) = first_word(line);
    if let Some(step) = bare_step(word) {
        return at_end(rest, step);
    }
    if let Some(single) = Single::read(word) {
        return read_single(single, rest);
    }
    match Verb::read(word) {
        Some(verb) => Ok(Step::Take(read_event(verb, rest)?)),
        None => Err(ScheduleKind::NoEvent),
    }
}

/// The part, where the line ends here.
pub(crate) fn at_end<T: Drop>(rest: &[u8], part: T) -> Result<T, ScheduleKind>
    ensures { result ≡ at_end rest.now part }
{
    match rest {
        [] => Ok(part),
        _ => Err(ScheduleKind::Extra),
    }
}

fn read_single(single: Single, rest: &[u8]) -> Result<Step, ScheduleKind>
    ensures { result ≡ single_in single rest.now }
{
    let number = read_index(rest)?;
    at_end(next_rest(rest), single_step(single, number))
}

fn single_step(single: Single, number: u32) -> Step
    ensures { result ≡ single_step_of single number }
{
    match single {
        Single::Begin => Step::Take(Event::Begin(number)),
        Single::Look => Step::Take(Event::Look(number)),
        Single::Answer => Step::Take(Event::Answer(number)),
        Single::End => Step::Take(Event::End(number)),
        Single::Over => Step::Take(Event::Over(number)),
        Single::Poll => Step::Take(Event::Poll(number)),
        Single::See => Step::Take(Event::See(number)),
        Single::Show => Step::Show(number),
    }
}

fn read_event(verb: Verb, rest: &[u8]) -> Result<Event, ScheduleKind>
    ensures { result ≡ event_in verb rest.now }
{
    match verb {
        Verb::Read => read_read(rest),
        Verb::Fetch => read_fetch(rest),
        Verb::Mark => read_mark(rest),
        Verb::Write => read_write(rest),
        Verb::Store => read_store(rest),
        Verb::Claim => read_claim(rest),
        Verb::Fill => read_fill(rest),
        Verb::Seal => read_seal(rest),
        Verb::Keep => read_keep(rest),
        Verb::Post => read_post(rest),
        Verb::Duty => read_duty(rest),
        Verb::Out => read_out(rest),
    }
}

fn read_read(rest: &[u8]) -> Result<Event, ScheduleKind>
    ensures { result ≡ read_in rest.now }
{
    let i = read_index(rest)?;
    let second = next_rest(rest);
    let place = read_index(second)?;
    let third = next_rest(second);
    let field = read_index(third)?;
    at_end(
        next_rest(third),
        Event::Read(i, place as usize, field as usize),
    )
}

fn read_fetch(rest: &[u8]) -> Result<Event, ScheduleKind>
    ensures { result ≡ fetch_in rest.now }
{
    let i = read_index(rest)?;
    let second = next_rest(rest);
    let place = read_index(second)?;
    let third = next_rest(second);
    let field = read_index(third)?;
    at_end(
        next_rest(third),
        Event::Fetch(i, place as usize, field as usize),
    )
}

fn read_mark(rest: &[u8]) -> Result<Event, ScheduleKind>
    ensures { result ≡ mark_in rest.now }
{
    let i = read_index(rest)?;
    let second = next_rest(rest);
    let place = read_index(second)?;
    at_end(next_rest(second), Event::Mark(i, place as usize))
}

fn read_claim(rest: &[u8]) -> Result<Event, ScheduleKind>
    ensures { result ≡ claim_in rest.now }
{
    let i = read_index(rest)?;
    let second = next_rest(rest);
    let cell = read_index(second)?;
    at_end(next_rest(second), Event::Claim(i, cell))
}

fn read_write(rest: &[u8]) -> Result<Event, ScheduleKind>
    ensures { result ≡ write_in rest.now }
{
    let i = read_index(rest)?;
    let second = next_rest(rest);
    let place = read_index(second)?;
    let third = next_rest(second);
    let field = read_index(third)?;
    let fourth = next_rest(third);
    let old = read_value(fourth)?;
    let fifth = next_rest(fourth);
    let new = read_value(fifth)?;
    at_end(
        next_rest(fifth),
        Event::Write(i, place as usize, field as usize, old, new),
    )
}

fn read_store(rest: &[u8]) -> Result<Event, ScheduleKind>
    ensures { result ≡ store_in rest.now }
{
    let i = read_index(rest)?;
    let second = next_rest(rest);
    let new = read_value(second)?;
    at_end(next_rest(second), Event::Store(i, new))
}

fn read_fill(rest: &[u8]) -> Result<Event, ScheduleKind>
    ensures { result ≡ fill_in rest.now }
{
    let i = read_index(rest)?;
    let second = next_rest(rest);
    let place = read_index(second)?;
    let third = next_rest(second);
    let field = read_index(third)?;
    let fourth = next_rest(third);
    let value = read_value(fourth)?;
    at_end(
        next_rest(fourth),
        Event::Fill(i, place as usize, field as usize, value),
    )
}

fn read_seal(rest: &[u8]) -> Result<Event, ScheduleKind>
    ensures { result ≡ seal_in rest.now }
{
    let i = read_index(rest)?;
    let second = next_rest(rest);
    let place = read_index(second)?;
    let third = next_rest(second);
    let kind = kind_named(next_word(third).0).ok_or(ScheduleKind::NoEvent)?;
    at_end(next_rest(third), Event::Seal(i, place as usize, kind))
}

fn read_keep(rest: &[u8]) -> Result<Event, ScheduleKind>
    ensures { result ≡ keep_in rest.now }
{
    let i = read_index(rest)?;
    let second = next_rest(rest);
    let count = read_index(second)?;
    read_place(i, count as usize, next_rest(second))
}

fn read_place(i: u32, count: usize, rest: &[u8]) -> Result<Event, ScheduleKind>
    ensures { result ≡ place_in i count rest.now }
{
    if rest.is_empty() {
        return Ok(Event::Keep(i, count, 0, 0));
    }
    let place = read_index(rest)?;
    read_copies(i, count, place as usize, next_rest(rest))
}

fn read_copies(i: u32, count: usize, place: usize, rest: &[u8]) -> Result<Event, ScheduleKind>
    ensures { result ≡ copies_in i count place rest.now }
{
    if rest.is_empty() {
        return Ok(Event::Keep(i, count, place, 1));
    }
    let copies = read_index(rest)?;
    at_end(
        next_rest(rest),
        Event::Keep(i, count, place, copies as usize),
    )
}

fn read_post(rest: &[u8]) -> Result<Event, ScheduleKind>
    ensures { result ≡ post_in rest.now }
{
    let stage = stage_named(next_word(rest).0).ok_or(ScheduleKind::NoEvent)?;
    at_end(next_rest(rest), Event::Post(stage))
}

fn read_duty(rest: &[u8]) -> Result<Event, ScheduleKind>
    ensures { result ≡ duty_in rest.now }
{
    let on = duty_named(next_word(rest).0).ok_or(ScheduleKind::NoEvent)?;
    at_end(next_rest(rest), Event::Duty(on))
}

fn read_out(rest: &[u8]) -> Result<Event, ScheduleKind>
    ensures { result ≡ out_in rest.now }
{
    let i = read_index(rest)?;
    read_over(i, next_rest(rest))
}

fn read_over(i: u32, rest: &[u8]) -> Result<Event, ScheduleKind>
    ensures { result ≡ over_in i rest.now }
{
    if rest.is_empty() {
        return Ok(Event::AnswerOut(i, false));
    }
    if is(next_word(rest).0, "over") {
        at_end(next_rest(rest), Event::AnswerOut(i, true))
    } else {
        Err(ScheduleKind::NoEvent)
    }
}
