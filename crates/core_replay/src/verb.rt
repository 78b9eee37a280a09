//! The first words of lines, and the words that name a stage, a kind or a duty.
ghost use Rattle.core_replay.specs.Steps.{bare_step_of, duty_of, kind_of, single_of, stage_of};
ghost use Rattle.core_replay.specs.Steps.{verb_of};
ghost use Rattle.std.specs.Prelude.{bytes_eq, ◌≡◌};

use crate::step::Step;
use cell_words::{Kind, Stage};
use core_machine::Event;

/// A step with one number: that of a mutator, or of a cell.
#[derive(Clone, Copy)]
pub(crate) enum Single {
    Begin,
    Look,
    Answer,
    End,
    Over,
    Poll,
    See,
    Show,
}

/// A step with other words after the first.
#[derive(Clone, Copy)]
pub(crate) enum Verb {
    Read,
    Fetch,
    Mark,
    Write,
    Store,
    Claim,
    Fill,
    Seal,
    Keep,
    Post,
    Duty,
    Out,
}

// Whether the word is this text. A comparison in each place is dearer to prove.
pub(crate) fn is(word: &[u8], text: &str) -> bool
    ensures { result ≡ bytes_eq word.now text.now }
{
    word == text.as_bytes()
}

pub(crate) fn bare_step(word: &[u8]) -> Option<Step>
    ensures { result ≡ bare_step_of word.now }
{
    if is(word, "plain") {
        Some(Step::Plain)
    } else if is(word, "clear") {
        Some(Step::Take(Event::ClearCell))
    } else if is(word, "anchor") {
        Some(Step::Take(Event::Anchor))
    } else if is(word, "scan") {
        Some(Step::Take(Event::Scan))
    } else if is(word, "shade") {
        Some(Step::Take(Event::Shade))
    } else if is(word, "blacken") {
        Some(Step::Take(Event::Blacken))
    } else if is(word, "sweep") {
        Some(Step::Take(Event::SweepLook))
    } else if is(word, "wipe") {
        Some(Step::Take(Event::Wipe))
    } else if is(word, "free") {
        Some(Step::Take(Event::Free))
    } else if is(word, "whiten") {
        Some(Step::Take(Event::Whiten))
    } else if is(word, "advance") {
        Some(Step::Take(Event::Advance))
    } else {
        None
    }
}

impl Single {
    pub(crate) fn read(word: &[u8]) -> Option<Single>
        ensures { result ≡ single_of word.now }
    {
        if is(word, "begin") {
            Some(Single::Begin)
        } else if is(word, "look") {
            Some(Single::Look)
        } else if is(word, "answer") {
            Some(Single::Answer)
        } else if is(word, "end") {
            Some(Single::End)
        } else if is(word, "over") {
            Some(Single::Over)
        } else if is(word, "poll") {
            Some(Single::Poll)
        } else if is(word, "see") {
            Some(Single::See)
        } else if is(word, "show") {
            Some(Single::Show)
        } else {
            None
        }
    }
}

impl Verb {
    pub(crate) fn read(word: &[u8]) -> Option<Verb>
        ensures { result ≡ verb_of word.now }
    {
        if is(word, "read") {
            Some(Verb::Read)
        } else if is(word, "fetch") {
            Some(Verb::Fetch)
        } else if is(word, "mark") {
            Some(Verb::Mark)
        } else if is(word, "write") {
            Some(Verb::Write)
        } else if is(word, "store") {
            Some(Verb::Store)
        } else if is(word, "claim") {
            Some(Verb::Claim)
        } else if is(word, "fill") {
            Some(Verb::Fill)
        } else if is(word, "seal") {
            Some(Verb::Seal)
        } else if is(word, "keep") {
            Some(Verb::Keep)
        } else if is(word, "post") {
            Some(Verb::Post)
        } else if is(word, "duty") {
            Some(Verb::Duty)
        } else if is(word, "out") {
            Some(Verb::Out)
        } else {
            None
        }
    }
}

pub(crate) fn kind_named(word: &[u8]) -> Option<Kind>
    ensures { result ≡ kind_of word.now }
{
    if is(word, "record") {
        Some(Kind::Record)
    } else if is(word, "box") {
        Some(Kind::Boxed)
    } else {
        None
    }
}

pub(crate) fn stage_named(word: &[u8]) -> Option<Stage>
    ensures { result ≡ stage_of word.now }
{
    if is(word, "sync1") {
        Some(Stage::Sync1)
    } else if is(word, "clear") {
        Some(Stage::Clear)
    } else if is(word, "sync2") {
        Some(Stage::Sync2)
    } else if is(word, "trace") {
        Some(Stage::Trace)
    } else if is(word, "sweep") {
        Some(Stage::Sweep)
    } else if is(word, "idle") {
        Some(Stage::Idle)
    } else {
        None
    }
}

pub(crate) fn duty_named(word: &[u8]) -> Option<bool>
    ensures { result ≡ duty_of word.now }
{
    if is(word, "on") {
        Some(true)
    } else if is(word, "off") {
        Some(false)
    } else {
        None
    }
}
