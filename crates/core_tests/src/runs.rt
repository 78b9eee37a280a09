ghost use Rattle.std.specs.Prelude.{◌<◌};

use cell_words::{Colour, Field, Kind, Row, Stage};
use dlg_core::{Core, Event, NoMemory, NotNow, NotNowAt};
use std::alloc::Global;
use std::test::Fail;

// The anchor alone: a box with null payload.
const ANCHOR: Row = [
    Field::Null,
    Field::Null,
    Field::Null,
    Field::Null,
    Field::Null,
    Field::Num(2),
];

/// What an open core shows.
#[derive(Clone, Copy, Debug, PartialEq, Eq)]
struct Opened {
    cells: u32,
    /// of the anchor: its colour, its last field, and how often it was freed
    anchor: (Colour, Field, u64),
    mutators: u32,
    /// of the only mutator
    inside: bool,
    held: usize,
}

fn shown(core: &Core) -> Opened
    requires cells { 0 < core.now.cells }
    requires mutators { 0 < core.now.mutators }
{
    Opened {
        cells: core.cells(),
        anchor: (core.colour(0), core.field(0, 5), core.freed(0)),
        mutators: core.mutators(),
        inside: core.presence(0).inside,
        held: core.held_len(0),
    }
}

fn open_one(alloc: Global) -> Result<Opened, NoMemory> {
    let core = Core::open(alloc, 3, 1, 8, &[ANCHOR])?;
    Ok(shown(&core))
}

#[test]
fn at_the_opening_the_first_rows_are_in_use_and_nobody_is_in(rt: HostRuntime) -> Result<(), Fail> {
    let wanted = Opened {
        cells: 3,
        anchor: (Colour::White, Field::Num(2), 0),
        mutators: 1,
        inside: false,
        held: 0,
    };
    assert_eq!(rt; open_one(rt.alloc())?, wanted);
    Ok(())
}

/// How many places the only mutator holds, and the cell at the second of two.
fn held(core: &Core) -> Option<(usize, u32)> {
    if core.mutators() != 1 {
        return None;
    }
    match core.held_len(0) {
        2 => Some((2, core.held(0, 1))),
        len => Some((len, 0)),
    }
}

/// Whether the second of three cells is reachable.
fn is_reachable(alloc: Global, core: &Core) -> Result<Option<bool>, NoMemory> {
    if core.cells() != 3 {
        return Ok(None);
    }
    Ok(Some(core.is_reachable(alloc, 1)?))
}

const CLAIMING: [Event; 4] = [
    Event::Begin(0),
    Event::Look(0),
    Event::Claim(0, 1),
    Event::Seal(0, 1, Kind::Record),
];

/// How a run that claims a cell and the end of that operation went, and after each whether the cell
/// is reachable; between them what was held.
#[derive(Clone, Copy, Debug, PartialEq, Eq)]
struct Claimed {
    run: Result<(), NotNowAt>,
    held: Option<(usize, u32)>,
    reachable: Option<bool>,
    end: Result<(), NotNow>,
    reachable_behind: Option<bool>,
}

fn claim_and_end(alloc: Global, core: &mut Core) -> Result<Claimed, NoMemory> {
    let run = core.run(&CLAIMING);
    let held = held(core);
    let reachable = is_reachable(alloc, core)?;
    let end = core.apply(Event::End(0));
    Ok(Claimed {
        run,
        held,
        reachable,
        end,
        reachable_behind: is_reachable(alloc, core)?,
    })
}

fn claim_one(alloc: Global) -> Result<Claimed, NoMemory> {
    let mut core = Core::open(alloc, 3, 1, 8, &[ANCHOR])?;
    claim_and_end(alloc, &mut core)
}

#[test]
fn a_held_cell_is_reachable_until_its_mutator_goes_out(rt: HostRuntime) -> Result<(), Fail> {
    let wanted = Claimed {
        run: Ok(()),
        held: Some((2, 1)),
        reachable: Some(true),
        end: Ok(()),
        reachable_behind: Some(false),
    };
    assert_eq!(rt; claim_one(rt.alloc())?, wanted);
    Ok(())
}

/// How many cells are free, and what is posted next, if that is what a collector does next.
fn free_and_next(core: &Core) -> (u32, Option<Stage>) {
    let next = match core.next_plain() {
        Some(Event::Post(stage)) => Some(stage),
        _ => None,
    };
    (core.free_count(), next)
}

fn begun(alloc: Global) -> Result<(u32, Option<Stage>), NoMemory> {
    let core = Core::open(alloc, 3, 1, 8, &[ANCHOR])?;
    Ok(free_and_next(&core))
}

#[test]
fn a_cycle_begins_with_a_post(rt: HostRuntime) -> Result<(), Fail> {
    assert_eq!(rt; begun(rt.alloc())?, (2, Some(Stage::Sync1)));
    Ok(())
}

/// What a run of the events ends with, the stage after it, and whether the mutator may then begin
/// again.
type Stopped = (Result<(), NotNowAt>, Stage, Result<(), NotNow>);

fn run_and_begin(core: &mut Core, events: &[Event]) -> Stopped {
    let run = core.run(events);
    let stage = core.control().stage;
    (run, stage, core.apply(Event::Begin(0)))
}

fn run_to(alloc: Global, events: &[Event]) -> Result<Stopped, NoMemory> {
    let mut core = Core::open(alloc, 2, 1, 4, &[ANCHOR])?;
    Ok(run_and_begin(&mut core, events))
}

const UNANSWERED: [Event; 10] = [
    Event::Begin(0),
    Event::Post(Stage::Sync1),
    Event::Look(0),
    Event::Answer(0),
    Event::Poll(0),
    Event::Post(Stage::Clear),
    Event::ClearCell,
    Event::ClearCell,
    Event::Post(Stage::Sync2),
    Event::Post(Stage::Trace),
];

#[test]
fn tracing_may_not_begin_before_all_have_answered(rt: HostRuntime) -> Result<(), Fail> {
    let stop = NotNowAt { index: 9 };
    let wanted = (Err(stop), Stage::Sync2, Err(NotNow));
    assert_eq!(rt; run_to(rt.alloc(), &UNANSWERED)?, wanted);
    Ok(())
}

/// What whole cycles answer: two right after each other, one with the mutator in, and one when it
/// has gone out.
type Cycles = [Result<u64, NotNow>; 4];

fn finish_cycles(core: &mut Core) -> Cycles {
    let first = core.finish_cycle();
    let second = core.finish_cycle();
    let _ = core.apply(Event::Begin(0));
    let inside = core.finish_cycle();
    let _ = core.apply(Event::End(0));
    [first, second, inside, core.finish_cycle()]
}

fn cycles_of_one(alloc: Global) -> Result<Cycles, NoMemory> {
    let mut core = Core::open(alloc, 3, 1, 8, &[ANCHOR])?;
    Ok(finish_cycles(&mut core))
}

#[test]
fn a_cycle_of_the_anchor_alone_has_36_events(rt: HostRuntime) -> Result<(), Fail> {
    let wanted = [Ok(36), Ok(36), Err(NotNow), Ok(36)];
    assert_eq!(rt; cycles_of_one(rt.alloc())?, wanted);
    Ok(())
}

fn finish_in_sync1(alloc: Global) -> Result<(Result<u64, NotNow>, Stage), NoMemory> {
    let mut core = Core::open(alloc, 3, 1, 8, &[ANCHOR])?;
    let _ = core.apply(Event::Post(Stage::Sync1));
    let answer = core.finish_cycle();
    Ok((answer, core.control().stage))
}

#[test]
fn a_cycle_that_has_begun_is_not_taken_whole(rt: HostRuntime) -> Result<(), Fail> {
    assert_eq!(rt; finish_in_sync1(rt.alloc())?, (Err(NotNow), Stage::Sync1));
    Ok(())
}
