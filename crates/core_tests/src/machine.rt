//! What the rows of examples/rows cannot show of a machine: its calls on one cycle, what a mutator
//! holds, and what it has begun to store.
ghost use Rattle.core_machine.specs.InRange.{InRange};
ghost use Rattle.std.specs.Prelude.{IfOk, ◌<◌, ◌≡◌, ◌≤◌};

use cell_words::{Colour, Field, Kind, Row, Stage, Status};
use core_machine::{Event, Machine, NoMemory, Pending};
use std::alloc::Global;
use std::test::Fail;

/// The anchor: a box with null payload.
const ANCHOR: Row = [
    Field::Null,
    Field::Null,
    Field::Null,
    Field::Null,
    Field::Null,
    Field::Num(2),
];

/// How many of the events happen, each in its turn. One that cannot is passed over.
fn happening(machine: &mut Machine, events: &[Event]) -> usize
    requires { InRange machine.old }
    ensures range { InRange machine.new }
    ensures cells { machine.new.cells ≡ machine.old.cells }
{
    let mut count = 0;
    for event in events {
        if machine.apply(*event).is_ok() {
            count += 1;
        }
    }
    count
}

/// A machine of few cells, of which the first is the anchor.
fn opened(alloc: Global, cells: u32, mutators: u32, room: u32) -> Result<Machine, NoMemory>
    requires some_cells { 0 < cells }
    requires few_cells { cells ≤ 3 }
    requires room { 0 < room }
    ensures range { IfOk result InRange }
    ensures cells { IfOk result (λ machine. machine.cells ≡ cells) }
{
    Machine::open(alloc, cells, mutators, room, &[ANCHOR])
}

const OPERATION: [Event; 5] = [
    Event::Begin(0),
    Event::Look(0),
    Event::Claim(0, 1),
    Event::Seal(0, 1, Kind::Record),
    Event::End(0),
];

const HANDSHAKES: [Event; 11] = [
    Event::Post(Stage::Sync1),
    Event::Poll(0),
    Event::AnswerOut(0, false),
    Event::Post(Stage::Clear),
    Event::ClearCell,
    Event::ClearCell,
    Event::Post(Stage::Sync2),
    Event::AnswerOut(0, false),
    Event::Anchor,
    Event::Post(Stage::Trace),
    Event::AnswerOut(0, false),
];

const TRACING: [Event; 12] = [
    Event::See(0),
    Event::Scan,
    Event::Scan,
    Event::Scan,
    Event::Scan,
    Event::Scan,
    Event::Blacken,
    Event::See(0),
    Event::See(1),
    Event::See(0),
    Event::See(1),
    Event::Post(Stage::Sweep),
];

const SWEEP: [Event; 14] = [
    Event::SweepLook,
    Event::Whiten,
    Event::Advance,
    Event::SweepLook,
    Event::Wipe,
    Event::Wipe,
    Event::Wipe,
    Event::Wipe,
    Event::Wipe,
    Event::Wipe,
    Event::Free,
    Event::Advance,
    Event::Post(Stage::Idle),
    Event::Duty(true),
];

/// How many events of a cycle happen, and what is seen of the machine then.
#[derive(Clone, Copy, Debug, PartialEq, Eq)]
struct Seen {
    happened: usize,
    colours: [Colour; 2],
    /// the last field of the second cell
    kind: Field,
    /// cells that are free, how often the second was freed, all of them, and cells claimed
    counts: (u32, u64, u64, u64),
    /// of the only mutator
    status: Status,
    cycles: u32,
    duty: bool,
}

fn cycle_seen(machine: &mut Machine) -> Seen
    requires range { InRange machine.old }
    requires cells { 1 < machine.old.cells }
{
    let operation = happening(machine, &OPERATION);
    let handshakes = happening(machine, &HANDSHAKES);
    let tracing = happening(machine, &TRACING);
    let sweep = happening(machine, &SWEEP);
    let control = machine.control();
    Seen {
        happened: operation
            .saturating_add(handshakes)
            .saturating_add(tracing)
            .saturating_add(sweep),
        colours: [machine.colour(0), machine.colour(1)],
        kind: machine.field(1, 5),
        counts: (
            machine.free_count(),
            machine.freed(1),
            machine.number_freed(),
            machine.claims(0),
        ),
        status: machine.presence(0).status,
        cycles: control.cycles,
        duty: control.duty,
    }
}

fn one_cycle(alloc: Global) -> Result<Seen, NoMemory> {
    let mut machine = opened(alloc, 2, 1, 8)?;
    Ok(cycle_seen(&mut machine))
}

#[test]
fn a_cell_that_nobody_reaches_is_swept_in_one_cycle(rt: HostRuntime) -> Result<(), Fail> {
    let wanted = Seen {
        happened: 42,
        colours: [Colour::White, Colour::Blue],
        kind: Field::Null,
        counts: (1, 1, 1, 1),
        status: Status::Async,
        cycles: 1,
        duty: true,
    };
    assert_eq!(rt; one_cycle(rt.alloc())?, wanted);
    Ok(())
}

const FETCHING: [Event; 6] = [
    Event::Begin(0),
    Event::Look(0),
    Event::Claim(0, 1),
    Event::Seal(0, 1, Kind::Record),
    Event::Look(0),
    Event::Fetch(0, 0, 3),
];

/// How many of the events happen, the write that the mutator has then begun, and the field of the
/// anchor that it is to store.
fn pending_after(machine: &mut Machine, events: &[Event]) -> (usize, Option<Pending>, Field)
    requires range { InRange machine.old }
    requires cells { 1 < machine.old.cells }
    ensures range { InRange machine.new }
    ensures cells { machine.new.cells ≡ machine.old.cells }
{
    let count = happening(machine, events);
    (count, machine.pending(0), machine.field(0, 3))
}

/// What is begun and stored after a fetch, after a look, and after the store.
fn stored(alloc: Global) -> Result<[(usize, Option<Pending>, Field); 3], NoMemory> {
    let mut machine = opened(alloc, 2, 1, 4)?;
    Ok([
        pending_after(&mut machine, &FETCHING),
        pending_after(&mut machine, &[Event::Look(0)]),
        pending_after(&mut machine, &[Event::Store(0, Field::Cell(1))]),
    ])
}

#[test]
fn a_store_ends_what_its_fetch_began(rt: HostRuntime) -> Result<(), Fail> {
    let pending = Pending {
        place: 0,
        f: 3,
        found: Field::Null,
    };
    let wanted = [
        (6, Some(pending), Field::Null),
        (0, Some(pending), Field::Null),
        (1, None, Field::Cell(1)),
    ];
    assert_eq!(rt; stored(rt.alloc())?, wanted);
    Ok(())
}

const HOLDING: [Event; 6] = [
    Event::Begin(0),
    Event::Look(0),
    Event::Claim(0, 1),
    Event::Look(0),
    Event::Claim(0, 2),
    Event::Keep(0, 3, 1, 2),
];

/// How many of the events happen, how many places the mutator then has, and the cells at the first
/// five; past the end stands the anchor.
fn held_after(machine: &mut Machine, events: &[Event]) -> (usize, usize, [u32; 5])
    requires { InRange machine.old }
    ensures { InRange machine.new }
{
    let count = happening(machine, events);
    let cells = [
        machine.held(0, 0),
        machine.held(0, 1),
        machine.held(0, 2),
        machine.held(0, 3),
        machine.held(0, 4),
    ];
    (count, machine.held_len(0), cells)
}

/// What is held after a `Keep` of three places and two of them, and after one that keeps one of
/// these and two from among the others.
fn kept(alloc: Global) -> Result<[(usize, usize, [u32; 5]); 2], NoMemory> {
    let mut machine = opened(alloc, 3, 1, 5)?;
    let first = held_after(&mut machine, &HOLDING);
    Ok([first, held_after(&mut machine, &[Event::Keep(0, 1, 3, 2)])])
}

#[test]
fn copies_may_come_from_among_the_kept_places(rt: HostRuntime) -> Result<(), Fail> {
    let wanted = [(6, 5, [0, 1, 2, 1, 2]), (1, 3, [0, 1, 2, 0, 0])];
    assert_eq!(rt; kept(rt.alloc())?, wanted);
    Ok(())
}
