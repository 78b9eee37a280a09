//! What one operation on a word leaves there, and the tests that events make on words.
ghost use Rattle.core_machine.specs.Words.{answered_out, barrier_in, born_colour, claimed, cleared};
ghost use Rattle.core_machine.specs.Words.{is_blue, is_box_kind, is_cell, is_gray, is_handshake};
ghost use Rattle.core_machine.specs.Words.{is_raw_kind, kind_field, lets_store, marks_some};
ghost use Rattle.core_machine.specs.Words.{may_answer_out, requests, same_field, same_flag};
ghost use Rattle.core_machine.specs.Words.{same_stage, same_status, shaded, written};
ghost use Rattle.std.specs.Prelude.{◌≡◌};

use cell_words::modes::{barrier, claim_colour, next_status, requested};
use cell_words::{Barrier, Colour, Control, Field, Kind, Presence, Stage, Status};

pub(crate) fn shaded(colour: Colour) -> Colour
    ensures colour { result ≡ shaded colour }
{
    match colour {
        Colour::White => Colour::Gray,
        Colour::Blue | Colour::Gray | Colour::Black => colour,
    }
}

pub(crate) fn cleared(colour: Colour) -> Colour
    ensures colour { result ≡ cleared colour }
{
    match colour {
        Colour::Black => Colour::White,
        Colour::Blue | Colour::White | Colour::Gray => colour,
    }
}

pub(crate) fn claimed(colour: Colour, born: Colour) -> Colour
    ensures colour { result ≡ claimed colour born }
{
    match colour {
        Colour::Blue => born,
        Colour::White | Colour::Gray | Colour::Black => colour,
    }
}

pub(crate) fn is_blue(colour: Colour) -> bool
    ensures blue { result ≡ is_blue colour }
{
    match colour {
        Colour::Blue => true,
        Colour::White | Colour::Gray | Colour::Black => false,
    }
}

pub(crate) fn is_gray(colour: Colour) -> bool
    ensures gray { result ≡ is_gray colour }
{
    match colour {
        Colour::Gray => true,
        Colour::Blue | Colour::White | Colour::Black => false,
    }
}

fn same_field(field: Field, other: Field) -> bool
    ensures same { result ≡ same_field field other }
{
    match field {
        Field::Null => match other {
            Field::Null => true,
            Field::Num(_) | Field::Cell(_) => false,
        },
        Field::Num(number) => match other {
            Field::Num(same) => number == same,
            Field::Null | Field::Cell(_) => false,
        },
        Field::Cell(cell) => match other {
            Field::Cell(same) => cell == same,
            Field::Null | Field::Num(_) => false,
        },
    }
}

pub(crate) fn written(found: Field, old: Field, new: Field) -> Field
    ensures field { result ≡ written found old new }
{
    if same_field(found, old) { new } else { found }
}

pub(crate) fn is_cell(field: Field) -> bool
    ensures cell { result ≡ is_cell field }
{
    match field {
        Field::Cell(_) => true,
        Field::Null | Field::Num(_) => false,
    }
}

pub(crate) fn kind_field(kind: Kind) -> Field
    ensures field { result ≡ kind_field kind }
{
    match kind {
        Kind::Record => Field::Num(1),
        Kind::Boxed => Field::Num(2),
    }
}

pub(crate) fn is_raw_kind(field: Field) -> bool
    ensures raw { result ≡ is_raw_kind field }
{
    match field {
        Field::Null => true,
        Field::Num(_) | Field::Cell(_) => false,
    }
}

pub(crate) fn is_box_kind(field: Field) -> bool
    ensures boxed { result ≡ is_box_kind field }
{
    match field {
        Field::Num(number) => number == 2,
        Field::Null | Field::Cell(_) => false,
    }
}

pub(crate) fn is_handshake(stage: Stage) -> bool
    ensures handshake { result ≡ is_handshake stage }
{
    match stage {
        Stage::Sync1 | Stage::Sync2 | Stage::Trace => true,
        Stage::Idle | Stage::Clear | Stage::Sweep => false,
    }
}

pub(crate) fn same_status(status: Status, other: Status) -> bool
    ensures same { result ≡ same_status status other }
{
    match (status, other) {
        (Status::Async, Status::Async) => true,
        (Status::Sync1, Status::Sync1) => true,
        (Status::Sync2, Status::Sync2) => true,
        _ => false,
    }
}

pub(crate) fn same_stage(stage: Stage, other: Stage) -> bool
    ensures same { result ≡ same_stage stage other }
{
    match (stage, other) {
        (Stage::Idle, Stage::Idle) => true,
        (Stage::Sync1, Stage::Sync1) => true,
        (Stage::Clear, Stage::Clear) => true,
        (Stage::Sync2, Stage::Sync2) => true,
        (Stage::Trace, Stage::Trace) => true,
        (Stage::Sweep, Stage::Sweep) => true,
        _ => false,
    }
}

pub(crate) fn barrier_in(status: Status, mode: Option<Control>) -> Barrier
    ensures barrier { result ≡ barrier_in status mode }
{
    match mode {
        None => Barrier::Nothing,
        Some(mode) => barrier(status, mode),
    }
}

pub(crate) fn marks_some(barrier: Barrier) -> bool
    ensures some { result ≡ marks_some barrier }
{
    match barrier {
        Barrier::Nothing => false,
        Barrier::Old | Barrier::Both => true,
    }
}

pub(crate) fn lets_store(status: Status, mode: Option<Control>) -> bool
    ensures lets { result ≡ lets_store status mode }
{
    match mode {
        None => false,
        Some(mode) => {
            !(same_status(status, Status::Sync2) && same_stage(mode.stage, Stage::Sync2))
        }
    }
}

pub(crate) fn born_colour(status: Status, mode: Option<Control>, cell: u32) -> Colour
    ensures colour { result ≡ born_colour status mode cell }
{
    match mode {
        None => Colour::White,
        Some(mode) => claim_colour(status, mode, cell),
    }
}

pub(crate) fn requests(mode: Option<Control>, wanted: Status) -> bool
    ensures requests { result ≡ requests mode wanted }
{
    match mode {
        None => false,
        Some(mode) => same_status(requested(mode.stage), wanted),
    }
}

fn same_flag(flag: bool, other: bool) -> bool
    ensures same { result ≡ same_flag flag other }
{
    if flag { other } else { !other }
}

pub(crate) fn may_answer_out(wanted: Status, over: bool, found: Presence) -> bool
    ensures may { result ≡ may_answer_out wanted over found }
{
    !found.inside && same_flag(found.over, over) && same_status(next_status(found.status), wanted)
}

pub(crate) fn answered_out(wanted: Status, over: bool, found: Presence) -> Presence
    ensures presence { result ≡ answered_out wanted over found }
{
    if may_answer_out(wanted, over, found) {
        Presence {
            status: wanted,
            ..found
        }
    } else {
        found
    }
}
