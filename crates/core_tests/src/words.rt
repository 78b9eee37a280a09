//! Words that were worked out by hand, each call with what it answers.
use cell_words::Barrier::{Both, Nothing, Old};
use cell_words::Colour::{Black, White};
use cell_words::modes::{barrier, claim_colour, next_status, requested};
use cell_words::*;

/// The words of the cell of `hello`, with their fields.
const HELLO: [(u64, Field); 6] = [
    (21, Field::Num(5)),
    (1_914_241_652_129, Field::Num(478_560_413_032)),
    (1, Field::Num(0)),
    (1, Field::Num(0)),
    (0, Field::Null),
    (5, Field::Num(1)),
];

#[test]
fn a_text_cell_has_these_words(rt: HostRuntime) {
    for (word, field) in &HELLO {
        assert_eq!(rt; unpack_field(*word), Some(*field), "at {word}");
    }
    assert_eq!(rt; pack_field(Field::Num(478_560_413_032)), 1_914_241_652_129);
}

/// Words with their fields.
const FIELDS: [(u64, Option<Field>); 6] = [
    (3, None),
    (4, None),
    (30, Some(Field::Cell(7))),
    (4 * 4_294_967_295 + 2, Some(Field::Cell(4_294_967_295))),
    (4 * 4_294_967_296 + 2, None),
    (u64::MAX, None),
];

#[test]
fn three_and_four_are_no_field_words(rt: HostRuntime) {
    let words = [
        pack_field(Field::Null),
        pack_field(Field::Num(5)),
        pack_field(Field::Cell(7)),
    ];
    assert_eq!(rt; words, [0, 21, 30]);
    for (word, field) in &FIELDS {
        assert_eq!(rt; unpack_field(*word), *field, "at {word}");
    }
}

const COLOURS: [(u64, Colour); 4] = [
    (0, Colour::Blue),
    (1, Colour::White),
    (2, Colour::Gray),
    (3, Colour::Black),
];

#[test]
fn a_colour_is_its_number(rt: HostRuntime) {
    for (word, colour) in &COLOURS {
        let found = (pack_colour(*colour), unpack_colour(*word));
        assert_eq!(rt; found, (*word, Some(*colour)));
    }
    assert_eq!(rt; unpack_colour(4), None);
}

#[test]
fn nobody_is_in_and_over(rt: HostRuntime) {
    let inside = Presence {
        status: Status::Sync2,
        inside: true,
        over: false,
    };
    let over = Presence {
        status: Status::Sync1,
        inside: false,
        over: true,
    };
    assert_eq!(rt; [pack_presence(inside), pack_presence(over)], [6, 9]);
    for (word, presence) in [
        (6, Some(inside)),
        (9, Some(over)),
        (3, None),
        (12, None),
        (16, None),
    ] {
        assert_eq!(rt; unpack_presence(word), presence, "at {word}");
    }
}

#[test]
fn only_the_sweep_has_a_position(rt: HostRuntime) {
    let sweep = Control {
        stage: Stage::Sweep,
        position: 3,
        cycles: 2,
        duty: true,
    };
    let word = 5 + 8 + 64 * 3 + 2 * 4_294_967_296;
    assert_eq!(rt; pack_control(sweep), word);
    for (word, control) in [
        (word, Some(sweep)),
        (word - 1, None),
        (word + 16, None),
        (word + 32, None),
        (6, None),
        (5 + 64 * 4_194_305, None),
        (4_000_000_001 * 4_294_967_296, None),
    ] {
        assert_eq!(rt; unpack_control(word), control, "at {word}");
    }
}

/// What is chosen in a stage, when the sweep has come to cell 4: the status that is asked for, the
/// colours of the cells 3 and 4 and, by a mutator in sync2, of cell 4, and what the barrier marks
/// by status.
type Choices = (Status, [Colour; 3], [Barrier; 3]);

fn choices(stage: Stage) -> Choices {
    let control = Control {
        stage,
        position: 4,
        cycles: 0,
        duty: true,
    };
    let colours = [
        claim_colour(Status::Async, control, 3),
        claim_colour(Status::Async, control, 4),
        claim_colour(Status::Sync2, control, 4),
    ];
    let marks = [
        barrier(Status::Async, control),
        barrier(Status::Sync1, control),
        barrier(Status::Sync2, control),
    ];
    (requested(stage), colours, marks)
}

const CHOICES: [(Stage, Status, [Colour; 2], Barrier); 6] = [
    (Stage::Idle, Status::Async, [White, White], Nothing),
    (Stage::Sync1, Status::Sync1, [White, White], Nothing),
    (Stage::Clear, Status::Sync1, [White, White], Nothing),
    (Stage::Sync2, Status::Sync2, [White, White], Nothing),
    (Stage::Trace, Status::Async, [Black, Black], Old),
    (Stage::Sweep, Status::Async, [White, Black], Nothing),
];

#[test]
fn choices_by_stage(rt: HostRuntime) {
    for (stage, asked, colours, marks) in &CHOICES {
        let wanted = (
            *asked,
            [colours[0], colours[1], White],
            [*marks, Both, Both],
        );
        assert_eq!(rt; choices(*stage), wanted);
    }
    let next = [
        next_status(Status::Async),
        next_status(Status::Sync1),
        next_status(Status::Sync2),
    ];
    assert_eq!(rt; next, [Status::Sync1, Status::Sync2, Status::Async]);
}
