//! Command lines with the numbers that are asked for. The rows of examples/rows show where files
//! and options stand, and what is no such line.
use command_line::*;
use std::alloc::{AllocError, Global};
use std::test::Fail;

// The words of a line, which are separated by single spaces.
fn words_of(alloc: Global, line: &str) -> Result<Vec<String>, AllocError> {
    let mut words = Vec::new(alloc);
    for word in line.split(' ') {
        words.push(String::from_str(alloc, word)?)?;
    }
    Ok(words)
}

/// What is asked for: the numbers of the options, whether the history and the totals are written,
/// how many files there are, and whether the last has a given name.
type Asked = ([u32; 5], [bool; 2], usize, bool);

fn asked_by(request: &Request<'_>, last: &str) -> Option<Asked> {
    match request {
        Request::Run(run) | Request::Image(run) => Some((
            [run.cells, run.minor, run.keep, run.versions, run.cycles],
            [run.history, run.stats],
            run.files.len(),
            run.files.last().copied() == Some(last),
        )),
        Request::Mail(mail) => Some((
            [mail.cells, 0, 0, 0, mail.cycles],
            [false, false],
            mail.files.len(),
            mail.files.last().copied() == Some(last),
        )),
        Request::Dump(names) => Some((
            [0; 5],
            [false, false],
            names.len(),
            names.last().copied() == Some(last),
        )),
        Request::Replay(name) | Request::Load(name) | Request::Census(name) => {
            Some(([0; 5], [false, false], 1, *name == last))
        }
        _ => None,
    }
}

fn asked_of(alloc: Global, line: &str, last: &str) -> Result<Option<Asked>, WordsFault> {
    let words = words_of(alloc, line)?;
    let request = read_words(alloc, &words)?;
    Ok(asked_by(&request, last))
}

/// Lines with the numbers of their options, whether they have both flags, how many files they name,
/// and the last.
const LINES: [(&str, [u32; 5], bool, usize, &str); 11] = [
    (
        "run hello.txt",
        [65_536, 8_192, 8, 1_000_000, 4_000_000_000],
        false,
        1,
        "hello.txt",
    ),
    (
        "run --cells 64 --minor 4096 --keep 1 --versions 1 --cycles 0 a",
        [64, 4_096, 1, 1, 0],
        false,
        1,
        "a",
    ),
    (
        "run --cells 4194304 --minor 262144 --keep 100 --versions 1000000 \
            --cycles 4000000000 --stats --history a",
        [4_194_304, 262_144, 100, 1_000_000, 4_000_000_000],
        true,
        1,
        "a",
    ),
    (
        "image --cells 64 --minor 4096 --keep 1 a --versions 1 --cycles 0 b",
        [64, 4_096, 1, 1, 0],
        false,
        2,
        "b",
    ),
    (
        "image a",
        [65_536, 8_192, 8, 1_000_000, 4_000_000_000],
        false,
        1,
        "a",
    ),
    ("mail a", [65_536, 0, 0, 0, 4_000_000_000], false, 1, "a"),
    (
        "mail a --cells=4194304 b --cycles 0 a",
        [4_194_304, 0, 0, 0, 0],
        false,
        3,
        "a",
    ),
    ("dump a a b", [0; 5], false, 3, "b"),
    ("replay -- -a", [0; 5], false, 1, "-a"),
    ("load a.dump", [0; 5], false, 1, "a.dump"),
    ("census a.heap", [0; 5], false, 1, "a.heap"),
];

#[test]
fn both_ends_of_every_option_and_the_defaults_are_taken(rt: HostRuntime) -> Result<(), Fail> {
    for (line, numbers, flags, files, last) in &LINES {
        assert_eq!(rt;
            asked_of(rt.alloc(), line, last)?,
            Some((*numbers, [*flags, *flags], *files, true)),
            "at {line:?}"
        );
    }
    Ok(())
}

fn gen_of(alloc: Global, line: &str) -> Result<Option<GenWords>, WordsFault> {
    let words = words_of(alloc, line)?;
    Ok(match &read_words(alloc, &words)? {
        Request::Gen(made) => Some(*made),
        _ => None,
    })
}

const GENERATED: [(&str, u32, u32, u32, Option<u32>); 3] = [
    (
        "gen --print=64 2147483647 64 10000",
        2_147_483_647,
        64,
        10_000,
        Some(64),
    ),
    ("gen 0 --print 1 1 1", 0, 1, 1, Some(1)),
    ("gen 1 64 1562", 1, 64, 1_562, None),
];

#[test]
fn generated_scripts_have_three_numbers(rt: HostRuntime) -> Result<(), Fail> {
    for (line, start, clients, commands, print) in &GENERATED {
        let wanted = GenWords {
            start: *start,
            clients: *clients,
            commands: *commands,
            print: *print,
        };
        assert_eq!(rt; gen_of(rt.alloc(), line)?, Some(wanted), "at {line:?}");
    }
    Ok(())
}
