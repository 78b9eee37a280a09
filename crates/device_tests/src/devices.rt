ghost use Rattle.std.specs.Prelude.{◌≤◌};

use outside::{
    FileShelf, MemShelf, MemSink, OutFault, READ_LIMIT, Shelf, Sink, StdSink, SureShelf, SureSink,
    read_file, write_all, write_lines,
};
use std::alloc::{AllocError, Global};
use std::fmt::Display;
use std::io::{Error, ErrorKind};
use std::rt::Files as RealFiles;
use std::test::Fail;

type Files = Vec<(String, Vec<u8>)>;

// Two files: `a` with four bytes, and `b`, which is empty.
fn two_files(alloc: Global) -> Result<Files, AllocError> {
    let four = b"four".to_vec(alloc)?;
    let a = String::from_str(alloc, "a")?;
    let b = String::from_str(alloc, "b")?;
    Ok(vec![in alloc; (a, four), (b, Vec::new(alloc))]?)
}

const TWO_LINES: &[u8] = b"client 1\nok 1\n";

/// Whether the file is read as these bytes.
fn is_read<S: Shelf>(
    alloc: Global,
    shelf: &mut S,
    name: &str,
    bytes: &[u8],
) -> Result<bool, OutFault> {
    let read = read_file(alloc, shelf, name)?;
    Ok(read.as_slice() == bytes)
}

fn length_read<S: Shelf>(alloc: Global, shelf: &mut S, name: &str) -> Result<usize, OutFault> {
    let read = read_file(alloc, shelf, name)?;
    Ok(read.len())
}

fn two_read(alloc: Global) -> Result<(bool, bool), OutFault> {
    let mut shelf = MemShelf::new(two_files(alloc)?, Vec::new(alloc));
    let four = is_read(alloc, &mut shelf, "a", b"four")?;
    Ok((four, is_read(alloc, &mut shelf, "b", b"")?))
}

fn surely_read(alloc: Global) -> Result<(bool, bool), OutFault> {
    let mut shelf = SureShelf::new(two_files(alloc)?);
    let four = is_read(alloc, &mut shelf, "a", b"four")?;
    Ok((four, is_read(alloc, &mut shelf, "absent", b"")?))
}

#[test]
fn a_file_is_read_to_its_end(rt: HostRuntime) -> Result<(), Fail> {
    assert_eq!(rt; two_read(rt.alloc())?, (true, true));
    assert_eq!(rt; surely_read(rt.alloc())?, (true, true));
    Ok(())
}

/// The result of reading the file where one call fails, and how many calls were made.
fn failed_read(
    alloc: Global,
    name: &str,
    failing: u64,
) -> Result<(Result<usize, OutFault>, u64), AllocError> {
    let mut shelf = MemShelf::new(two_files(alloc)?, vec![in alloc; failing]?);
    let read = length_read(alloc, &mut shelf, name);
    Ok((read, shelf.calls()))
}

// The calls are: open, a read of four bytes, a read that finds the end.
#[test]
fn a_failed_call_of_a_shelf_is_the_last(rt: HostRuntime) -> Result<(), Fail> {
    for (name, failing, calls) in [("a", 1, 1), ("a", 2, 2), ("a", 3, 3), ("absent", 9, 1)] {
        assert_eq!(rt;
            failed_read(rt.alloc(), name, failing)?,
            (Err(OutFault::Failed), calls),
            "call {failing} of {name}"
        );
    }
    Ok(())
}

/// How many bytes are read of a long file, and how many the next read gives.
fn long_read(alloc: Global) -> Result<(usize, usize), OutFault> {
    let long = vec![in alloc; b'#'; 1_048_580]?;
    let name = String::from_str(alloc, "long")?;
    let mut shelf = SureShelf::new(vec![in alloc; (name, long)]?);
    let bytes = read_file(alloc, &mut shelf, "long")?;
    let mut rest = [0; 64];
    Ok((bytes.len(), shelf.read(&mut rest)?))
}

#[test]
fn one_byte_more_than_the_largest_file_is_read(rt: HostRuntime) -> Result<(), Fail> {
    assert_eq!(rt; long_read(rt.alloc())?, (1_048_577, 3));
    Ok(())
}

/// Whether the two lines are written, with so many bytes a call at most, and in how many calls.
fn two_written(alloc: Global, most: usize) -> Result<(bool, u64), OutFault>
    requires { 1 ≤ most }
{
    let mut sink = MemSink::new(most, Vec::new(alloc));
    write_lines(&mut sink, TWO_LINES)?;
    Ok((sink.written() == TWO_LINES, sink.calls()))
}

fn surely_written(alloc: Global) -> Result<bool, OutFault> {
    let mut sink = SureSink::new(alloc);
    write_lines(&mut sink, TWO_LINES)?;
    Ok(sink.written() == TWO_LINES)
}

// With three bytes a call, the lines of nine and five bytes take three calls and two.
#[test]
fn a_line_is_one_piece_and_its_rest_is_offered_again(rt: HostRuntime) -> Result<(), Fail> {
    for (most, calls) in [(100, 2), (3, 5)] {
        assert_eq!(rt;
            two_written(rt.alloc(), most)?,
            (true, calls),
            "{most} a call"
        );
    }
    assert!(rt; surely_written(rt.alloc())?);
    Ok(())
}

/// The result of writing the lines where the second call fails, whether these bytes were written by
/// then, and in how many calls.
fn failed_write(
    alloc: Global,
    most: usize,
    bytes: &[u8],
) -> Result<(Result<(), OutFault>, bool, u64), AllocError>
    requires { 1 ≤ most }
{
    let mut sink = MemSink::new(most, vec![in alloc; 2]?);
    let write = write_lines(&mut sink, TWO_LINES);
    Ok((write, sink.written() == bytes, sink.calls()))
}

#[test]
fn a_failed_call_of_a_sink_is_the_last(rt: HostRuntime) -> Result<(), Fail> {
    for (most, written) in [(100, "client 1\n"), (3, "cli")] {
        assert_eq!(rt;
            failed_write(rt.alloc(), most, written.as_bytes())?,
            (Err(OutFault::Failed), true, 2),
            "{most} a call"
        );
    }
    Ok(())
}

/// How many bytes are read of real files, one after the other.
fn really_read<R: RealFiles>(
    alloc: Global,
    files: &R,
    names: [&str; 4],
) -> [Result<usize, OutFault>; 4] {
    let mut shelf = FileShelf::new(files);
    [
        length_read(alloc, &mut shelf, names[0]),
        length_read(alloc, &mut shelf, names[1]),
        length_read(alloc, &mut shelf, names[2]),
        length_read(alloc, &mut shelf, names[3]),
    ]
}

// An empty device, one without an end, a folder, and a path that is not there.
#[test]
fn real_files_are_read(rt: HostRuntime) {
    let names = ["/dev/null", "/dev/zero", "/", "/no such file"];
    let failed = Err(OutFault::Failed);
    let wanted = [Ok(0), Ok(READ_LIMIT), failed, failed];
    assert_eq!(rt; really_read(rt.alloc(), &rt, names), wanted);
}

/// How many bytes are read after two openings, and the result of a third.
fn opened_again<R: RealFiles>(files: &R) -> Result<(usize, Result<(), OutFault>), OutFault> {
    let mut shelf = FileShelf::new(files);
    shelf.open("/dev/null")?;
    shelf.open("/dev/zero")?;
    let mut buffer = [1; 4];
    let read = shelf.read(&mut buffer)?;
    Ok((read, shelf.open("/no such file")))
}

#[test]
fn a_second_open_takes_the_place_of_the_first(rt: HostRuntime) -> Result<(), Fail> {
    assert_eq!(rt; opened_again(&rt)?, (4, Err(OutFault::Failed)));
    Ok(())
}

// A printer whose device is full.
#[derive(Drop)]
struct FullPrinter;

impl Print for FullPrinter {
    fn print<D: Display + Drop>(&self, _value: D) -> Result<(), Error> {
        Err(Error::from(ErrorKind::StorageFull))
    }

    fn println<D: Display + Drop>(&self, _value: D) -> Result<(), Error> {
        Err(Error::from(ErrorKind::StorageFull))
    }

    fn write_all(&self, _bytes: &[u8]) -> Result<(), Error> {
        Err(Error::from(ErrorKind::StorageFull))
    }
}

/// What each call of a sink on a full device answers: the finish of nothing, three writes and the
/// finish after them.
#[derive(Clone, Copy, Debug, PartialEq, Eq)]
struct Answers {
    finish: [Result<(), OutFault>; 2],
    writes: [Result<usize, OutFault>; 3],
}

fn answers_when_full(alloc: Global) -> Result<Answers, AllocError> {
    let piece = vec![in alloc; b'#'; 65_536]?;
    let printer = FullPrinter;
    let mut sink = StdSink::new(alloc, &printer);
    let first = sink.finish();
    let writes = [sink.write(&piece), sink.write(b"more"), sink.write(b"more")];
    Ok(Answers {
        finish: [first, sink.finish()],
        writes,
    })
}

// A full device fails when what is gathered is written out, and not before.
#[test]
fn a_full_device_fails_the_write_that_meets_it(rt: HostRuntime) -> Result<(), Fail> {
    let failed = Err(OutFault::Failed);
    let wanted = Answers {
        finish: [Err(OutFault::Failed), Err(OutFault::Failed)],
        writes: [Ok(65_536), failed, Ok(4)],
    };
    assert_eq!(rt; answers_when_full(rt.alloc())?, wanted);
    Ok(())
}

/// What an empty write and the finish after a line answer.
fn std_answers<R: Print>(
    alloc: Global,
    out: &R,
) -> Result<(Option<usize>, Result<(), OutFault>), OutFault> {
    let mut sink = StdSink::new(alloc, out);
    write_all(&mut sink, b"to standard output\n")?;
    let write = sink.write(b"").ok();
    Ok((write, sink.finish()))
}

#[test]
fn standard_output_is_written(rt: HostRuntime) -> Result<(), Fail> {
    assert_eq!(rt; std_answers(rt.alloc(), &rt)?, (Some(0), Ok(())));
    Ok(())
}
