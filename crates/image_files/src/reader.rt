//! A whole heap file: its lines, and the census of the heap that they show.
ghost use Rattle.cell_words.specs.declared.controls.TheConstants.{GREATEST_POSITION};
ghost use Rattle.image_files.specs.Answers.{Lists, ListsFile, ReadsImage};
ghost use Rattle.image_files.specs.Answers.{IsSafe};
ghost use Rattle.image_files.specs.Contents.{contents_of, ended, lines_from, turn_of};
ghost use Rattle.image_files.specs.File.{IsFile};
ghost use Rattle.image_files.specs.declared.fault.ImageError.TheVariants as error;
ghost use Rattle.line_texts.specs.Lines.{is_end, lines_left, lines_of};
ghost use Rattle.std.specs.Prelude.{IfOk, [], ◌≡◌, ◌≤◌, ◌<◌};

use crate::fault::{ImageError, ImageFault, ImageKind, kind_of};
use crate::file::ImageFile;
use crate::line::{Held, read_head, read_line};
use heap_census::{Census, Checked, check_cells};
use line_texts::{cut_line, is_end};
use std::alloc::Global;

/// The census of the heap of which the bytes are the file, or the first line by which they are
/// none, or the line of the least cell with which something is wrong.
pub fn read_image(alloc: Global, bytes: &[u8]) -> Result<Census, ImageError>
    ensures contents { ReadsImage result (contents_of bytes.now) }
    ensures safe { IfOk result (λ census. IsSafe (contents_of bytes.now)) }
{
    let file = read_file(alloc, bytes)?;
    match check_cells(alloc, &file)? {
        Checked::Sound(census) => Ok(census),
        Checked::Faulty(at) => Err(fault_at(file.line_of(at.cell), kind_of(at.flaw))),
    }
}

// The lines of a file.
fn read_file(alloc: Global, bytes: &[u8]) -> Result<ImageFile, ImageError>
    ensures contents { ListsFile result (contents_of bytes.now) }
    ensures file { IfOk result IsFile }
{
    let (head, more) = cut_line(bytes);
    let Some(rest) = more else {
        return Err(fault_at(1, ImageKind::NoHead));
    };
    let Some(size) = read_head(head) else {
        return Err(fault_at(1, ImageKind::NoHead));
    };
    read_lines(alloc, size, rest)
}

fn fault_at(line: u32, kind: ImageKind) -> ImageError
    ensures { result ≡ error.Fault (record { line = line; kind = kind }) }
{
    ImageError::Fault(ImageFault { line, kind })
}

// The lines after the head.
fn read_lines(alloc: Global, size: u32, bytes: &[u8]) -> Result<ImageFile, ImageError>
    requires some { 0 < size }
    requires few { size ≤ GREATEST_POSITION }
    ensures size { IfOk result (λ file. file.size ≡ size) }
    ensures lines { Lists result (lines_from size [] (lines_of bytes.now)) }
    ensures file { IfOk result IsFile }
{
    let mut file = ImageFile::new(alloc, size)?;
    let mut rest = Some(bytes);
    while let Some(left) = rest {
        let (line, more) = cut_line(left);
        match read_turn(&file, line, more.is_some()) {
            Ok(Held::End) => return ended(file, more),
            Ok(Held::Cell(cell)) => {
                file.push(cell)?;
                rest = more;
            }
            Err(kind) => return Err(fault_at(file.count() + 2, kind)),
        }
    }
    Err(fault_at(file.count() + 2, ImageKind::BadEnd))
}

// The line after those of a file.
fn read_turn(file: &ImageFile, line: &[u8], has_feed: bool) -> Result<Held, ImageKind>
    requires { IsFile file.now }
    ensures { result ≡ turn_of file.now.size file.now.lines has_feed line.now }
{
    let held = read_line(file.size(), line, has_feed)?;
    match held {
        Held::Cell(cell) if cell.cell < file.least() => Err(ImageKind::NoOrder),
        _ => Ok(held),
    }
}

// The file, if no byte follows the end.
fn ended(file: ImageFile, rest: Option<&[u8]>) -> Result<ImageFile, ImageError>
    requires { IsFile file }
    ensures size { IfOk result (λ whole. whole.size ≡ file.size) }
    ensures lines { Lists result (ended file.lines (lines_left rest.entry)) }
    ensures file { IfOk result IsFile }
{
    if is_end(rest) {
        Ok(file)
    } else {
        Err(fault_at(file.count() + 3, ImageKind::BadEnd))
    }
}
