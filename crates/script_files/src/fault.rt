ghost use Rattle.std.specs.Prelude.{◌≡◌, IfOk, is_ok, string_bytes};
ghost use Rattle.script_files.specs.Fault.{fault_text_of, file_text_of, final_fault_of};
ghost use Rattle.script_files.specs.Fault.{image_kind_text_of, kind_text_of, line_text_of};
ghost use Rattle.script_files.specs.Fault.{load_kind_text_of, mail_kind_text_of};
ghost use Rattle.script_files.specs.Fault.{schedule_kind_text_of, status_of};

use crate::mail_fault::MailKind;
use cmd_text::ScriptKind;
use core_replay::ScheduleKind;
use doc_model::NoMemory;
use dump_text::LoadKind;
use image_files::ImageKind;
use outside::OutFault;
use std::alloc::Global;
use std::fmt::{self, Display, Formatter, Write};
use thiserror::Error;

/// Why a run ended early. Files are numbered from 1. It shows itself as `fault_text` says.
#[derive(Clone, Copy, Debug, PartialEq, Eq, Error)]
pub enum Fault {
    /// The words are no command line of the program.
    #[error("docheap: usage")]
    Usage,
    /// A file is no script.
    #[error("docheap: file {file}: line {line}: {kind:?}")]
    Script {
        file: u32,
        line: u32,
        kind: ScriptKind,
    },
    /// A file is no schedule. It is the only one.
    #[error("docheap: file 1: line {line}: {kind:?}")]
    Schedule {
        line: u32,
        kind: ScheduleKind,
    },
    /// A file is no dump. It is the only one.
    #[error("docheap: file 1: line {line}: {kind:?}")]
    Dump {
        line: u32,
        kind: LoadKind,
    },
    /// A file is no heap file, or its heap has no census. It is the only one.
    #[error("docheap: file 1: line {line}: {kind:?}")]
    Image {
        line: u32,
        kind: ImageKind,
    },
    /// A file is no script of a sender of a mailbox.
    #[error("docheap: file {file}: line {line}: {kind:?}")]
    Mail {
        file: u32,
        line: u32,
        kind: MailKind,
    },
    /// A file could not be opened or read.
    #[error("docheap: file {file}: read fault")]
    ReadFault {
        file: u32,
    },
    /// The output could not be written.
    #[error("docheap: write fault")]
    WriteFault,
    /// Memory ran out.
    #[error("docheap: out of memory")]
    Memory,
    /// A file has too many bytes, or for file 0 there are too many files or commands.
    #[error("docheap: {place}too large", place = FilePlace(*.file))]
    TooLarge {
        file: u32,
    },
}

// A file's number in front of what is said of it, or nothing for file 0.
#[derive(Drop)]
struct FilePlace(u32);

impl Display for FilePlace {
    fn fmt<W: Write>(&self, f: &mut Formatter<W>) -> fmt::Result {
        match self.0 {
            0 => Ok(()),
            file => write!(f, "file {file}: "),
        }
    }
}

/// The line that the program prints of a fault, without its line feed.
pub fn fault_text(alloc: Global, fault: &Fault) -> Result<Vec<u8>, NoMemory>
    ensures text { IfOk result (λ text. text.items ≡ fault_text_of fault.now) }
{
    Ok(said(alloc, fault)?.into_bytes())
}

fn said(alloc: Global, fault: &Fault) -> Result<String, NoMemory>
    ensures { IfOk result (λ text. string_bytes text ≡ fault_text_of fault.now) }
{
    match fault {
        Fault::Usage => String::from_str(alloc, "docheap: usage"),
        Fault::Script { file, line, kind } => {
            let what = said_of_line(alloc, *line, kind_text(*kind))?;
            said_of_file(alloc, *file, what.as_str())
        }
        Fault::Schedule { line, kind } => {
            let what = said_of_line(alloc, *line, schedule_kind_text(*kind))?;
            said_of_file(alloc, 1, what.as_str())
        }
        Fault::Dump { line, kind } => {
            let what = said_of_line(alloc, *line, load_kind_text(*kind))?;
            said_of_file(alloc, 1, what.as_str())
        }
        Fault::Image { line, kind } => {
            let what = said_of_line(alloc, *line, image_kind_text(*kind))?;
            said_of_file(alloc, 1, what.as_str())
        }
        Fault::Mail { file, line, kind } => {
            let what = said_of_line(alloc, *line, mail_kind_text(*kind))?;
            said_of_file(alloc, *file, what.as_str())
        }
        Fault::ReadFault { file } => said_of_file(alloc, *file, "read fault"),
        Fault::WriteFault => String::from_str(alloc, "docheap: write fault"),
        Fault::Memory => String::from_str(alloc, "docheap: out of memory"),
        Fault::TooLarge { file } if *file == 0 => String::from_str(alloc, "docheap: too large"),
        Fault::TooLarge { file } => said_of_file(alloc, *file, "too large"),
    }
}

fn said_of_file(alloc: Global, file: u32, what: &str) -> Result<String, NoMemory>
    ensures { IfOk result (λ text. string_bytes text ≡ file_text_of file what.now) }
{
    format!(in alloc; "docheap: file {file}: {what}")
}

fn said_of_line(alloc: Global, line: u32, kind: &str) -> Result<String, NoMemory>
    ensures { IfOk result (λ text. string_bytes text ≡ line_text_of line kind.now) }
{
    format!(in alloc; "line {line}: {kind}")
}

fn kind_text(kind: ScriptKind) -> &'static str
    ensures { result.now ≡ kind_text_of kind }
{
    match kind {
        ScriptKind::BadByte => "BadByte",
        ScriptKind::NoCommand => "NoCommand",
        ScriptKind::NoBatch => "NoBatch",
        ScriptKind::BadNumber => "BadNumber",
        ScriptKind::BadPath => "BadPath",
        ScriptKind::NoQuote => "NoQuote",
        ScriptKind::LongText => "LongText",
        ScriptKind::Extra => "Extra",
        ScriptKind::LongBatch => "LongBatch",
    }
}

fn schedule_kind_text(kind: ScheduleKind) -> &'static str
    ensures { result.now ≡ schedule_kind_text_of kind }
{
    match kind {
        ScheduleKind::BadByte => "BadByte",
        ScheduleKind::NoStart => "NoStart",
        ScheduleKind::NoEvent => "NoEvent",
        ScheduleKind::BadNumber => "BadNumber",
        ScheduleKind::Extra => "Extra",
    }
}

fn load_kind_text(kind: LoadKind) -> &'static str
    ensures { result.now ≡ load_kind_text_of kind }
{
    match kind {
        LoadKind::NoHead => "NoHead",
        LoadKind::BadEnd => "BadEnd",
        LoadKind::BadLine => "BadLine",
        LoadKind::NoOrder => "NoOrder",
        LoadKind::Many => "Many",
        LoadKind::Big => "Big",
    }
}

fn image_kind_text(kind: ImageKind) -> &'static str
    ensures { result.now ≡ image_kind_text_of kind }
{
    match kind {
        ImageKind::NoHead => "NoHead",
        ImageKind::BadEnd => "BadEnd",
        ImageKind::BadLine => "BadLine",
        ImageKind::NoOrder => "NoOrder",
        ImageKind::Blue => "Blue",
        ImageKind::BadShape => "BadShape",
    }
}

fn mail_kind_text(kind: MailKind) -> &'static str
    ensures { result.now ≡ mail_kind_text_of kind }
{
    match kind {
        MailKind::BadByte => "BadByte",
        MailKind::NoCommand => "NoCommand",
        MailKind::BadNumber => "BadNumber",
        MailKind::Extra => "Extra",
    }
}

/// The status that the program ends with.
pub fn status(fault: Option<Fault>) -> u8
    ensures { result ≡ status_of fault }
{
    match fault {
        None => 0,
        Some(Fault::Usage) => 1,
        Some(Fault::Script { .. } | Fault::Schedule { .. }) => 2,
        Some(Fault::Dump { .. } | Fault::Image { .. } | Fault::Mail { .. }) => 2,
        Some(Fault::ReadFault { .. }) => 3,
        Some(Fault::WriteFault) => 4,
        Some(Fault::Memory) => 5,
        Some(Fault::TooLarge { .. }) => 6,
    }
}

/// The fault that the program ends with: that of the run, and else that of writing out at its end
/// what was gathered.
pub fn final_fault(of_run: Option<Fault>, finished: Result<(), OutFault>) -> Option<Fault>
    ensures { result ≡ final_fault_of of_run (is_ok finished) }
{
    match (of_run, finished) {
        (None, Err(_)) => Some(Fault::WriteFault),
        (fault, _) => fault,
    }
}
