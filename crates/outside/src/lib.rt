//! Files and output behind two traits, so that a run is proved for every device, failing ones too.
//!
//! A `Shelf` opens files by name and reads them; a `Sink` takes bytes. Their meanings say what each
//! name holds and what was written, where the object tells that, and a failed call shows itself by
//! a count of faults that rose. `read_file` and `write_lines` are the two loops over them.
//! `MemShelf` and `MemSink` fail at chosen calls, `SureShelf` and `SureSink` never; `FileShelf` and
//! `StdSink` stand over real files and standard output, and are the trusted edge. A `Gate` says
//! when a client's next command may begin.
//!
//! Reading order: `fault`, `reading`, `writing`, then the objects; `gate` stands alone.
#![tactic(auto)]

mod course;
mod fault;
mod file_shelf;
mod gate;
mod mem_shelf;
mod mem_sink;
mod named_files;
mod reading;
mod std_sink;
mod sure_shelf;
mod sure_sink;
mod writing;

pub use course::Course;
pub use fault::OutFault;
pub use file_shelf::FileShelf;
pub use gate::{AfterGate, CrossGate, Gate, HoldGate, OpenGate};
pub use mem_shelf::MemShelf;
pub use mem_sink::MemSink;
pub use reading::{READ_LIMIT, Shelf, read_file};
pub use std_sink::StdSink;
pub use sure_shelf::SureShelf;
pub use sure_sink::SureSink;
pub use writing::{Sink, write_all, write_lines};
