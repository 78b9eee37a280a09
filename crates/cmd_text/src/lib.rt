//! Scripts of commands as text, and replies, entries of a history and totals as lines of text.
//!
//! `read_script` reads a whole script by a fixed grammar, of which there are two versions: the
//! layer above may rely on its commands being those of the definition, and on a fault naming the
//! first faulty line and what is wrong there. The line calls give the exact bytes that the program
//! writes, line feed included. What a command does, and where bytes come from and go to, is left to
//! others.
//!
//! Reading order: `form`, `texts`, `fault`, `verb`, `recent_paths`, `line`, `script`; of version 2
//! `word`, `held`, `batch`, `second`; `reply`, `summary`.
#![tactic(auto)]

mod batch;
mod fault;
mod form;
mod held;
mod line;
mod recent_paths;
mod reply;
mod script;
mod second;
mod summary;
mod texts;
mod verb;
mod word;

pub use crate::fault::{ScriptError, ScriptFault, ScriptKind};
pub use crate::form::{Form, script_form, script_version};
pub use crate::reply::{add_reply, heading_line, reply_line};
pub use crate::script::read_script;
pub use crate::summary::{history_line, stats_lines};
pub use crate::texts::{quoted, read_quoted};
