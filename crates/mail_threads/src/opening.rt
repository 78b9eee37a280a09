//! The opening of a mailbox's heap, with a mutator for each sender and one for the receiver.
ghost use Rattle.std.specs.Prelude.{◌≤◌, ◌<◌, ◌-◌, All, IfOk, length};
ghost use Rattle.beside_collector.specs.Scripts.{script_of};
ghost use Rattle.mail_threads.specs.Opened.{IsOpenMail};
ghost use Rattle.mail_threads.specs.Workers.{AreSmall, MaySend};

use crate::workers::Answers;
use beside_collector::script_at;
use cell_mailbox::{MailPass, opening_rows};
use cell_words::GREATEST_POSITION;
use collector::NoMemory;
use mutator_threads::{Opened, open};
use run_limits::{MOST_CLIENTS, MOST_COMMANDS};
use std::alloc::Global;
use std::sync::Wait;

/// How many places a mutator has: the anchor's, and those of one call.
const PLACES: u32 = 16;

/// Opens a heap with a mailbox, with a mutator for each script and a last one for the receiver.
/// Each sender has room for the answers to its lines.
pub fn open_mail<R: Wait>(
    alloc: Global,
    rt: &R,
    scripts: &[Vec<u64>],
    cells: u32,
) -> Result<Opened<MailPass, Answers>, NoMemory>
    requires few { length scripts.now ≤ MOST_CLIENTS - 1 }
    requires small { All (λ script. AreSmall script.items) scripts.now }
    requires short { All (λ script. length script.items ≤ MOST_COMMANDS) scripts.now }
    requires cells { (64 ≤ cells) × (cells ≤ GREATEST_POSITION) }
    ensures opened { IfOk result (λ made. IsOpenMail cells scripts.now made) }
{
    let rows = opening_rows();
    let own = move |number: u32| -> Result<Answers, NoMemory>
        requires { (number < MOST_CLIENTS) × AreSmall (script_of scripts.now number)
            × (length (script_of scripts.now number) ≤ MOST_COMMANDS) }
        ensures { IfOk result (λ sent. MaySend scripts.entry.now number sent) }
    { Vec::with_capacity(alloc, script_at(scripts, number).len()) };
    let mutators = scripts.len() as u32 + 1;
    open(alloc, rt, cells, mutators, 0, &rows, PLACES, own)
}
