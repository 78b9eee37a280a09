//! The scripts of several files, read one after another.
//!
//! Too many files are refused unread.
ghost use Rattle.std.specs.Prelude.{◌≡◌, ℕ, ◌+◌, ◌*◌, ◌≤◌, [], ◌∷◌, ◌++◌, length, map, IfOk};
ghost use Rattle.std.specs.Prelude.{OnOk, IsErrOf};
ghost use Rattle.std.specs.Prelude.{sum_by};
ghost use Rattle.outside.specs.Calls.{IsUnbroken, IsOrderly};
ghost use Rattle.outside.specs.Causes.{Rose};
ghost use Rattle.script_files.specs.Files.{OpensInTurn, files_read, opened};
ghost use Rattle.cmd_text.specs.Form.{form_of};
ghost use Rattle.script_files.specs.Formed.{DecidesFiles};
ghost use Rattle.script_files.specs.InTurn.{counted};
ghost use Rattle.script_files.specs.Reading.{Decides};
ghost use Rattle.doc_model.specs.Scripts.{lists_of};
ghost use Rattle.script_files.specs.Scripts.{StopsBehind, parse_script, script_in};
ghost use Rattle.script_files.specs.Sorts.{OfScripts};

use crate::fault::Fault;
use crate::in_turn::{Gathering, LARGEST_FILE, gather};
use cmd_text::{Form, ScriptError, ScriptFault, read_script, script_form};
use doc_model::{Command, NoMemory};
use outside::{READ_LIMIT, Shelf};
use run_limits::MOST_COMMANDS;
use std::alloc::Global;

// How many files there are at most.
const MOST_FILES: usize = 64;

/// The scripts of several files, one of each.
#[derive(Drop)]
pub struct Scripts {
    pub commands: Vec<Vec<Command>>,
    /// the form of each script's texts
    pub forms: Vec<Form>,
}

impl Scripts {
    fn push(&mut self, script: Vec<Command>, form: Form) -> Result<(), NoMemory>
        ensures commands { OnOk result (self.new.commands.items
            ≡ self.old.commands.items ++ script ∷ []) }
        ensures forms { OnOk result (self.new.forms.items
            ≡ self.old.forms.items ++ form ∷ []) }
    {
        self.commands.push(script)?;
        self.forms.push(form)?;
        Ok(())
    }
}

impl Gathering for Scripts {
    type Each = Command;

    type Note = Form;

    ghost grammar = { OfScripts };

    ghost parse = { parse_script };

    ghost note = { form_of };

    ghost lists = { λ s. lists_of s.commands.items };

    ghost notes = { λ s. s.forms.items };

    ghost fits = { λ s. Unit {0} };

    fn add(
        &mut self,
        alloc: Global,
        bytes: &[u8],
        file: u32,
        before: usize,
    ) -> Result<usize, Fault> {
        let form = script_form(bytes);
        let commands = match script_in_bytes(alloc, bytes, file, before) {
            Ok(commands) => commands,
            Err(fault) => return Err(fault),
        };
        let count = commands.len();
        match self.push(commands, form) {
            Ok(()) => Ok(count),
            Err(_) => Err(Fault::Memory),
        }
    }
}

/// The scripts in the files of these names.
#[tactic(auto, using(crate::proofs::Opens::stops_none))]
pub fn scripts_in_files<H: Shelf>(
    alloc: Global,
    names: &[&str],
    shelf: &mut H,
) -> Result<Scripts, Fault>
    ensures scripts { DecidesFiles
        (map (H.holds shelf.old) (map (λ name. name.now) names.now)) result }
    ensures count { IfOk result (λ scripts. length scripts.commands.items ≡ length names.now) }
    ensures few { IfOk result (λ scripts. length scripts.commands.items ≤ 64) }
    ensures total { IfOk result (λ scripts.
        sum_by (λ script. length script.items) scripts.commands.items ≤ MOST_COMMANDS) }
    ensures read { (file : ℕ) → IsErrOf result (Fault.ReadFault file) →
        Rose (H.faults shelf.old) (H.faults shelf.new) }
    ensures read_file { (file : ℕ) → IsErrOf result (Fault.ReadFault file) →
        H.opens shelf.new ≡ opened (H.opens shelf.old) file }
    ensures opens { OpensInTurn (H.opens shelf.old) (H.opens shelf.new)
        (files_read (length names.now)) }
    ensures all_opened { OnOk result (H.opens shelf.new
        ≡ opened (H.opens shelf.old) (length names.now)) }
    ensures stops { StopsBehind 1 0
        (map (H.holds shelf.old) (map (λ name. name.now) names.now))
        (H.opens shelf.old) (H.opens shelf.new) }
    ensures calls { H.calls shelf.new
        ≤ H.calls shelf.old + files_read (length names.now) * (READ_LIMIT + 1) }
    ensures unbroken { OnOk result (IsUnbroken (H.course shelf.old)
        → IsUnbroken (H.course shelf.new)) }
    ensures orderly { IsUnbroken (H.course shelf.old) → IsOrderly (H.course shelf.new) }
    ensures faults { H.faults shelf.old ≤ H.faults shelf.new }
{
    if names.len() > MOST_FILES {
        return Err(Fault::TooLarge { file: 0 });
    }
    scripts_in_turn(alloc, names, shelf)
}

// The scripts in the files of these names, which are not too many.
fn scripts_in_turn<H: Shelf>(alloc: Global, names: &[&str], shelf: &mut H) -> Result<Scripts, Fault>
    requires few { length names.now ≤ 64 }
    ensures scripts { DecidesFiles
        (map (H.holds shelf.old) (map (λ name. name.now) names.now)) result }
    ensures count { IfOk result (λ scripts. length scripts.commands.items ≡ length names.now) }
    ensures total { IfOk result (λ scripts.
        sum_by (λ script. length script.items) scripts.commands.items ≤ MOST_COMMANDS) }
    ensures read { (file : ℕ) → IsErrOf result (Fault.ReadFault file) →
        Rose (H.faults shelf.old) (H.faults shelf.new) }
    ensures read_file { (file : ℕ) → IsErrOf result (Fault.ReadFault file) →
        H.opens shelf.new ≡ opened (H.opens shelf.old) file }
    ensures opens { OpensInTurn (H.opens shelf.old) (H.opens shelf.new) (length names.now) }
    ensures all_opened { OnOk result (H.opens shelf.new
        ≡ opened (H.opens shelf.old) (length names.now)) }
    ensures stops { StopsBehind 1 0
        (map (H.holds shelf.old) (map (λ name. name.now) names.now))
        (H.opens shelf.old) (H.opens shelf.new) }
    ensures calls { H.calls shelf.new
        ≤ H.calls shelf.old + length names.now * (READ_LIMIT + 1) }
    ensures unbroken { OnOk result (IsUnbroken (H.course shelf.old)
        → IsUnbroken (H.course shelf.new)) }
    ensures orderly { IsUnbroken (H.course shelf.old) → IsOrderly (H.course shelf.new) }
    ensures faults { H.faults shelf.old ≤ H.faults shelf.new }
{
    let commands = Vec::new(alloc);
    let forms = Vec::new(alloc);
    let mut scripts = Scripts { commands, forms };
    match gather(alloc, names, 1, 0, shelf, &mut scripts) {
        Ok(()) => Ok(scripts),
        Err(fault) => Err(fault),
    }
}

/// The script that the bytes of this file are, after so many commands of the files before it.
pub(crate) fn script_in_bytes(
    alloc: Global,
    bytes: &[u8],
    file: u32,
    before: usize,
) -> Result<Vec<Command>, Fault>
    requires before { before ≤ MOST_COMMANDS }
    ensures script { Decides result (script_in file before bytes.now) }
    ensures few { IfOk result (λ script. before + length script.items ≤ MOST_COMMANDS) }
{
    if bytes.len() > LARGEST_FILE {
        return Err(Fault::TooLarge { file });
    }
    match read_script(alloc, bytes) {
        Ok(commands) => within_count(commands, before),
        Err(ScriptError::Fault(fault)) => Err(fault_in(file, fault)),
        Err(ScriptError::NoMemory) => Err(Fault::Memory),
    }
}

fn fault_in(file: u32, fault: ScriptFault) -> Fault
    ensures { result ≡ Fault.Script file fault.line fault.kind }
{
    let ScriptFault { line, kind } = fault;
    Fault::Script { file, line, kind }
}

// The commands, if with those before them they are not too many.
fn within_count(commands: Vec<Command>, before: usize) -> Result<Vec<Command>, Fault>
    requires before { before ≤ MOST_COMMANDS }
    ensures counted { Decides result (counted before commands.items) }
    ensures few { IfOk result (λ script. before + length script.items ≤ MOST_COMMANDS) }
{
    if commands.len() > MOST_COMMANDS as usize - before {
        return Err(Fault::TooLarge { file: 0 });
    }
    Ok(commands)
}
