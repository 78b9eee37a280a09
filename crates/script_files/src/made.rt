//! The scripts that are made from a number, read as those of files are.
ghost use Rattle.std.specs.Prelude.{◌≡◌, ℕ, ◌+◌, ◌*◌, ◌≤◌, Some, length, map};
ghost use Rattle.std.specs.Prelude.{IfOk, OnOk, sum_by};
ghost use Rattle.std.specs.Prelude.{IsErrOf, nat_lt};
ghost use Rattle.script_files.specs.Made.{DecidesMade, texts_from};
ghost use Rattle.script_files.specs.Reading.{Decides, DecidesFrom};
ghost use Rattle.doc_model.specs.Scripts.{lists_of};
ghost use Rattle.script_files.specs.Scripts.{script_in};
ghost use Rattle.script_files.specs.Generated.{generated_of};

use crate::fault::Fault;
use crate::generating::generated;
use crate::scripts::script_in_bytes;
use doc_model::Command;
use run_limits::MOST_COMMANDS;
use std::alloc::Global;

/// Whether scripts of so many clients with so many commands each are too large.
pub fn is_too_large(clients: u32, commands: u32) -> bool
    requires clients { clients ≤ 64 }
    requires commands { commands ≤ 10_000 }
    ensures { result ≡ nat_lt MOST_COMMANDS (clients * commands) }
{
    clients * commands > MOST_COMMANDS
}

/// The scripts of so many clients with so many commands each, by the number that all start from.
pub fn scripts_made(
    alloc: Global,
    start: u32,
    clients: u32,
    commands: u32,
) -> Result<Vec<Vec<Command>>, Fault>
    requires start { start ≤ 2_147_483_647 }
    requires clients { (1 ≤ clients) × (clients ≤ 64) }
    requires commands { (1 ≤ commands) × (commands ≤ 10_000) }
    requires few { clients * commands ≤ MOST_COMMANDS }
    ensures scripts { DecidesMade start clients commands result }
    ensures count { IfOk result (λ scripts. length scripts.items ≡ clients) }
    ensures total { IfOk result (λ scripts.
        sum_by (λ script. length script.items) scripts.items ≤ MOST_COMMANDS) }
{
    let mut scripts = Vec::new(alloc);
    match add_made(alloc, start, commands, 1, clients, 0, &mut scripts) {
        Ok(()) => Ok(scripts),
        Err(fault) => Err(fault),
    }
}

// Adds the scripts of so many clients more, of whom the first has this number, and so many commands
// stand in the scripts before.
#[tactic(auto, using(crate::proofs::MadeScripts::adding))]
fn add_made(
    alloc: Global,
    start: u32,
    commands: u32,
    client: u32,
    more: u32,
    before: usize,
    scripts: &mut Vec<Vec<Command>>,
) -> Result<(), Fault>
    requires start { start ≤ 2_147_483_647 }
    requires client { (1 ≤ client) × (client + more ≤ 65) }
    requires commands { (1 ≤ commands) × (commands ≤ 10_000) }
    requires before { before ≤ MOST_COMMANDS }
    requires all { sum_by (λ script. length script.items) scripts.old.items ≡ before }
    ensures scripts { DecidesFrom client before (map Some (texts_from start commands client more))
        result (lists_of scripts.old.items) (lists_of scripts.new.items) }
    ensures read { (file : ℕ) → IsErrOf result (Fault.ReadFault file) → ⊥ }
    ensures count { OnOk result (length scripts.new.items ≡ length scripts.old.items + more) }
    ensures total { OnOk result (
        sum_by (λ script. length script.items) scripts.new.items ≤ MOST_COMMANDS) }
{
    if more == 0 {
        return Ok(());
    }
    let script = match script_made(alloc, start, client, commands, before) {
        Ok(script) => script,
        Err(fault) => return Err(fault),
    };
    let before = before + script.len();
    if scripts.push(script).is_err() {
        return Err(Fault::Memory);
    }
    add_made(
        alloc,
        start,
        commands,
        client + 1,
        more - 1,
        before,
        scripts,
    )
}

// The script of one client.
fn script_made(
    alloc: Global,
    start: u32,
    client: u32,
    commands: u32,
    before: usize,
) -> Result<Vec<Command>, Fault>
    requires start { start ≤ 2_147_483_647 }
    requires client { (1 ≤ client) × (client ≤ 64) }
    requires commands { (1 ≤ commands) × (commands ≤ 10_000) }
    requires before { before ≤ MOST_COMMANDS }
    ensures script { Decides result (script_in client before (generated_of start client commands)) }
    ensures few { IfOk result (λ script. before + length script.items ≤ MOST_COMMANDS) }
{
    match generated(alloc, start, client, commands) {
        Ok(text) => script_in_bytes(alloc, &text, client, before),
        Err(_) => Err(Fault::Memory),
    }
}
