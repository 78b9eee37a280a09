//! Scripts, from their text.
ghost use Rattle.std.specs.Prelude.{◌≡◌, ◌≤◌, All, IfOk, length};

use cmd_text::read_script;
use doc_model::{Command, NoMemory};
use run_limits::MOST_COMMANDS;
use std::alloc::Global;
use std::test::Fail;

/// A line so many times.
pub(crate) fn repeated(alloc: Global, line: &[u8], times: u32) -> Result<Vec<u8>, NoMemory> {
    let mut text = Vec::new(alloc);
    for _ in 0..times {
        text.extend_from_slice(line)?;
    }
    Ok(text)
}

/// The commands of a text.
fn script_of(alloc: Global, text: &[u8]) -> Result<Vec<Command>, Fail>
    ensures short { IfOk result (λ script. length script.items ≤ MOST_COMMANDS) }
{
    if text.len() > 1_000_000 {
        return Err(Fail::new("too long a text"));
    }
    match read_script(alloc, text) {
        Ok(script) if script.len() <= MOST_COMMANDS as usize => Ok(script),
        _ => Err(Fail::new("no script")),
    }
}

/// So many scripts of the same text.
pub(crate) fn alike(alloc: Global, clients: u32, text: &[u8]) -> Result<Vec<Vec<Command>>, Fail>
    ensures many { IfOk result (λ scripts. length scripts.items ≡ clients) }
    ensures short { IfOk result (λ scripts.
        All (λ script. length script.items ≤ MOST_COMMANDS) scripts.items) }
{
    let mut scripts = Vec::new(alloc);
    for place in 0..clients {
        let _ = place;
        let script = script_of(alloc, text)?;
        scripts.push(script)?;
    }
    Ok(scripts)
}

/// The scripts of texts.
pub(crate) fn scripts_of(alloc: Global, texts: &[&[u8]]) -> Result<Vec<Vec<Command>>, Fail>
    ensures many { IfOk result (λ scripts. length scripts.items ≡ length texts.now) }
    ensures short { IfOk result (λ scripts.
        All (λ script. length script.items ≤ MOST_COMMANDS) scripts.items) }
{
    let mut scripts = Vec::new(alloc);
    for place in 0..texts.len() {
        let script = script_of(alloc, texts[place])?;
        scripts.push(script)?;
    }
    Ok(scripts)
}
