//! A whole script.
ghost use Rattle.script_files.specs.Generated.{generated_of, line_text_of};
ghost use Rattle.std.specs.Prelude.{IfOk, OnOk, ◌++◌, ◌≡◌, ◌≤◌};

use crate::asks::Ask;
use crate::draws::Draws;
use std::alloc::{AllocError, Global};

/// The script of a client with so many commands, by the number that all clients start from.
pub fn generated(
    alloc: Global,
    start: u32,
    client: u32,
    commands: u32,
) -> Result<Vec<u8>, AllocError>
    requires start { start ≤ 2_147_483_647 }
    requires client { (1 ≤ client) × (client ≤ 64) }
    requires commands { (1 ≤ commands) × (commands ≤ 10_000) }
    ensures script { IfOk result (λ text. text.items ≡ generated_of start client commands) }
{
    let mut draws = Draws::new(start, client);
    let mut text = Vec::new(alloc);
    for _done in 0..commands {
        let first = draws.draw();
        let second = draws.draw();
        add_line(alloc, client, first, second, &mut text)?;
    }
    Ok(text)
}

// Adds the line of two draws.
fn add_line(
    alloc: Global,
    client: u32,
    first: u32,
    second: u32,
    text: &mut Vec<u8>,
) -> Result<(), AllocError>
    ensures line { OnOk result (text.new.items ≡ text.old.items ++ line_text_of client first second) }
{
    let line = Ask::of(first).line(alloc, client, second % 32, second)?;
    text.extend_from_slice(&line)
}
