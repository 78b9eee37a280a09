//! A whole script.
ghost use Rattle.script_files.specs.MailAnswers.{Reads};
ghost use Rattle.script_files.specs.MailLine.{reading_of};
ghost use Rattle.script_files.specs.MailScript.{numbered, script_of};
ghost use Rattle.std.specs.Prelude.{All, IfOk, IfSome, length, ◌-◌, ◌<◌, ◌≡◌, ◌^◌};

use crate::mail_fault::{MailError, MailFault};
use crate::mail_line::read_line;
use line_texts::cut_line;
use std::alloc::Global;

/// The values that a script sends, in order, or its first faulty line. The length has its bound so
/// that the number of every line fits.
pub fn read_mail(alloc: Global, bytes: &[u8]) -> Result<Vec<u64>, MailError>
    requires { length bytes.now < 2 ^ 32 - 1 }
    ensures script { Reads result (script_of bytes.now) }
    ensures small { IfOk result (λ values. All (λ value. value < 2 ^ 32) values.items) }
{
    let mut values = Vec::new(alloc);
    let mut number = 0;
    let mut rest = Some(bytes);
    while let Some(left) = rest {
        let (line, more) = cut_line(left);
        number += 1;
        match read_numbered(number, line) {
            Ok(None) => {}
            Ok(Some(value)) => values.push(value)?,
            Err(fault) => return Err(MailError::Fault(fault)),
        }
        rest = more;
    }
    Ok(values)
}

// A fault of the line has its number.
fn read_numbered(number: u32, line: &[u8]) -> Result<Option<u64>, MailFault>
    ensures reading { result ≡ numbered number (reading_of line.now) }
    ensures small { IfOk result (λ sent. IfSome sent (λ value. value < 2 ^ 32)) }
{
    match read_line(line) {
        Ok(sent) => Ok(sent),
        Err(kind) => Err(MailFault { line: number, kind }),
    }
}
