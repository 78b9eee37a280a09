//! One line of a script.
ghost use Rattle.script_files.specs.MailLine.{number_in, reading_of, value_in, value_of};
ghost use Rattle.std.specs.Prelude.{IfOk, IfSome, bytes_eq, codes, ◌<◌, ◌≡◌, ◌^◌};

use crate::mail_fault::MailKind;
use line_texts::{counts, first_word, is_plain, next_rest, next_word, read_digits, without_return};

/// The value that a line sends, if it sends one. The line comes without its line feed.
pub(crate) fn read_line(line: &[u8]) -> Result<Option<u64>, MailKind>
    ensures reading { result ≡ reading_of line.now }
    ensures small { IfOk result (λ sent. IfSome sent (λ value. value < 2 ^ 32)) }
{
    let line = without_return(line);
    if !counts(line) {
        return Ok(None);
    }
    if !is_plain(line) {
        return Err(MailKind::BadByte);
    }
    match read_send(line) {
        Ok(value) => Ok(Some(value)),
        Err(kind) => Err(kind),
    }
}

fn read_send(line: &[u8]) -> Result<u64, MailKind>
    ensures value { result ≡ value_of line.now }
    ensures small { IfOk result (λ value. value < 2 ^ 32) }
{
    let (word, rest) = first_word(line);
    if !is_send(word) {
        return Err(MailKind::NoCommand);
    }
    read_value(rest)
}

fn is_send(word: &[u8]) -> bool
    ensures { result ≡ bytes_eq word.now (codes "send") }
{
    word == b"send".as_slice()
}

// A number with which the line ends.
fn read_value(rest: &[u8]) -> Result<u64, MailKind>
    ensures value { result ≡ value_in rest.now }
    ensures small { IfOk result (λ value. value < 2 ^ 32) }
{
    let Some(value) = read_number(next_word(rest).0) else {
        return Err(MailKind::BadNumber);
    };
    if !next_rest(rest).is_empty() {
        return Err(MailKind::Extra);
    }
    Ok(value)
}

fn read_number(word: &[u8]) -> Option<u64>
    ensures number { result ≡ number_in word.now }
    ensures small { IfSome result (λ value. value < 2 ^ 32) }
{
    match read_digits(word, 10) {
        Some(value) if value <= u64::from(u32::MAX) => Some(value),
        _ => None,
    }
}
