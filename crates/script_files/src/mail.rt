//! The scripts of the senders of a mailbox, one file of each, read one after another.
//!
//! Too many files are refused unread.
ghost use Rattle.std.specs.Prelude.{All, ◌≡◌, ℕ, ◌+◌, ◌*◌, ◌<◌, ◌≤◌, ◌^◌, length, map, IfOk};
ghost use Rattle.std.specs.Prelude.{OnOk, IsErrOf};
ghost use Rattle.std.specs.Prelude.{sum_by};
ghost use Rattle.outside.specs.Calls.{IsUnbroken, IsOrderly};
ghost use Rattle.outside.specs.Causes.{Rose};
ghost use Rattle.script_files.specs.Files.{OpensInTurn, opened};
ghost use Rattle.script_files.specs.InTurn.{counted};
ghost use Rattle.script_files.specs.Mail.{DecidesMail, DecidesValues, StopsAtMail, mail_in};
ghost use Rattle.script_files.specs.Mail.{parse_mail, senders_read, values_of};
ghost use Rattle.script_files.specs.Sorts.{OfMail};

use crate::fault::Fault;
use crate::in_turn::{Gathering, LARGEST_FILE, gather};
use crate::mail_fault::{MailError, MailFault};
use crate::mail_script::read_mail;
use outside::{READ_LIMIT, Shelf};
use run_limits::MOST_COMMANDS;
use std::alloc::Global;

// How many senders there are at most.
const MOST_SENDERS: usize = 63;

impl Gathering for Vec<Vec<u64>> {
    type Each = u64;

    type Note = ();

    ghost grammar = { OfMail };

    ghost parse = { parse_mail };

    ghost note = { λ bytes. tt };

    ghost lists = { λ s. values_of s.items };

    ghost notes = { λ s. map (λ script. tt) s.items };

    ghost fits = { λ s. All (λ script. All (λ value. value < 2 ^ 32) script.items) s.items };

    fn add(
        &mut self,
        alloc: Global,
        bytes: &[u8],
        file: u32,
        before: usize,
    ) -> Result<usize, Fault> {
        let values = match values_in_bytes(alloc, bytes, file, before) {
            Ok(values) => values,
            Err(fault) => return Err(fault),
        };
        let count = values.len();
        match self.push(values) {
            Ok(()) => Ok(count),
            Err(_) => Err(Fault::Memory),
        }
    }
}

/// The values that the senders of a mailbox send, in order: of each those of a file of these names.
#[tactic(auto, using(crate::proofs::Opens::stops_none))]
pub fn mail_in_files<H: Shelf>(
    alloc: Global,
    names: &[&str],
    shelf: &mut H,
) -> Result<Vec<Vec<u64>>, Fault>
    ensures scripts { DecidesMail
        (map (H.holds shelf.old) (map (λ name. name.now) names.now)) result }
    ensures count { IfOk result (λ scripts. length scripts.items ≡ length names.now) }
    ensures few { IfOk result (λ scripts. length scripts.items ≤ 63) }
    ensures total { IfOk result (λ scripts.
        sum_by (λ script. length script.items) scripts.items ≤ MOST_COMMANDS) }
    ensures small { IfOk result (λ scripts.
        All (λ script. All (λ value. value < 2 ^ 32) script.items) scripts.items) }
    ensures read { (file : ℕ) → IsErrOf result (Fault.ReadFault file) →
        Rose (H.faults shelf.old) (H.faults shelf.new) }
    ensures read_file { (file : ℕ) → IsErrOf result (Fault.ReadFault file) →
        H.opens shelf.new ≡ opened (H.opens shelf.old) file }
    ensures opens { OpensInTurn (H.opens shelf.old) (H.opens shelf.new)
        (senders_read (length names.now)) }
    ensures all_opened { OnOk result (H.opens shelf.new
        ≡ opened (H.opens shelf.old) (length names.now)) }
    ensures stops { StopsAtMail
        (map (H.holds shelf.old) (map (λ name. name.now) names.now))
        (H.opens shelf.old) (H.opens shelf.new) }
    ensures calls { H.calls shelf.new
        ≤ H.calls shelf.old + senders_read (length names.now) * (READ_LIMIT + 1) }
    ensures unbroken { OnOk result (IsUnbroken (H.course shelf.old)
        → IsUnbroken (H.course shelf.new)) }
    ensures orderly { IsUnbroken (H.course shelf.old) → IsOrderly (H.course shelf.new) }
    ensures faults { H.faults shelf.old ≤ H.faults shelf.new }
{
    if names.len() > MOST_SENDERS {
        return Err(Fault::TooLarge { file: 0 });
    }
    mail_in_turn(alloc, names, shelf)
}

// Those of files that are not too many.
fn mail_in_turn<H: Shelf>(
    alloc: Global,
    names: &[&str],
    shelf: &mut H,
) -> Result<Vec<Vec<u64>>, Fault>
    requires few { length names.now ≤ 63 }
    ensures scripts { DecidesMail
        (map (H.holds shelf.old) (map (λ name. name.now) names.now)) result }
    ensures count { IfOk result (λ scripts. length scripts.items ≡ length names.now) }
    ensures total { IfOk result (λ scripts.
        sum_by (λ script. length script.items) scripts.items ≤ MOST_COMMANDS) }
    ensures small { IfOk result (λ scripts.
        All (λ script. All (λ value. value < 2 ^ 32) script.items) scripts.items) }
    ensures read { (file : ℕ) → IsErrOf result (Fault.ReadFault file) →
        Rose (H.faults shelf.old) (H.faults shelf.new) }
    ensures read_file { (file : ℕ) → IsErrOf result (Fault.ReadFault file) →
        H.opens shelf.new ≡ opened (H.opens shelf.old) file }
    ensures opens { OpensInTurn (H.opens shelf.old) (H.opens shelf.new) (length names.now) }
    ensures all_opened { OnOk result (H.opens shelf.new
        ≡ opened (H.opens shelf.old) (length names.now)) }
    ensures stops { StopsAtMail
        (map (H.holds shelf.old) (map (λ name. name.now) names.now))
        (H.opens shelf.old) (H.opens shelf.new) }
    ensures calls { H.calls shelf.new
        ≤ H.calls shelf.old + length names.now * (READ_LIMIT + 1) }
    ensures unbroken { OnOk result (IsUnbroken (H.course shelf.old)
        → IsUnbroken (H.course shelf.new)) }
    ensures orderly { IsUnbroken (H.course shelf.old) → IsOrderly (H.course shelf.new) }
    ensures faults { H.faults shelf.old ≤ H.faults shelf.new }
{
    let mut scripts = Vec::new(alloc);
    match gather(alloc, names, 1, 0, shelf, &mut scripts) {
        Ok(()) => Ok(scripts),
        Err(fault) => Err(fault),
    }
}

// The values that the bytes of this file send, after so many values of the files before it.
fn values_in_bytes(alloc: Global, bytes: &[u8], file: u32, before: usize) -> Result<Vec<u64>, Fault>
    requires before { before ≤ MOST_COMMANDS }
    ensures values { DecidesValues result (mail_in file before bytes.now) }
    ensures few { IfOk result (λ values. before + length values.items ≤ MOST_COMMANDS) }
    ensures small { IfOk result (λ values. All (λ value. value < 2 ^ 32) values.items) }
{
    if bytes.len() > LARGEST_FILE {
        return Err(Fault::TooLarge { file });
    }
    match read_mail(alloc, bytes) {
        Ok(values) => values_within(values, before),
        Err(MailError::Fault(fault)) => Err(fault_in(file, fault)),
        Err(MailError::NoMemory) => Err(Fault::Memory),
    }
}

fn fault_in(file: u32, fault: MailFault) -> Fault
    ensures { result ≡ Fault.Mail file fault.line fault.kind }
{
    let MailFault { line, kind } = fault;
    Fault::Mail { file, line, kind }
}

// The values, if with those before them they are not too many.
fn values_within(values: Vec<u64>, before: usize) -> Result<Vec<u64>, Fault>
    requires before { before ≤ MOST_COMMANDS }
    requires small { All (λ value. value < 2 ^ 32) values.items }
    ensures counted { DecidesValues result (counted before values.items) }
    ensures few { IfOk result (λ values. before + length values.items ≤ MOST_COMMANDS) }
    ensures small { IfOk result (λ values. All (λ value. value < 2 ^ 32) values.items) }
{
    if values.len() > MOST_COMMANDS as usize - before {
        return Err(Fault::TooLarge { file: 0 });
    }
    Ok(values)
}
