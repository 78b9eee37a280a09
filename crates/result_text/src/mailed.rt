//! What is written of a run of a mailbox.
ghost use Rattle.std.specs.Prelude.{◌≡◌, ◌++◌, IfOk, OnOk, string_bytes};
ghost use Rattle.result_text.specs.Mailed.{answer_text_of, item_text_of, mailed_text_of};
ghost use Rattle.result_text.specs.Mailed.{received_text_of, sender_text_of, senders_text_from};

use doc_model::NoMemory;
use mail_rule::Item;
use std::alloc::Global;

/// The lines of a run of a mailbox: for each sender what its lines were answered, a position or
/// that the heap was full, then the items in the order of their positions. Senders are numbered
/// from 1.
pub fn mailed_text(
    alloc: Global,
    sent: &[Vec<Option<u64>>],
    items: &[Item],
) -> Result<Vec<u8>, NoMemory>
    ensures text { IfOk result (λ text. text.items ≡ mailed_text_of sent.now items.now) }
{
    let mut text = senders_text(alloc, sent)?;
    add_items(alloc, items, &mut text)?;
    Ok(text)
}

// The lines of the senders, one after another.
fn senders_text(alloc: Global, sent: &[Vec<Option<u64>>]) -> Result<Vec<u8>, NoMemory>
    ensures text { IfOk result (λ text. text.items ≡ senders_text_from 1 sent.now) }
{
    let mut text = Vec::new(alloc);
    let mut number = 0;
    for answers in sent {
        number += 1;
        add_sender(alloc, number, answers, &mut text)?;
    }
    Ok(text)
}

// Adds the lines of the sender with this number.
#[tactic(auto, using(std::proofs::lemmas::List::append_assoc))]
fn add_sender(
    alloc: Global,
    number: usize,
    answers: &[Option<u64>],
    text: &mut Vec<u8>,
) -> Result<(), NoMemory>
    ensures text { OnOk result (text.new.items
        ≡ text.old.items ++ sender_text_of number answers.now) }
{
    text.extend_from_slice(format!(in alloc; "sender {number}\n")?.as_bytes())?;
    for answer in answers {
        text.extend_from_slice(answer_line(alloc, *answer)?.as_bytes())?;
    }
    Ok(())
}

fn answer_line(alloc: Global, answer: Option<u64>) -> Result<String, NoMemory>
    ensures { IfOk result (λ line. string_bytes line ≡ answer_text_of answer) }
{
    match answer {
        Some(position) => format!(in alloc; "sent {position}\n"),
        None => String::from_str(alloc, "full\n"),
    }
}

// Adds a heading, and below it the line of each item.
#[tactic(auto, using(std::proofs::lemmas::List::append_assoc))]
fn add_items(alloc: Global, items: &[Item], text: &mut Vec<u8>) -> Result<(), NoMemory>
    ensures text { OnOk result (text.new.items ≡ text.old.items ++ received_text_of items.now) }
{
    text.extend_from_slice(b"received\n")?;
    for item in items {
        text.extend_from_slice(&item_line(alloc, *item)?)?;
    }
    Ok(())
}

fn item_line(alloc: Global, item: Item) -> Result<Vec<u8>, NoMemory>
    ensures { IfOk result (λ line. line.items ≡ item_text_of item) }
{
    let Item {
        position,
        sender,
        value,
    } = item;
    Ok(format!(in alloc; "{position} {sender} {value}\n")?.into_bytes())
}
