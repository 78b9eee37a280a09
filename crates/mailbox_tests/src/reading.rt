//! What a run promises, read off its outcome.
use mail_run::{Item, MailRun};

/// How many of the lines have a position.
fn count(answers: &[Option<u64>]) -> usize {
    let mut found = 0usize;
    for answer in answers {
        if answer.is_some() {
            found = found.saturating_add(1);
        }
    }
    found
}

/// Whether the positions of a sender rise, and the item at each of them is its line.
fn is_sent(script: &[u64], answers: &[Option<u64>], items: &[Item], sender: u32) -> bool {
    if answers.len() != script.len() {
        return false;
    }
    let mut last = 0;
    for line in 0..script.len() {
        if let Some(position) = answers[line] {
            if position <= last {
                return false;
            }
            last = position;
            let sent = Item {
                position,
                sender,
                value: script[line],
            };
            match items.get(position as usize - 1) {
                Some(item) => {
                    if *item != sent {
                        return false;
                    }
                }
                None => return false,
            }
        }
    }
    true
}

/// Whether each line of both scripts has what the run promises, and there are no other items.
pub(crate) fn are_sent(one: &[u64], other: &[u64], run: &MailRun) -> bool {
    if run.sent.len() != 2 {
        return false;
    }
    let first = run.sent[0].as_slice();
    let second = run.sent[1].as_slice();
    is_sent(one, first, &run.items, 1)
        && is_sent(other, second, &run.items, 2)
        && count(first).saturating_add(count(second)) == run.items.len()
}

/// Whether the first so many lines of the only sender have the positions from 1 on, and all others
/// none.
pub(crate) fn fills(run: &MailRun, lines: usize) -> bool {
    if run.sent.len() != 1 || run.items.len() != lines {
        return false;
    }
    let answers = run.sent[0].as_slice();
    for line in 0..answers.len() {
        let wanted = if line < lines {
            Some(line as u64 + 1)
        } else {
            None
        };
        if answers[line] != wanted {
            return false;
        }
    }
    true
}
