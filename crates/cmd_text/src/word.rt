//! The first words of lines in scripts of version 2.
ghost use Rattle.cmd_text.specs.Held.{is_edit_verb, is_placed, leading_of};
ghost use Rattle.std.specs.Prelude.{bytes_eq, ◌≡◌};

use crate::verb::Verb;

/// What a line with this first word does.
#[derive(Clone, Copy, Debug)]
pub(crate) enum Word {
    /// begins a batch
    Begin,
    /// ends it
    Commit,
    /// is a command, or an edit of a batch
    Verb(Verb),
}

impl Word {
    /// The word that is written so.
    pub(crate) fn read(word: &[u8]) -> Option<Word>
        ensures { result ≡ leading_of word.now }
    {
        if is(word, "begin") {
            Some(Word::Begin)
        } else if is(word, "commit") {
            Some(Word::Commit)
        } else {
            match Verb::read(word) {
                Some(verb) => Some(Word::Verb(verb)),
                None => None,
            }
        }
    }

    /// Whether it may stand there: inside a batch or outside.
    pub(crate) fn is_placed(self, inside: bool) -> bool
        ensures { result ≡ is_placed inside self }
    {
        match self {
            Word::Begin => !inside,
            Word::Commit => inside,
            Word::Verb(verb) => !inside || is_edit_verb(verb),
        }
    }
}

// Whether the word is this text.
fn is(word: &[u8], text: &str) -> bool
    ensures { result ≡ bytes_eq word.now text.now }
{
    word == text.as_bytes()
}

fn is_edit_verb(verb: Verb) -> bool
    ensures { result ≡ is_edit_verb verb }
{
    matches!(verb, Verb::Put | Verb::Del | Verb::Copy | Verb::Publish)
}
