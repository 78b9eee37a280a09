//! The first words of commands.
ghost use Rattle.cmd_text.specs.Verb.{verb_of};
ghost use Rattle.std.specs.Prelude.{◌≡◌};

/// What a command does.
#[derive(Clone, Copy, Debug)]
pub(crate) enum Verb {
    Put,
    Del,
    Copy,
    Get,
    List,
    Size,
    Old,
    DraftPut,
    DraftGet,
    Take,
    Publish,
}

impl Verb {
    /// The verb that is written so.
    pub(crate) fn read(word: &[u8]) -> Option<Verb>
        ensures { result ≡ verb_of word.now }
    {
        match word {
            b"put" => Some(Verb::Put),
            b"del" => Some(Verb::Del),
            b"copy" => Some(Verb::Copy),
            b"get" => Some(Verb::Get),
            b"list" => Some(Verb::List),
            b"size" => Some(Verb::Size),
            b"old" => Some(Verb::Old),
            b"dput" => Some(Verb::DraftPut),
            b"dget" => Some(Verb::DraftGet),
            b"take" => Some(Verb::Take),
            b"publish" => Some(Verb::Publish),
            _ => None,
        }
    }
}
