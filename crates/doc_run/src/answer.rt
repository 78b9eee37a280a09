//! What a request comes to: an answer, whose text is to be written, or a fault.
ghost use Rattle.std.specs.Prelude.{◌≡◌, None};
ghost use Rattle.doc_run.specs.Answers.{dumped_of, finished_of, mailed_of, text_of};

use doc_export::Dumped;
use mail_run::MailRun;
use script_files::Fault;
use store_run::Finished;

/// What a request comes to.
#[derive(Drop)]
pub enum Answer {
    /// a text alone
    Text(Vec<u8>),
    /// what a run of clients came to, and the text of it
    Ran(Vec<u8>, Finished),
    /// what a run came to during which a version was dumped: its dump is the text
    Dumped(Dumped),
    /// what a run of a mailbox came to, and the text of it
    Mailed(Vec<u8>, MailRun),
}

/// Why a request has no answer. A version that is too large for a dump is there nevertheless.
#[derive(Drop)]
pub struct Refusal {
    pub fault: Fault,
    pub dumped: Option<Dumped>,
}

impl Answer {
    /// The text that is to be written.
    pub(crate) fn text(&self) -> &[u8]
        ensures { result.now ≡ text_of self.now }
    {
        match self {
            Answer::Text(text) => text.as_slice(),
            Answer::Ran(text, _) => text.as_slice(),
            Answer::Dumped(dumped) => match &dumped.bytes {
                Some(bytes) => bytes.as_slice(),
                None => &[],
            },
            Answer::Mailed(text, _) => text.as_slice(),
        }
    }

    /// What is handed back of it, besides its text.
    pub(crate) fn parts(self) -> (Option<Finished>, Option<Dumped>, Option<MailRun>)
        ensures finished { result.0 ≡ finished_of self }
        ensures dumped { result.1 ≡ dumped_of self }
        ensures mailed { result.2 ≡ mailed_of self }
    {
        match self {
            Answer::Text(_text) => (None, None, None),
            Answer::Ran(_text, finished) => (Some(finished), None, None),
            Answer::Dumped(dumped) => (None, Some(dumped), None),
            Answer::Mailed(_text, mailed) => (None, None, Some(mailed)),
        }
    }
}

impl Refusal {
    /// By this fault, and with nothing that a run came to.
    pub(crate) fn by(fault: Fault) -> Refusal
        ensures fault { result.fault ≡ fault }
        ensures dumped { result.dumped ≡ None }
    {
        Refusal {
            fault,
            dumped: None,
        }
    }
}
