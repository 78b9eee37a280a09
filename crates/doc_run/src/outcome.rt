ghost use Rattle.std.specs.Prelude.{◌≡◌, Some, None};
ghost use Rattle.doc_run.specs.Answers.{HandsBack};
ghost use Rattle.script_files.specs.Fault.{status_of};

use crate::answer::{Answer, Refusal};
use doc_export::Dumped;
use mail_run::MailRun;
use script_files::{Fault, status};
use store_run::Finished;

/// How a run ended: its status, the fault that the status stands for, and what a run of clients
/// came to, where one was finished, or one beside which a version was dumped, or that of a mailbox.
pub struct Outcome {
    pub status: u8,
    pub fault: Option<Fault>,
    pub finished: Option<Finished>,
    pub dumped: Option<Dumped>,
    pub mailed: Option<MailRun>,
}

impl Drop for Outcome {
    fn drop(self) {
        let Outcome {
            status: _,
            fault: _,
            finished: _finished,
            dumped: _dumped,
            mailed: _mailed,
        } = self;
    }
}

impl Outcome {
    /// How a run ends that hands back its answer.
    pub(crate) fn with(fault: Option<Fault>, answer: Answer) -> Outcome
        ensures status { result.status ≡ status_of fault }
        ensures fault { result.fault ≡ fault }
        ensures handed { HandsBack answer result }
    {
        let (finished, dumped, mailed) = answer.parts();
        Outcome {
            status: status(fault),
            fault,
            finished,
            dumped,
            mailed,
        }
    }

    /// How a run ends whose request has none.
    pub(crate) fn refused(refusal: Refusal) -> Outcome
        ensures status { result.status ≡ status_of (Some refusal.fault) }
        ensures fault { result.fault ≡ Some refusal.fault }
        ensures finished { result.finished ≡ None }
        ensures dumped { result.dumped ≡ refusal.dumped }
        ensures mailed { result.mailed ≡ None }
    {
        let Refusal { fault, dumped } = refusal;
        Outcome {
            status: status(Some(fault)),
            fault: Some(fault),
            finished: None,
            dumped,
            mailed: None,
        }
    }
}
