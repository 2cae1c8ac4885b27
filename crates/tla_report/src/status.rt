//! The exit status.
ghost use Rattle.std.specs.Prelude.{◌≡◌};
ghost use Rattle.tla_report.specs.Status.{answer_status, status_of};

use crate::checked::Checked;
use tla_verdict::Answer;

impl Checked {
    /// The exit status.
    pub fn status(&self) -> u8
        ensures { result ≡ status_of self.now }
    {
        match self {
            Checked::Answered(answered) => answer_status(&answered.answer),
            Checked::Refused(_) => 20,
            Checked::NoMemory | Checked::NoWorker => 22,
        }
    }
}

fn answer_status(answer: &Answer) -> u8
    ensures { result ≡ answer_status answer.now }
{
    match answer {
        Answer::NoError { .. } => 0,
        Answer::InvariantFalse { .. } => 10,
        Answer::Deadlock { .. } => 11,
        Answer::Faulted { .. } => 12,
        Answer::AssumptionFalse { .. } => 13,
        Answer::Limit { .. } => 14,
    }
}
