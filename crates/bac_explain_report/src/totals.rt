//! How transactions ended: of all servers, or of one.
ghost use Rattle.std.specs.Prelude.{◌≡◌};
ghost use Rattle.bac_explain_report.specs.Totals.{later, none, one_more, with_delay, with_ending, with_one};

use crate::ending::Ending;

/// How many transactions there are, and how they ended. Each count saturates.
#[derive(Clone, Copy, Debug)]
pub struct Totals {
    pub transactions: u64,
    pub answered: u64,
    pub errors: u64,
    pub rejected: u64,
    pub aborted: u64,
    pub unanswered: u64,
    /// The greatest delay of a first reply after its request, in milliseconds; None if there is no reply.
    pub slowest: Option<u64>,
}

pub(crate) fn one_more(count: u64) -> u64
    ensures { result ≡ one_more count }
{
    count.saturating_add(1)
}

/// The greater of two delays.
fn later(slowest: Option<u64>, delay: u64) -> Option<u64>
    ensures { result ≡ later slowest delay }
{
    match slowest {
        None => Some(delay),
        Some(slowest) => Some(slowest.max(delay)),
    }
}

impl Totals {
    /// No transactions.
    pub(crate) fn none() -> Totals
        ensures { result ≡ none }
    {
        Totals {
            transactions: 0,
            answered: 0,
            errors: 0,
            rejected: 0,
            aborted: 0,
            unanswered: 0,
            slowest: None,
        }
    }

    fn with_ending(self, ending: Ending) -> Totals
        ensures { result ≡ with_ending ending self }
    {
        match ending {
            Ending::Answered => Totals {
                answered: one_more(self.answered),
                ..self
            },
            Ending::Failed => Totals {
                errors: one_more(self.errors),
                ..self
            },
            Ending::Rejected => Totals {
                rejected: one_more(self.rejected),
                ..self
            },
            Ending::Aborted => Totals {
                aborted: one_more(self.aborted),
                ..self
            },
            Ending::Unanswered => Totals {
                unanswered: one_more(self.unanswered),
                ..self
            },
        }
    }

    fn with_delay(self, delay: Option<u64>) -> Totals
        ensures { result ≡ with_delay delay self }
    {
        match delay {
            None => self,
            Some(delay) => Totals {
                slowest: later(self.slowest, delay),
                ..self
            },
        }
    }

    /// One more transaction, by its ending and the delay of its reply.
    pub(crate) fn with_one(self, ending: Ending, delay: Option<u64>) -> Totals
        ensures { result ≡ with_one ending delay self }
    {
        let counted = Totals {
            transactions: one_more(self.transactions),
            ..self
        };
        counted.with_ending(ending).with_delay(delay)
    }
}
