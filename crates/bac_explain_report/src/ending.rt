//! The endings of transactions, as far as they were seen.
ghost use Rattle.std.specs.Prelude.{◌≡◌, ◌||◌};
ghost use Rattle.bac_apdu.specs.Views.{apdu_view};
ghost use Rattle.bac_explain.specs.SentViews.{sent_view};
ghost use Rattle.bac_explain.specs.Views.{transaction_view};
ghost use Rattle.bac_explain_report.specs.Endings.{answer_ending, apdu_ending, delay_of, ending_name, ending_of, is_refused, is_unanswered, no_answer_ending, reply_name, seen_ending};

use bac_apdu::{Apdu, read};
use bac_explain::{Sent, Transaction};

/// How a transaction ended.
#[derive(Clone, Copy, Debug, PartialEq, Eq)]
pub enum Ending {
    /// By a SimpleACK or a ComplexACK.
    Answered,
    /// By an Error.
    Failed,
    /// By a Reject.
    Rejected,
    /// By an Abort of either end.
    Aborted,
    /// No reply was seen, or not its end.
    Unanswered,
}

impl Ending {
    /// The word for it.
    pub fn name(self) -> &'static str
        ensures { result.now ≡ ending_name self }
    {
        match self {
            Ending::Answered => "answered",
            Ending::Failed => "error",
            Ending::Rejected => "rejected",
            Ending::Aborted => "aborted",
            Ending::Unanswered => "unanswered",
        }
    }
}

/// The first word of the line of a reply: that of an Error says so itself.
pub(crate) fn reply_name(ending: Ending) -> &'static str
    ensures { result.now ≡ reply_name ending }
{
    match ending {
        Ending::Failed => Ending::Answered.name(),
        _ => ending.name(),
    }
}

fn apdu_ending(apdu: Apdu<'_>) -> Ending
    ensures { result ≡ apdu_ending (apdu_view apdu.entry) }
{
    match apdu {
        Apdu::Error { .. } => Ending::Failed,
        Apdu::Reject { .. } => Ending::Rejected,
        Apdu::Abort { .. } => Ending::Aborted,
        _ => Ending::Answered,
    }
}

/// The ending of a transaction with this whole reply.
pub(crate) fn answer_ending(octets: &[u8]) -> Ending
    ensures { result ≡ answer_ending octets.now }
{
    match read(octets) {
        Ok(apdu) => apdu_ending(apdu),
        Err(_) => Ending::Answered,
    }
}

/// The ending of a transaction without a reply.
fn no_answer_ending(gave_up: bool) -> Ending
    ensures { result ≡ no_answer_ending gave_up }
{
    if gave_up {
        Ending::Aborted
    } else {
        Ending::Unanswered
    }
}

/// The ending of a transaction with a reply: by the reply if its end was seen.
fn seen_ending(broken_off: bool, gave_up: bool, answer: &Sent) -> Ending
    ensures { result ≡ seen_ending broken_off gave_up (sent_view answer.now) }
{
    if answer.whole {
        answer_ending(&answer.octets)
    } else {
        no_answer_ending(broken_off || gave_up)
    }
}

/// The ending of a transaction: by its reply, or by an Abort if there is no whole reply.
pub fn ending_of(transaction: &Transaction) -> Ending
    ensures { result ≡ ending_of (transaction_view transaction.now) }
{
    match &transaction.answer {
        Some(answer) => seen_ending(transaction.broken_off, transaction.gave_up, answer),
        None => no_answer_ending(transaction.gave_up),
    }
}

/// Whether a transaction ended by an Error, a Reject or an Abort.
pub fn is_refused(transaction: &Transaction) -> bool
    ensures { result ≡ is_refused (transaction_view transaction.now) }
{
    match ending_of(transaction) {
        Ending::Failed | Ending::Rejected | Ending::Aborted => true,
        Ending::Answered | Ending::Unanswered => false,
    }
}

/// Whether the end of no answer was seen, nor an Abort of the server within one. The client may have given up.
pub fn is_unanswered(transaction: &Transaction) -> bool
    ensures { result ≡ is_unanswered (transaction_view transaction.now) }
{
    match &transaction.answer {
        None => true,
        Some(answer) => !(answer.whole || transaction.broken_off),
    }
}

/// The delay of the reply of a transaction, in milliseconds.
pub fn delay_of(transaction: &Transaction) -> Option<u64>
    ensures { result ≡ delay_of (transaction_view transaction.now) }
{
    match &transaction.answer {
        None => None,
        Some(answer) => Some(answer.moment.saturating_sub(transaction.request.moment)),
    }
}
