//! How an ask ended, in words.
ghost use Rattle.std.specs.Prelude.{◌≡◌, IfOk};
ghost use Rattle.std.specs.Option.{option_map};
ghost use Rattle.bac_service.specs.Views.{property_reference_view};
ghost use Rattle.bac_requester.specs.TransactionViews.{ending_view};
ghost use Rattle.bac_commands.specs.Words.{AreEndingWords, AreTicketWords};

use bac_requester::Ending;
use bac_service::PropertyReference;
use bac_service_text::{aborted_words, answer_words, rejected_words};
use bac_value::NoMemory;
use std::alloc::Global;

/// How an ask ended, in words, as [`ending_words`]; where a property was asked for, the values of another one stand behind its name.
pub(crate) fn ticket_words(
    alloc: Global,
    asked: Option<PropertyReference>,
    ending: &Ending,
) -> Result<Vec<u8>, NoMemory>
    ensures { IfOk result (λ t. AreTicketWords (option_map property_reference_view asked) (ending_view ending.now) t.items) }
{
    match ending {
        Ending::Answered(reply) => answer_words(alloc, asked, reply.as_reply()),
        Ending::Rejected(reason) => Ok(rejected_words(alloc, *reason)?),
        Ending::Aborted(reason) => Ok(aborted_words(alloc, *reason)?),
        Ending::TimedOut => Ok(Vec::from_slice(alloc, b"timed-out")?),
        Ending::Expired => Ok(Vec::from_slice(alloc, b"expired")?),
    }
}

/// How an ask ended, in words: values by their kinds, an Error and reasons by their names in the standard. An Err is out of memory.
pub fn ending_words(alloc: Global, ending: &Ending) -> Result<Vec<u8>, NoMemory>
    ensures { IfOk result (λ t. AreEndingWords (ending_view ending.now) t.items) }
{
    ticket_words(alloc, None, ending)
}
