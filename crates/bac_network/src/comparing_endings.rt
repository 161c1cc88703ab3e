//! Whether two tickets ended alike.
ghost use Rattle.std.specs.Prelude.{◌≡◌, ◌↔◌, IsTrue};
ghost use Rattle.bac_requester.specs.TransactionViews.{ending_view};

use bac_requester::Ending;
use bac_service::same_reply;

/// Whether contracts see one ending in both.
pub fn same_ending(one: &Ending, other: &Ending) -> bool
    ensures { IsTrue result ↔ (ending_view one.now ≡ ending_view other.now) }
{
    match one {
        Ending::Answered(reply) => match other {
            Ending::Answered(answer) => same_reply(reply, answer),
            _ => false,
        },
        Ending::Rejected(reason) => match other {
            Ending::Rejected(why) => reason == why,
            _ => false,
        },
        Ending::Aborted(reason) => match other {
            Ending::Aborted(why) => reason == why,
            _ => false,
        },
        Ending::TimedOut => matches!(other, Ending::TimedOut),
        Ending::Expired => matches!(other, Ending::Expired),
    }
}
