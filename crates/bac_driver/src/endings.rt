//! How the transaction of a ticket ended in a turn, if it did. `asking` and `pairing` call it; all here is private to the crate.
ghost use Rattle.std.specs.Prelude.{◌≡◌, map};
ghost use Rattle.std.specs.Option.{option_map};
ghost use Rattle.bac_requester.specs.TransactionViews.{ending_view};
ghost use Rattle.bac_node.specs.Views.{outcome_view};
ghost use Rattle.bac_requester.specs.Views.{ended_view};
ghost use Rattle.bac_driver.specs.Asking.{ending_in, ending_of};
ghost use Rattle.bac_driver.specs.Turns.{ended_of};
ghost use Rattle.bac_driver.specs.Views.{turn_view};

use crate::turn::Turn;
use bac_node::Outcome;
use bac_requester::{Ended, Ending};

/// How the transaction of a ticket ended, if it is among those that did.
fn ending_among(finishes: Vec<Ended>, ticket: u64) -> Option<Ending>
    ensures { option_map ending_view result ≡ ending_of ticket (map ended_view finishes.items) }
{
    for finish in finishes {
        if finish.ticket == ticket {
            return Some(finish.ending);
        }
    }
    None
}

/// How the transaction of a ticket ended in a step of a turn, if it did.
fn ending_of(step: Option<Outcome>, ticket: u64) -> Option<Ending>
    ensures { option_map ending_view result ≡ ending_of ticket (ended_of (option_map outcome_view step)) }
{
    match step {
        Some(outcome) => ending_among(outcome.ended, ticket),
        None => None,
    }
}

/// How the transaction of a ticket ended in a turn, if it did.
pub(crate) fn ending_in(turn: Turn, ticket: u64) -> Option<Ending>
    ensures { option_map ending_view result ≡ ending_in ticket (turn_view turn) }
{
    // an ending is reported once, so it is in one of the two steps at most
    match ending_of(turn.heard, ticket) {
        Some(ending) => Some(ending),
        None => ending_of(turn.ticked, ticket),
    }
}
