//! How an ask has ended, by the log.
ghost use Rattle.std.specs.Prelude.{◌≡◌, List, ◌∷◌, MatchOption, None, Some};
ghost use Rattle.bac_requester.specs.TransactionViews.{ending_view};
ghost use Rattle.bac_network.specs.Views.{fact_view, log_view};
ghost use Rattle.bac_liveness.specs.StraightRuns.{ending_in};
ghost use Rattle.bac_network.specs.Logs.{IsSince};
ghost use Rattle.bac_world.specs.Once as once;

use crate::Fact;
use bac_requester::Ending;

/// The ending of that ask by now: the fact's, where it is one, and otherwise the one that was found before.
fn ending_by<'a>(found: Option<&'a Ending>, fact: &'a Fact, ask: usize) -> Option<&'a Ending>
    ensures { (log : List once.Fact)
        → MatchOption found.entry (ending_in ask log ≡ None) (λ how. ending_in ask log ≡ Some (ending_view how.now))
        → MatchOption result (ending_in ask (fact_view fact.now ∷ log) ≡ None)
        (λ how. ending_in ask (fact_view fact.now ∷ log) ≡ Some (ending_view how.now)) }
{
    match fact {
        Fact::Ended { number, how } => { if *number == ask { Some(how) } else { found } }
        Fact::Asked { .. } => found,
        Fact::Performed { .. } => found,
        Fact::Changed { .. } => found,
        Fact::Restarted { .. } => found,
        Fact::Served { .. } => found,
        Fact::AskedAway { .. } => found,
        Fact::EndedAway { .. } => found,
    }
}

/// How an ask has ended, if it has, where the log had so many facts before it. The facts since are looked at alone.
pub(crate) fn ending_of(log: &[Fact], since: usize, ask: usize) -> Option<&Ending>
    requires { IsSince since ask (log_view log.now) }
    ensures { MatchOption result (ending_in ask (log_view log.now) ≡ None) (λ how. ending_in ask (log_view log.now) ≡ Some (ending_view how.now)) }
{
    let mut found = None;
    for at in since..log.len() {
        found = ending_by(found, &log[at], ask);
    }
    found
}
