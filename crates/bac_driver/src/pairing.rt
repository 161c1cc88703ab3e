//! Two bound nodes in one process, each on its own link; the first of them asks. Programs and tests call [`pair`].
ghost use Rattle.std.specs.Prelude.{IfOk, IfErr};
ghost use Rattle.bac_driver.specs.Asking.{Waits};
ghost use Rattle.bac_driver.specs.Pairs.{IsBeside, PairEnds, PairFails, RoundFails, RoundGives, RoundsFail, TakesRound, paired, turn_of_first};
ghost use Rattle.bac_driver.specs.Views.{question_view, turn_view};

use crate::bound_node::BoundNode;
use crate::endings::ending_in;
use crate::fault::TurnFault;
use crate::question::{AskEnd, Question};
use crate::turn::Turn;
use crate::wait_limit::WaitLimit;
use crate::{Clock, Link};
use bac_requester::{AskFault, Ending};

/// How long the second node may wait after a turn of the first: until something is due at the first one. If a datagram has come to the first, it does
/// not wait at all, since more may have come.
fn wait_limit_beside<L: Link>(first: &BoundNode<L>, turn: &Turn) -> WaitLimit
    ensures { IsBeside first.now.node (turn_view turn.now) result }
{
    let wait = match turn.received {
        Some(_) => 0,
        None => u64::MAX,
    };
    WaitLimit {
        wait,
        until: first.node().next_due(),
    }
}

/// A turn of the first node, which doesn't wait, and then one of the second. Returns the turn of the first.
fn take_round<L: Link, C: Clock>(
    first: &mut BoundNode<L>,
    second: &mut BoundNode<L>,
    clock: &mut C,
) -> Result<Turn, TurnFault>
    ensures taken { IfOk result (λ t. RoundGives (turn_view t)
        (paired first.old second.old (C.told clock.old)) (paired first.new second.new (C.told clock.new))) }
    ensures failed { IfErr result (λ e. RoundFails e
        (paired first.old second.old (C.told clock.old)) (paired first.new second.new (C.told clock.new))) }
{
    let turn = first.turn_by(clock, &WaitLimit::AT_ONCE)?;
    match second.turn_by(clock, &wait_limit_beside(first, &turn)) {
        Ok(_) => {}
        Err(fault) => {
            // the first node keeps what its turn did, but only the fault is told
            drop(turn);
            return Err(fault);
        }
    }
    Ok(turn)
}

/// Takes rounds until the transaction of the first node has ended, but no more than so many.
fn wait<L: Link, C: Clock>(
    first: &mut BoundNode<L>,
    second: &mut BoundNode<L>,
    clock: &mut C,
    ticket: u64,
    turns: u64,
) -> Result<Option<Ending>, TurnFault>
    ensures waited { IfOk result (Waits TakesRound turn_of_first turns ticket
        (paired first.old second.old (C.told clock.old)) (paired first.new second.new (C.told clock.new))) }
    ensures failed { IfErr result (λ e. RoundsFail e turns ticket
        (paired first.old second.old (C.told clock.old)) (paired first.new second.new (C.told clock.new))) }
{
    for _ in 0..turns {
        let turn = take_round(first, second, clock)?;
        if let Some(ending) = ending_in(turn, ticket) {
            return Ok(Some(ending));
        }
    }
    Ok(None)
}

/// The first node asks, and both take turns until the transaction has ended, or so many turns of each were taken. After each turn of the first, the
/// second takes one on its own link.
///
/// The first does not wait. The second waits until something is due at either node, or a datagram comes. If one has just come to the first, the
/// second does not wait either. `Link` and `ClockBack` are those of either node; an ask that the first one refuses is in the result.
pub fn pair<L: Link, C: Clock>(
    first: &mut BoundNode<L>,
    second: &mut BoundNode<L>,
    clock: &mut C,
    question: &Question,
    turns: u64,
) -> Result<AskEnd, TurnFault>
    ensures ended { IfOk result (λ end. PairEnds (question_view question.now) end turns
        (paired first.old second.old (C.told clock.old)) (paired first.new second.new (C.told clock.new))) }
    ensures failed { IfErr result (λ e. PairFails (question_view question.now) e turns
        (paired first.old second.old (C.told clock.old)) (paired first.new second.new (C.told clock.new))) }
{
    let ticket = match first.begin_by(clock, question) {
        Ok(ticket) => ticket,
        Err(AskFault::ClockBack) => return Err(TurnFault::ClockBack),
        Err(fault) => return Ok(AskEnd::Refused(fault)),
    };
    match wait(first, second, clock, ticket, turns)? {
        Some(ending) => Ok(AskEnd::Ended(ending)),
        None => Ok(AskEnd::NoEnding),
    }
}
