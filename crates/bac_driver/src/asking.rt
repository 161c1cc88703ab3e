//! A bound node that asks, and waits for the answer.
//!
//! Programs call it; the methods and their contracts are the interface.
ghost use Rattle.std.specs.Prelude.{◌≢◌, IfOk, IfErr, IsErrOf, MatchOption};
ghost use Rattle.bac_driver.specs.Runs.{GoesBack, TurnFails, timed};
ghost use Rattle.bac_driver.specs.Serving.{IsOver, TakesEarlyTurn};
ghost use Rattle.bac_driver.specs.Asking.{Asks, AskingEnds, AskingFails, IsRefused, WaitingFails, WaitsSo};
ghost use Rattle.bac_driver.specs.Observed.{ObservedAsk, ObservedWait, observed};
ghost use Rattle.bac_driver.specs.Views.{question_view, turn_view};

use crate::bound_node::BoundNode;
use crate::endings::ending_in;
use crate::fault::TurnFault;
use crate::observer::{NoObserver, Observer};
use crate::question::{AskEnd, Question};
use crate::turn::Turn;
use crate::wait_limit::{RunLimit, WaitLimit};
use crate::{Clock, Link};
use bac_requester::{AskFault, Ending};

impl<L: Link> BoundNode<L> {
    /// [`begin`](BoundNode::begin) at the moment of a clock. Returns the ticket.
    pub fn begin_by<C: Clock>(
        &mut self,
        clock: &mut C,
        question: &Question,
    ) -> Result<u64, AskFault>
        ensures begun { IfOk result (λ ticket. Asks (question_view question.now)
            (timed self.old (C.told clock.old)) ticket (timed self.new (C.told clock.new))) }
        ensures refused { IfErr result (λ e. e ≢ AskFault.ClockBack → IsRefused (question_view question.now) e
            (timed self.old (C.told clock.old)) (timed self.new (C.told clock.new))) }
        ensures back { IsErrOf result AskFault.ClockBack → GoesBack (timed self.old (C.told clock.old)) (timed self.new (C.told clock.new)) }
    {
        self.begin(clock.now(), question)
    }

    /// Takes one turn as [`turn_by`](BoundNode::turn_by), where it begins before `wait_limit.until`, if there is one. Otherwise it returns None, and nothing
    /// has changed.
    pub fn turn_before<C: Clock>(
        &mut self,
        clock: &mut C,
        wait_limit: &WaitLimit,
    ) -> Result<Option<Turn>, TurnFault>
        ensures taken { IfOk result (λ r. MatchOption r (IsOver wait_limit.now (timed self.old (C.told clock.old)) (timed self.new (C.told clock.new)))
            (λ t. TakesEarlyTurn wait_limit.now (timed self.old (C.told clock.old)) (turn_view t) (timed self.new (C.told clock.new)))) }
        ensures failed { IfErr result (λ e. TurnFails e (timed self.old (C.told clock.old)) (timed self.new (C.told clock.new))) }
    {
        let began = clock.now();
        if !wait_limit.is_before(began) {
            return Ok(None);
        }
        let turn = self.turn_from(began, clock, wait_limit)?;
        Ok(Some(turn))
    }

    /// Takes turns until the transaction of the ticket has ended, or the limit is reached. The observer sees each.
    fn wait<C: Clock, W, O: Observer<W>>(
        &mut self,
        clock: &mut C,
        ticket: u64,
        limit: &RunLimit,
        observer: &mut O,
        out: &mut W,
    ) -> Result<Option<Ending>, TurnFault>
        ensures waited { IfOk result (WaitsSo limit.now.wait_limit limit.now.turns ticket
            (timed self.old (C.told clock.old)) (timed self.new (C.told clock.new))) }
        ensures observed { IfOk result (ObservedWait O.Sees limit.now.wait_limit limit.now.turns ticket
            (observed (timed self.old (C.told clock.old)) (O.state observer.old out.old))
            (observed (timed self.new (C.told clock.new)) (O.state observer.new out.new))) }
        ensures failed { IfErr result (λ e. WaitingFails e limit.now.wait_limit limit.now.turns ticket
            (timed self.old (C.told clock.old)) (timed self.new (C.told clock.new))) }
    {
        for _ in 0..limit.turns {
            let Some(turn) = self.turn_before(clock, &limit.wait_limit)? else {
                return Ok(None);
            };
            // the ending is taken out of the turn next, so the observer sees it before
            observer.on_turn(self.node(), self.buffer(), &turn, out);
            if let Some(ending) = ending_in(turn, ticket) {
                return Ok(Some(ending));
            }
        }
        Ok(None)
    }

    /// The node asks, and takes turns at the moments of a clock until the transaction has ended, or the limit is reached. The observer sees each turn,
    /// in order, and no other.
    ///
    /// `Link` where the link could not receive, `ClockBack` where the clock went back: the node keeps what the turns before have done, and the transaction
    /// stays open.
    pub fn ask_observed<C: Clock, W, O: Observer<W>>(
        &mut self,
        clock: &mut C,
        question: &Question,
        limit: &RunLimit,
        observer: &mut O,
        out: &mut W,
    ) -> Result<AskEnd, TurnFault>
        ensures ended { IfOk result (λ end. AskingEnds (question_view question.now) end limit.now.wait_limit limit.now.turns
            (timed self.old (C.told clock.old)) (timed self.new (C.told clock.new))) }
        ensures observed { IfOk result (λ end. ObservedAsk O.Sees (question_view question.now) end limit.now.wait_limit limit.now.turns
            (observed (timed self.old (C.told clock.old)) (O.state observer.old out.old))
            (observed (timed self.new (C.told clock.new)) (O.state observer.new out.new))) }
        ensures failed { IfErr result (λ e. AskingFails (question_view question.now) e limit.now.wait_limit limit.now.turns
            (timed self.old (C.told clock.old)) (timed self.new (C.told clock.new))) }
    {
        let ticket = match self.begin_by(clock, question) {
            Ok(ticket) => ticket,
            // as in a turn; any other refusal is what the ask came to
            Err(AskFault::ClockBack) => return Err(TurnFault::ClockBack),
            Err(fault) => return Ok(AskEnd::Refused(fault)),
        };
        match self.wait(clock, ticket, limit, observer, out)? {
            Some(ending) => Ok(AskEnd::Ended(ending)),
            None => Ok(AskEnd::NoEnding),
        }
    }

    /// Asks and waits as [`ask_observed`](BoundNode::ask_observed) does, without an observer. The faults are the same.
    pub fn ask<C: Clock>(
        &mut self,
        clock: &mut C,
        question: &Question,
        limit: &RunLimit,
    ) -> Result<AskEnd, TurnFault>
        ensures ended { IfOk result (λ end. AskingEnds (question_view question.now) end limit.now.wait_limit limit.now.turns
            (timed self.old (C.told clock.old)) (timed self.new (C.told clock.new))) }
        ensures failed { IfErr result (λ e. AskingFails (question_view question.now) e limit.now.wait_limit limit.now.turns
            (timed self.old (C.told clock.old)) (timed self.new (C.told clock.new))) }
    {
        self.ask_observed(clock, question, limit, &mut NoObserver, &mut ())
    }
}
