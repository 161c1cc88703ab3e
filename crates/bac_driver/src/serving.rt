//! A bound node that serves: turn after turn, for so many turns or until a moment.
//!
//! Programs call it; the methods and their contracts are the interface.
ghost use Rattle.std.specs.Prelude.{◌≡◌, ◌↔◌, ◌<◌, ◌≤◌, IfOk, IfErr, IfSome, IsTrue, MatchOption};
ghost use Rattle.bac_driver.specs.Runs.{TakesTurn, TurnFails, timed};
ghost use Rattle.bac_driver.specs.Seen.{Watches, WatchesOnce};
ghost use Rattle.bac_driver.specs.Serving.{IsBefore, IsOver, Serves, ServingFails};
ghost use Rattle.bac_driver.specs.Views.{turn_view};

use crate::bound_node::BoundNode;
use crate::fault::TurnFault;
use crate::observer::{NoObserver, Observer};
use crate::turn::Turn;
use crate::wait_limit::{RunLimit, WaitLimit};
use crate::{Clock, Link};

impl WaitLimit {
    /// Whether a moment is before its last one, if it has one.
    pub(crate) fn is_before(&self, now: u64) -> bool
        ensures { IsTrue result ↔ IsBefore now self.now.until }
    {
        match self.until {
            Some(until) => now < until,
            None => true,
        }
    }
}

impl<L: Link> BoundNode<L> {
    /// Takes one turn by a clock. It begins at one moment, and once the call to receive has returned, the node acts at the next; where the clock went back
    /// between them, at the first. It is as [`turn`](BoundNode::turn), but waits as long as `wait_limit` says.
    ///
    /// `ClockBack` exactly where the first moment is before the node's latest one; then nothing is received.
    pub fn turn_by<C: Clock>(
        &mut self,
        clock: &mut C,
        wait_limit: &WaitLimit,
    ) -> Result<Turn, TurnFault>
        ensures taken { IfOk result (λ t. TakesTurn wait_limit.now (timed self.old (C.told clock.old)) (turn_view t) (timed self.new (C.told clock.new))) }
        ensures failed { IfErr result (λ e. TurnFails e (timed self.old (C.told clock.old)) (timed self.new (C.told clock.new))) }
    {
        let began = clock.now();
        self.turn_from(began, clock, wait_limit)
    }

    /// Takes one turn as [`turn_by`](BoundNode::turn_by) does, if it begins before `wait_limit.until`, and shows it to the observer. Returns how many
    /// requests the node performed, 0 or 1; None if the time is over, and then nothing has changed.
    fn serve_once<C: Clock, W, O: Observer<W>>(
        &mut self,
        clock: &mut C,
        wait_limit: &WaitLimit,
        observer: &mut O,
        out: &mut W,
    ) -> Result<Option<u64>, TurnFault>
        ensures served { IfOk result (λ r. IfSome r (λ effects. WatchesOnce O.Sees wait_limit.now (O.state observer.old out.old) (O.state observer.new out.new)
            effects (timed self.old (C.told clock.old)) (timed self.new (C.told clock.new)))) }
        ensures over { IfOk result (λ r. MatchOption r (IsOver wait_limit.now (timed self.old (C.told clock.old)) (timed self.new (C.told clock.new)))
            (λ effects. effects ≤ 1)) }
        ensures unseen { IfOk result (λ r. MatchOption r (O.state observer.new out.new ≡ O.state observer.old out.old) (λ effects. effects ≤ 1)) }
        ensures failed { IfErr result (λ e. TurnFails e (timed self.old (C.told clock.old)) (timed self.new (C.told clock.new))) }
    {
        let began = clock.now();
        if !wait_limit.is_before(began) {
            return Ok(None);
        }
        let turn = self.turn_from(began, clock, wait_limit)?;
        observer.on_turn(self.node(), self.buffer(), &turn, out);
        match turn.effect() {
            Some(_) => Ok(Some(1)),
            None => Ok(Some(0)),
        }
    }

    /// Takes turns at the moments of a clock until the limit is reached. The observer sees each turn, in order, and no other. Returns how many
    /// requests the node performed.
    ///
    /// `Link` where the link could not receive, `ClockBack` where the clock went back: the node keeps what the turns before have done.
    pub fn serve_observed<C: Clock, W, O: Observer<W>>(
        &mut self,
        clock: &mut C,
        limit: &RunLimit,
        observer: &mut O,
        out: &mut W,
    ) -> Result<u64, TurnFault>
        ensures served { IfOk result (λ effects. Serves limit.now.wait_limit limit.now.turns effects (timed self.old (C.told clock.old))
            (timed self.new (C.told clock.new))) }
        ensures watched { IfOk result (λ effects. Watches O.Sees limit.now.wait_limit (O.state observer.old out.old) (O.state observer.new out.new)
            limit.now.turns effects (timed self.old (C.told clock.old)) (timed self.new (C.told clock.new))) }
        ensures failed { IfErr result (λ e. ServingFails e limit.now.wait_limit limit.now.turns
            (timed self.old (C.told clock.old)) (timed self.new (C.told clock.new))) }
    {
        let mut effects = 0;
        for _ in 0..limit.turns {
            let once = self.serve_once(clock, &limit.wait_limit, observer, out)?;
            let Some(more) = once else {
                return Ok(effects);
            };
            effects += more;
        }
        Ok(effects)
    }

    /// Serves as [`serve_observed`](BoundNode::serve_observed) does, without an observer. The faults are the same.
    pub fn serve<C: Clock>(&mut self, clock: &mut C, limit: &RunLimit) -> Result<u64, TurnFault>
        ensures served { IfOk result (λ effects. Serves limit.now.wait_limit limit.now.turns effects (timed self.old (C.told clock.old))
            (timed self.new (C.told clock.new))) }
        ensures failed { IfErr result (λ e. ServingFails e limit.now.wait_limit limit.now.turns
            (timed self.old (C.told clock.old)) (timed self.new (C.told clock.new))) }
    {
        self.serve_observed(clock, limit, &mut NoObserver, &mut ())
    }
}
