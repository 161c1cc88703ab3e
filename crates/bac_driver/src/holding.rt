//! A turn whose sends are held until what it changed is kept. `rounds` calls it; all here is private to the crate.
ghost use Rattle.std.specs.Prelude.{◌≡◌, false, IfErr, IfOk, OnOk};
ghost use Rattle.bac_driver.specs.Rounds.{FindsNoMore, HasNoted, HoldFails, HoldsTurnFrom, OnlyReceives, TurnStops, changes_store};
ghost use Rattle.bac_driver.specs.Runs.{timed};
ghost use Rattle.bac_driver.specs.Views.{turn_view};

use crate::bound_node::BoundNode;
use crate::changing::note_turn;
use crate::fault::{RoundFault, TurnFault};
use crate::turn::Turn;
use crate::wait_limit::WaitLimit;
use crate::{Clock, Link};
use bac_keep::Keeper;

impl<L: Link> BoundNode<L> {
    /// A turn that begins at a moment, and sends nothing. After the call to receive the node acts at the moment of the clock, or at the first one where the
    /// clock went back meanwhile.
    fn hold_turn<C: Clock>(
        &mut self,
        began: u64,
        clock: &mut C,
        wait_limit: &WaitLimit,
    ) -> Result<Turn, TurnFault>
        ensures holds { IfOk result (λ t. HoldsTurnFrom began wait_limit.now (timed self.old (C.told clock.old)) (turn_view t)
            (timed self.new (C.told clock.new))) }
        ensures failed { IfErr result (λ e. HoldFails e began (timed self.old (C.told clock.old)) (timed self.new (C.told clock.new))) }
        ensures unsent { OnlyReceives self.old.calls self.new.calls }
    {
        let received = self.receive(began, wait_limit)?;
        let now = clock.now().max(began);
        Ok(self.take(now, received))
    }

    /// Takes a turn as `hold_turn` does, and then the keeper notes what it changed. After `Keep` the turn is taken, and what it sends is lost.
    pub(crate) fn hold_from<C: Clock, K: Keeper>(
        &mut self,
        began: u64,
        clock: &mut C,
        wait_limit: &WaitLimit,
        keeper: &mut K,
    ) -> Result<Turn, RoundFault>
        requires { K.IsHonest keeper.old → HasNoted K.IsOpen K.noted keeper.old self.old.node.store }
        ensures holds { IfOk result (λ t. HoldsTurnFrom began wait_limit.now (timed self.old (C.told clock.old)) (turn_view t)
            (timed self.new (C.told clock.new))) }
        ensures stopped { IfErr result (λ e. TurnStops e began wait_limit.now (timed self.old (C.told clock.old)) (timed self.new (C.told clock.new))) }
        ensures unsent { OnlyReceives self.old.calls self.new.calls }
        ensures noted { OnOk result (K.IsHonest keeper.new → HasNoted K.IsOpen K.noted keeper.new self.new.node.store) }
        ensures kept { OnOk result (K.IsHonest keeper.new → K.kept keeper.new ≡ K.kept keeper.old) }
        ensures same { IfOk result (λ t. changes_store (turn_view t) ≡ false → keeper.new ≡ keeper.old) }
        ensures crash { FindsNoMore K.IsHonest K.may_find keeper.old keeper.new }
        ensures base { K.base keeper.new ≡ K.base keeper.old }
    {
        let turn = self.hold_turn(began, clock, wait_limit)?;
        note_turn(keeper, &turn, self.node().store())?;
        Ok(turn)
    }
}
