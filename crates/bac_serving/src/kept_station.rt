//! A node on its link whose store is kept, and which follows a document: [`KeptStation`].
ghost use Rattle.std.specs.Prelude.{◌≡◌, IfErr, IfOk, IfSome, MatchOption, OnOk};
ghost use Rattle.bac_driver.specs.Kept.{keeper_of};
ghost use Rattle.bac_driver.specs.Rounds.{IsKept};
ghost use Rattle.bac_driver.specs.Runs.{timed};
ghost use Rattle.bac_text.specs.Statuses.{IsFailure};
ghost use Rattle.bac_serving.specs.Stretches.{ServesInRounds};

use crate::changing::{DocumentNews, make_all};
use crate::following_keeper::FollowingKeeper;
use crate::stretching::Stretching;
use bac_commands::CommandError;
use bac_driver::{BoundNode, Clock, Link, Round, RunLimit};
use bac_keep::{KeepFault, Keeper};
use bac_server::LevelLog;
use bac_store::Store;
use bac_text::{Status, no_memory};
use std::alloc::Global;
use std::io::Write;

/// A node on its link, beside a clock, and who keeps its store.
#[derive(Drop)]
pub(crate) struct KeptStation<L: Link, C: Clock, K: Keeper> {
    pub alloc: Global,
    pub bound_node: BoundNode<L>,
    pub clock: C,
    /// Who keeps its store; None once it could not go over to a document.
    pub round: Option<Round<K>>,
    /// Why the store could not be kept, once it could not.
    pub fault: Option<KeepFault>,
}

/// The rounds of a keeper that goes over to the document as it is now. `store` is what the node has made of its changes.
fn round_over<K: FollowingKeeper>(
    alloc: Global,
    round: Round<K>,
    news: DocumentNews<'_>,
    store: &Store,
) -> Result<Round<K>, KeepFault>
    ensures kept { IfOk result (λ r. K.IsHonest (keeper_of r) → IsKept K.IsOpen K.kept K.noted (keeper_of r) store.now) }
    ensures honest { IfOk result (λ r. K.IsHonest (keeper_of r) → K.IsHonest (keeper_of round)) }
{
    let keeper = round.into_keeper().over(alloc, news, store)?;
    Ok(Round::new(alloc, keeper)?)
}

impl<L: Link, C: Clock + Drop, K: Keeper> KeptStation<L, C, K> {
    /// Complains of what stopped it.
    fn stop<E: Write>(&mut self, error: CommandError, err: &mut E) -> Status
        ensures { IsFailure result }
    {
        self.fault = error.keep_fault();
        error.report_at(self.bound_node.node().link(), err)
    }

    /// Complains of what could not be kept.
    fn refuse<E: Write>(&mut self, fault: KeepFault, err: &mut E) -> Status
        ensures { IsFailure result }
    {
        match fault {
            KeepFault::NoMemory => no_memory(err),
            fault => self.stop(CommandError::Keep(fault), err),
        }
    }

    /// Its keeper in the end, if it has not failed.
    pub(crate) fn into_keeper(self) -> Option<K>
        ensures { IfSome result (λ k. MatchOption self.round ⊥ (λ r. k ≡ keeper_of r)) }
    {
        let KeptStation {
            alloc: _,
            bound_node,
            clock,
            round,
            fault,
        } = self;
        drop(bound_node);
        drop(clock);
        if fault.is_some() {
            drop(round);
            return None;
        }
        match round {
            Some(round) => Some(round.into_keeper()),
            None => None,
        }
    }
}

impl<L: Link, C: Clock + Drop, K: FollowingKeeper> Stretching for KeptStation<L, C, K> {
    ghost serves = { ServesInRounds };

    ghost state = { λ s. timed s.bound_node (C.told s.clock) };

    ghost IsSound = { λ s. MatchOption s.round ⊥ (λ r. K.IsHonest (keeper_of r) → IsKept K.IsOpen K.kept K.noted (keeper_of r) s.bound_node.node.store) };

    ghost IsHonest = { λ s. MatchOption s.round ⊥ (λ r. K.IsHonest (keeper_of r)) };

    fn now(&mut self) -> u64 {
        self.clock.now()
    }

    fn serve_stretch<E: Write>(
        &mut self,
        limit: &RunLimit,
        log: &mut LevelLog,
        err: &mut E,
    ) -> Result<u64, Status> {
        let Some(mut round) = self.round.take() else {
            return Err(no_memory(err));
        };
        let served = self
            .bound_node
            .serve_kept(&mut self.clock, limit, &mut round, log, err);
        self.round = Some(round);
        match served {
            Ok(effects) => Ok(effects),
            Err(fault) => Err(self.stop(CommandError::from(fault), err)),
        }
    }

    fn follow<E: Write>(
        &mut self,
        news: DocumentNews<'_>,
        log: &mut LevelLog,
        err: &mut E,
    ) -> Result<bool, Status> {
        if news.changes.is_empty() {
            return Ok(true);
        }
        let moment = self.clock.now();
        let made = make_all(
            self.alloc,
            moment,
            &mut self.bound_node,
            news.changes,
            log,
            err,
        );
        let Some(round) = self.round.take() else {
            return Err(no_memory(err));
        };
        if made.is_err() {
            // some changes may have been made, and none is kept
            drop(round);
            return Err(no_memory(err));
        }
        match round_over(self.alloc, round, news, self.bound_node.node().store()) {
            Ok(round) => {
                self.round = Some(round);
                Ok(true)
            }
            Err(fault) => Err(self.refuse(fault, err)),
        }
    }

    fn fault(&self) -> Option<KeepFault> {
        self.fault
    }
}
