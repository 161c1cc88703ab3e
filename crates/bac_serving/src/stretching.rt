//! Who serves in stretches, and follows a document between them: [`Stretching`]. A node beside its clock does; `kept_station` has one whose store is kept.
ghost use Rattle.std.specs.Prelude.{◌≡◌, ⊤, ℕ, IfErr, IfOk, OnOk};
ghost use Rattle.bac_driver.specs.Moments.{with_moment};
ghost use Rattle.bac_driver.specs.Runs.{Timed, timed};
ghost use Rattle.bac_driver.specs.Serving.{Serves};
ghost use Rattle.bac_driver.specs.declared.wait_limit.WaitLimit.{WaitLimit as Limit};
ghost use Rattle.bac_text.specs.Statuses.{IsFailure};
ghost use Rattle.bac_serving.specs.Stretches.{IsChanged};

use crate::changing::{DocumentNews, make_all};
use bac_driver::{Clock, Link, RunLimit};
use bac_environment::Station;
use bac_keep::KeepFault;
use bac_server::LevelLog;
use bac_text::Status;
use std::io::Write;

/// A node that serves in stretches, and changes its own store between them.
pub(crate) trait Stretching {
    /// It serves so by a limit, and performs so many requests.
    ghost serves: { Limit → (most : ℕ) → (effects : ℕ) → (old : Timed) → (new : Timed) → Type 0 };

    ghost state: { Self → Timed };

    /// Its store is kept, if anybody keeps it.
    ghost IsSound: { Self → Type 0 };

    /// No wrong answer of the disk was taken as true.
    ghost IsHonest: { Self → Type 0 };

    /// The moment of its clock, in milliseconds.
    fn now(&mut self) -> u64
        ensures told { state self.new ≡ timed (state self.old).bound_node (with_moment (state self.old).told result) }
        ensures sound { IsSound self.old → IsSound self.new }
        ensures honest { IsHonest self.new → IsHonest self.old };

    /// Serves until a limit is reached, and a log tells of it on `err`. Returns how many requests it performed.
    ///
    /// The status says why it cannot go on, as `err` does.
    fn serve_stretch<E: Write>(
        &mut self,
        limit: &RunLimit,
        log: &mut LevelLog,
        err: &mut E,
    ) -> Result<u64, Status>
        requires { IsSound self.old }
        ensures served { IfOk result (λ effects. serves limit.now.wait_limit limit.now.turns effects (state self.old) (state self.new)) }
        ensures sound { OnOk result (IsSound self.new) }
        ensures honest { OnOk result (IsHonest self.new → IsHonest self.old) }
        ensures failed { IfErr result IsFailure };

    /// Makes the changes of a document, in order, and the log tells each. Where its store is kept, they are. Returns whether all were made; otherwise memory was
    /// refused, and it may be tried again.
    ///
    /// The status says why it cannot go on, as `err` does.
    fn follow<E: Write>(
        &mut self,
        news: DocumentNews<'_>,
        log: &mut LevelLog,
        err: &mut E,
    ) -> Result<bool, Status>
        ensures changed { OnOk result (IsChanged (state self.old).bound_node (state self.new).bound_node) }
        ensures sound { OnOk result (IsSound self.old → IsSound self.new) }
        ensures honest { OnOk result (IsHonest self.new → IsHonest self.old) }
        ensures failed { IfErr result IsFailure };

    /// Why its store could not be kept, once it could not.
    fn fault(&self) -> Option<KeepFault>;
}

impl<L: Link, C: Clock> Stretching for Station<L, C> {
    ghost serves = { Serves };

    ghost state = { λ s. timed s.bound_node (C.told s.clock) };

    ghost IsSound = { λ _. ⊤ };

    ghost IsHonest = { λ _. ⊤ };

    fn now(&mut self) -> u64 {
        self.clock.now()
    }

    fn serve_stretch<E: Write>(
        &mut self,
        limit: &RunLimit,
        log: &mut LevelLog,
        err: &mut E,
    ) -> Result<u64, Status> {
        bac_server::serve_stretch(&mut self.bound_node, &mut self.clock, limit, log, err)
    }

    fn follow<E: Write>(
        &mut self,
        news: DocumentNews<'_>,
        log: &mut LevelLog,
        err: &mut E,
    ) -> Result<bool, Status> {
        let moment = self.clock.now();
        let made = make_all(
            self.alloc,
            moment,
            &mut self.bound_node,
            news.changes,
            log,
            err,
        );
        Ok(made.is_ok())
    }

    /// Nobody keeps it.
    fn fault(&self) -> Option<KeepFault> {
        None
    }
}
