//! A keeper that tells its calls, and keeps nothing.
ghost use Rattle.std.specs.Prelude.{⊤, []};

use super::{Step, Steps, add};
use bac_keep::{KeepFault, Keeper, Made};
use bac_store::Store;

/// A keeper that tells its calls. It promises nothing of what a next start finds.
#[derive(Drop)]
pub(super) struct TellingKeeper<'a> {
    steps: &'a Steps,
    keeps: bool,
}

impl<'a> TellingKeeper<'a> {
    /// One whose every keep fails, or none.
    pub(super) fn new(steps: &'a Steps, keeps: bool) -> TellingKeeper<'a> {
        TellingKeeper { steps, keeps }
    }
}

impl Keeper for TellingKeeper<'_> {
    ghost IsHonest = { λ _. ⊥ };

    ghost IsOpen = { λ _. ⊤ };

    ghost kept = { λ _. [] };

    ghost noted = { λ _. [] };

    ghost failed = { λ _ _. ⊥ };

    ghost may_find = { λ _ _. ⊤ };

    ghost Base = { Unit {0} };

    ghost base = { λ _. tt };

    fn note(&mut self, _made: &Made<'_>, _store: &Store) -> Result<(), KeepFault> {
        add(self.steps, Step::Noted);
        Ok(())
    }

    fn keep(&mut self) -> Result<(), KeepFault> {
        if !self.keeps {
            return Err(KeepFault::Shut);
        }
        add(self.steps, Step::Kept);
        Ok(())
    }

    ghost settled = { λ k s honest still may. absurd honest };
}
