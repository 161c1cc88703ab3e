//! Who keeps what a node makes of its store.
ghost use Rattle.std.specs.Prelude.{◌≡◌, ◌⊎◌, ⊤, [], IfErr, OnOk};
ghost use Rattle.bac_store.specs.Stores.{Store as Objects};
ghost use Rattle.bac_keep.specs.Causes.{IsUnkept, IsUnnoted};
ghost use Rattle.bac_keep.specs.Made.{IsKeepable, after_made, made_view};

use crate::fault::KeepFault;
use crate::made::Made;
use bac_store::Store;

/// Who keeps what a node makes of its store, so that the next start finds it.
///
/// A node [notes](Keeper::note) each request that it performs and each local change that it makes, right after it. Then it [keeps](Keeper::keep) all
/// of them together before its replies leave. After an `Err` nothing more is kept, and the node must not send what it has not sent. The next start
/// finds the store with all that was noted since the last `keep`, or without all of it.
pub trait Keeper: Drop {
    /// No wrong answer of the disk was taken as true.
    ghost IsHonest: { Self → Type 0 };

    /// No call has failed.
    ghost IsOpen: { Self → Type 0 };

    /// The store that is kept.
    ghost kept: { Self → Objects };

    /// The store with all that was noted.
    ghost noted: { Self → Objects };

    /// The database failed or refused between these two moments.
    ghost failed: { Self → Self → Type 0 };

    /// The next start may find this store after a power cut at this moment.
    ghost may_find: { Self → Objects → Type 0 };

    /// What the kept store lies over. No call changes it.
    ghost Base: { Type 0 };

    ghost base: { Self → Base };

    /// Notes what a node has made of its store, which it is now. The next start does not find it before `keep`.
    ///
    /// Returns `HighNumber` if it writes a property whose number has more than 22 bits (clause 23.1); `Database` if the database fails or has no memory; `NoMemory`
    /// if an allocation fails.
    fn note(&mut self, made: &Made<'_>, store: &Store) -> Result<(), KeepFault>
        requires open { IsHonest self.old → IsOpen self.old }
        requires made { IsHonest self.old → store.now ≡ after_made (made_view made.now) (noted self.old) }
        requires keepable { IsHonest self.old → IsKeepable (made_view made.now) (noted self.old) }
        ensures honest { IsHonest self.new → IsHonest self.old }
        ensures open { OnOk result (IsHonest self.new → IsOpen self.new) }
        ensures noted { OnOk result (IsHonest self.new → noted self.new ≡ store.now) }
        ensures kept { OnOk result (IsHonest self.new → kept self.new ≡ kept self.old) }
        ensures refused { IfErr result (λ e. IsHonest self.new → IsUnnoted (made_view made.now) (failed self.old self.new) e) }
        ensures crash { IsHonest self.new → (s : Objects) → may_find self.new s → may_find self.old s }
        ensures base { base self.new ≡ base self.old };

    /// Keeps all that was noted. At Ok it is on the disk.
    ///
    /// Returns `Database` if the database fails or has no memory.
    fn keep(&mut self) -> Result<(), KeepFault>
        requires open { IsHonest self.old → IsOpen self.old }
        ensures honest { IsHonest self.new → IsHonest self.old }
        ensures open { OnOk result (IsHonest self.new → IsOpen self.new) }
        ensures kept { OnOk result (IsHonest self.new → kept self.new ≡ noted self.old) }
        ensures noted { OnOk result (IsHonest self.new → noted self.new ≡ noted self.old) }
        ensures refused { IfErr result (λ e. IsHonest self.new → IsUnkept (failed self.old self.new) e) }
        ensures crash { IsHonest self.new → (s : Objects) → may_find self.new s → may_find self.old s ⊎ (s ≡ noted self.old) }
        ensures base { base self.new ≡ base self.old };

    /// While no call has failed, the next start finds what is kept, and nothing else.
    ghost settled: { (k : Self) (s : Objects) → IsHonest k → IsOpen k → may_find k s → s ≡ kept k };
}

/// Who keeps nothing, and says nothing of what the next start finds.
#[derive(Clone, Copy, Debug, PartialEq, Eq)]
pub struct KeepsNothing;

impl Keeper for KeepsNothing {
    ghost IsHonest = { λ _. ⊥ };

    ghost IsOpen = { λ _. ⊤ };

    ghost kept = { λ _. [] };

    ghost noted = { λ _. [] };

    ghost failed = { λ _ _. ⊥ };

    ghost may_find = { λ _ _. ⊤ };

    ghost Base = { Unit {0} };

    ghost base = { λ _. tt };

    fn note(&mut self, _made: &Made<'_>, _store: &Store) -> Result<(), KeepFault> {
        Ok(())
    }

    fn keep(&mut self) -> Result<(), KeepFault> {
        Ok(())
    }

    ghost settled = { λ k s honest still may. absurd honest };
}
