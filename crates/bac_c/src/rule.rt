//! The rules by which listed objects make a store.
ghost use Rattle.std.specs.Prelude.{◌↔◌, map, IfOk, IsErrOf, IsTrue};
ghost use Rattle.bac_store.specs.Described.{AreDescribed, IsDescribedBy};
ghost use Rattle.bac_store.specs.Made.{IsMadeOf};
ghost use Rattle.bac_store.specs.Objects.{AreDistinct};
ghost use Rattle.bac_store.specs.Views.{object_view};
ghost use Rattle.bac_c.specs.Starting.{AreBad, HaveTwins, IsBad, makes, start_statuses};
ghost use Rattle.bac_c.specs.Statuses.{is_one_of, status_of, DESCRIBED_STARTING, STARTING};

use crate::fault::Fault;
use bac_store::{DescriptionFlaw, Object, Store, StoreFault};
use std::alloc::Global;

/// The rule by which listed objects make a store.
#[derive(Clone, Copy, Debug, PartialEq, Eq)]
pub enum Rule {
    /// The object types and properties of this profile alone.
    Plain,
    /// Objects of any type, with any properties.
    Described,
}

/// The store of some objects, by the plain rule.
fn plain_store(alloc: Global, objects: Vec<Object>) -> Result<Store, Fault>
    ensures made { IfOk result (IsMadeOf (map object_view objects.items)) }
    ensures duplicate { (IsErrOf result Fault.NoMemory → ⊥) → (IsErrOf result Fault.Duplicate ↔ (AreDistinct (map object_view objects.items) → ⊥)) }
    ensures bad { (IsErrOf result Fault.NoMemory → ⊥) → (IsErrOf result Fault.BadObject ↔ IsBad (map object_view objects.items)) }
    ensures few { IsTrue (is_one_of STARTING (status_of result)) }
    ensures started { IsErrOf result Fault.AlreadyStarted → ⊥ }
    ensures settings { IsErrOf result Fault.BadSettings → ⊥ }
    ensures open { IsErrOf result Fault.NotOpen → ⊥ }
{
    match Store::new(alloc, objects) {
        Ok(store) => Ok(store),
        Err(StoreFault::Duplicate) => Err(Fault::Duplicate),
        Err(StoreFault::BadObject) => Err(Fault::BadObject),
        Err(StoreFault::NoMemory) => Err(Fault::NoMemory),
    }
}

/// The store that some objects describe.
#[tactic(auto, using(crate::proofs::Describes::refuses, crate::proofs::Describes::describes))]
fn described_store(alloc: Global, objects: Vec<Object>) -> Result<Store, Fault>
    ensures made { IfOk result (IsDescribedBy (map object_view objects.items)) }
    ensures bad { (IsErrOf result Fault.NoMemory → ⊥) → (IsErrOf result Fault.BadObject ↔ (AreDescribed (map object_view objects.items) → ⊥)) }
    ensures few { IsTrue (is_one_of DESCRIBED_STARTING (status_of result)) }
    ensures started { IsErrOf result Fault.AlreadyStarted → ⊥ }
    ensures settings { IsErrOf result Fault.BadSettings → ⊥ }
    ensures open { IsErrOf result Fault.NotOpen → ⊥ }
{
    match Store::describing(alloc, objects) {
        Ok(store) => Ok(store),
        Err(fault) => match fault.why {
            DescriptionFlaw::NoMemory => Err(Fault::NoMemory),
            _ => Err(Fault::BadObject),
        },
    }
}

impl Rule {
    /// The store that some objects make by this rule.
    pub fn store(self, alloc: Global, objects: Vec<Object>) -> Result<Store, Fault>
        ensures made { IfOk result (makes self (map object_view objects.items)) }
        ensures duplicate { (IsErrOf result Fault.NoMemory → ⊥) → (IsErrOf result Fault.Duplicate ↔ HaveTwins self (map object_view objects.items)) }
        ensures bad { (IsErrOf result Fault.NoMemory → ⊥) → (IsErrOf result Fault.BadObject ↔ AreBad self (map object_view objects.items)) }
        ensures few { IsTrue (is_one_of (start_statuses self) (status_of result)) }
        ensures started { IsErrOf result Fault.AlreadyStarted → ⊥ }
        ensures settings { IsErrOf result Fault.BadSettings → ⊥ }
        ensures open { IsErrOf result Fault.NotOpen → ⊥ }
    {
        match self {
            Rule::Plain => plain_store(alloc, objects),
            Rule::Described => described_store(alloc, objects),
        }
    }
}
