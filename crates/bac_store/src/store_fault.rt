//! Why a store is not created.
ghost use Rattle.std.specs.Prelude.{◌≡◌};
ghost use Rattle.bac_store.specs.declared.store_fault.StoreFault.TheVariants as fault;

use bac_value::NoMemory;
use thiserror::Error;

/// Why a store is not created from some objects.
#[derive(Clone, Copy, Debug, PartialEq, Eq, Error)]
pub enum StoreFault {
    /// Two objects have the same identifier, that is, the same type and instance. This is tested first, whatever the objects are.
    #[error("two objects have one identifier")]
    Duplicate,
    /// An object has an invalid type, instance, name, property, value or contents of a file, the same property twice, or is a file without contents.
    /// No two have the same identifier. [`Store::new`](crate::Store::new) lists the cases.
    #[error("an object that no store can have")]
    BadObject,
    /// The objects are valid, but an allocation failed. This is tested last.
    #[error("no memory")]
    NoMemory,
}

impl From<NoMemory> for StoreFault {
    ghost from_gives = { λ _ e. e ≡ fault.NoMemory };

    fn from(_error: NoMemory) -> StoreFault {
        StoreFault::NoMemory
    }
}
