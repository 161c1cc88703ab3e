//! Why kept cells make no store.
ghost use Rattle.std.specs.Prelude.{◌≡◌};
ghost use Rattle.bac_c.specs.declared.kept_fault.KeptFault.TheVariants as fault;

use bac_value::NoMemory;
use std::alloc::AllocError;

/// Why kept cells make no store.
#[derive(Clone, Copy, Debug, PartialEq, Eq)]
pub enum KeptFault {
    /// The property or the file of this place is there, may be written, and can't have what is kept.
    Wrong {
        /// The place.
        place: u64,
    },
    /// Memory was refused.
    NoMemory,
}

impl From<NoMemory> for KeptFault {
    ghost from_gives = { λ _ f. f ≡ fault.NoMemory };

    fn from(_error: NoMemory) -> KeptFault {
        KeptFault::NoMemory
    }
}

impl From<AllocError> for KeptFault {
    ghost from_gives = { λ _ f. f ≡ fault.NoMemory };

    fn from(_error: AllocError) -> KeptFault {
        KeptFault::NoMemory
    }
}
