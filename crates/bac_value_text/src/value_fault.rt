//! Why a text is not a value.
ghost use Rattle.std.specs.Prelude.{◌≡◌};
ghost use Rattle.bac_value_text.specs.declared.value_fault.ValueFault.TheVariants as fault;

use std::alloc::AllocError;
use thiserror::Error;

/// Why no value was read from a text.
#[derive(Clone, Copy, Debug, PartialEq, Eq, Error)]
pub enum ValueFault {
    /// The text does not begin with the name of a kind, or what follows is not a value of that kind.
    #[error("no value")]
    NoValue,
    /// An allocation failed.
    #[error("no memory")]
    NoMemory,
}

impl From<AllocError> for ValueFault {
    ghost from_gives = { λ _ e. e ≡ fault.NoMemory };

    fn from(_error: AllocError) -> ValueFault {
        ValueFault::NoMemory
    }
}
