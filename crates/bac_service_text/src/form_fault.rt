//! Why words cannot be read.
ghost use Rattle.std.specs.Prelude.{◌≡◌};
ghost use Rattle.bac_service_text.specs.declared.form_fault.FormFault.TheVariants as fault;

use std::alloc::AllocError;
use thiserror::Error;

/// Why words, or a line of a script, cannot be read.
#[derive(Clone, Copy, Debug, PartialEq, Eq, Error)]
pub enum FormFault {
    /// The words have no known form, or a number is outside its range.
    #[error("words of no known form")]
    NoForm,
    /// An allocation failed.
    #[error("no memory")]
    NoMemory,
}

impl From<AllocError> for FormFault {
    ghost from_gives = { λ _ e. e ≡ fault.NoMemory };

    fn from(_error: AllocError) -> FormFault {
        FormFault::NoMemory
    }
}
