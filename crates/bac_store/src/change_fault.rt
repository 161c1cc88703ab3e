//! Why a local change is not made.
ghost use Rattle.std.specs.Prelude.{◌≡◌};
ghost use Rattle.bac_store.specs.AtNode.{change_fault_number};
ghost use Rattle.bac_store.specs.declared.change_fault.ChangeFault.TheVariants as fault;

use bac_value::NoMemory;
use thiserror::Error;

/// Why a local change is not made. The faults are tested in this order.
#[derive(Clone, Copy, Debug, PartialEq, Eq, Error)]
pub enum ChangeFault {
    /// No object has this identifier, or the change is for a file and the object is not a file.
    #[error("no such object")]
    NoSuchObject = 1,
    /// The object does not list this property. Computed properties are not listed, as they follow from the object.
    #[error("no such property")]
    NoSuchProperty = 2,
    /// The octets are not data, or not of the property's kind, or not Enumerated 0 or 1 for the present-value of a
    /// binary-value.
    #[error("a value that the property cannot have")]
    BadValue = 3,
    /// More octets than [`VALUE_LIMIT`](crate::VALUE_LIMIT) for a property, or [`FILE_LIMIT`](crate::FILE_LIMIT) for a file.
    #[error("too many octets")]
    TooLong = 4,
    /// The change is valid, but an allocation failed. This is tested last.
    #[error("no memory")]
    NoMemory = 5,
}

impl ChangeFault {
    /// The number of the fault, 1 to 5, by which it is printed (own numbers of this profile).
    pub fn number(self) -> u8
        ensures { result ≡ change_fault_number self }
    {
        self as u8
    }
}

impl From<NoMemory> for ChangeFault {
    ghost from_gives = { λ _ e. e ≡ fault.NoMemory };

    fn from(_error: NoMemory) -> ChangeFault {
        ChangeFault::NoMemory
    }
}
