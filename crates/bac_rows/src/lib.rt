//! What rows of tests share: words of lines and what is printed of them, octets in hexadecimal, lines of scripts, stores, and failures.
//!
//! A table of rows is a `const` slice. A row that cannot be read fails its test, as does one that does not hold.
#![tactic(auto)]

ghost use Rattle.std.specs.Prelude.{◌≡◌, ◌↔◌, IfOk, IsOk, IsErr, IsTrue};
ghost use Rattle.hex.specs.Hex.{decode_of};
ghost use Rattle.bac_rows.specs.declared.RowFault.TheVariants.{NotHexadecimal};

pub mod row;
pub mod script;
pub mod stores;

use hex::FromHexError;
use std::alloc::{AllocError, AllocFailed, Global};
use std::fmt;
use std::test::Fail;

/// Why a row cannot be read.
#[derive(Clone, Copy, Debug, PartialEq, Eq)]
pub enum RowFault {
    /// The text is no hexadecimal: an odd number of digits, or something else than a digit.
    NotHexadecimal,
    /// The line is malformed.
    NoLine,
    /// Memory was refused.
    NoMemory,
}

impl From<AllocError> for RowFault {
    fn from(_error: AllocError) -> RowFault {
        RowFault::NoMemory
    }
}

impl<T: Drop> From<AllocFailed<T>> for RowFault {
    fn from(_error: AllocFailed<T>) -> RowFault {
        RowFault::NoMemory
    }
}

impl From<fmt::Error> for RowFault {
    fn from(_error: fmt::Error) -> RowFault {
        RowFault::NoMemory
    }
}

/// The octets of hexadecimal text, in digits of either case. `NotHexadecimal` exactly where the text is none.
pub fn octets_of(alloc: Global, text: &str) -> Result<Vec<u8>, RowFault>
    ensures read { IfOk result (λ octets. decode_of text.now ≡ Ok octets.items) }
    ensures refused { result ≡ Err NotHexadecimal → IsErr (decode_of text.now) }
    ensures starved { IsErr (decode_of text.now) → IsErr result }
{
    match hex::decode(alloc, text) {
        Ok(octets) => Ok(octets),
        Err(FromHexError::OutOfMemory) => Err(RowFault::NoMemory),
        Err(_) => Err(RowFault::NotHexadecimal),
    }
}

/// Fails, with that text, where a row does not hold.
pub fn holds(is: bool, about: &str) -> Result<(), Fail>
    ensures { IsOk result ↔ IsTrue is }
{
    if is { Ok(()) } else { Err(Fail::new(about)) }
}
