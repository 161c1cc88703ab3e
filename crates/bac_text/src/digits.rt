//! Octets that stand as hexadecimal digits of either case.
ghost use Rattle.std.specs.Prelude.{◌≡◌, Some, None, IfOk, if◌then◌else◌};
ghost use Rattle.bac_text.specs.Capture.{decoded_at};

use std::alloc::AllocError;

/// Reads the octets that digits stand for, in the place of those that `octets` has; false where the text stands for none.
/// An Err only where an allocation fails.
pub(crate) fn read_digits(text: &[u8], octets: &mut Vec<u8>) -> Result<bool, AllocError>
    ensures { IfOk result (λ found. decoded_at text.now ≡ (if found then Some octets.new.items else None)) }
{
    octets.resize(text.len() / 2, 0)?;
    Ok(hex::decode_to_slice(text, octets).is_ok())
}
