//! Reading the service data of a ComplexACK. `await_confirmation` and `segmented_conf` call it; all here is private to the crate.
ghost use Rattle.std.specs.Prelude.{◌≡◌, IfOk};
ghost use Rattle.std.specs.Option.{option_map};
ghost use Rattle.bac_segment.specs.Pieces.{join};
ghost use Rattle.bac_service.specs.Views.{owned_complex_view};
ghost use Rattle.bac_requester.specs.Transitions.{IsRead};

use bac_segment::Incoming;
use bac_service::{OwnedComplex, ReadError, read_reply, read_reply_parts};
use bac_value::NoMemory;
use std::alloc::Global;

/// What the service data of one APDU mean; None where they can't be read.
pub(crate) fn read_one(
    alloc: Global,
    choice: u8,
    service: &[u8],
) -> Result<Option<OwnedComplex>, NoMemory>
    ensures { IfOk result (λ found. IsRead choice service.now (option_map owned_complex_view found)) }
{
    let Ok(complex) = read_reply(choice, service) else {
        return Ok(None);
    };
    let complex = complex.to_owned(alloc)?;
    Ok(Some(complex))
}

/// What the joined parts of a reassembly mean; None where they can't be read. It reads them in place, without joining them.
pub(crate) fn read_parts(
    alloc: Global,
    choice: u8,
    incoming: &Incoming,
) -> Result<Option<OwnedComplex>, NoMemory>
    ensures { IfOk result (λ found. IsRead choice (join incoming.now.parts) (option_map owned_complex_view found)) }
{
    match read_reply_parts(alloc, choice, incoming.parts()) {
        Ok(complex) => Ok(Some(complex)),
        Err(error) => match error {
            ReadError::Refused(_) => Ok(None),
            ReadError::NoMemory => Err(NoMemory),
        },
    }
}
