//! Reading the service data of requests.
ghost use Rattle.std.specs.Prelude.{IfOk, OnErr};
ghost use Rattle.bac_segment.specs.Pieces.{join};
ghost use Rattle.bac_service.specs.Requests.{NeedsMemory};
ghost use Rattle.bac_responder.specs.Reading.{IsRead, found_view};

use bac_segment::Incoming;
use bac_service::{OwnedRequest, ReadError, read_request, read_request_parts};
use bac_value::NoMemory;
use std::alloc::Global;

/// The request that service data spell, or the number of the reason for rejecting them (clause 18.9).
pub(crate) fn read_whole(
    alloc: Global,
    choice: u8,
    octets: &[u8],
) -> Result<Result<OwnedRequest, u8>, NoMemory>
    ensures { IfOk result (λ found. IsRead choice octets.now (found_view found)) }
{
    match read_request(choice, octets) {
        Ok(request) => {
            let request = request.to_owned(alloc)?;
            Ok(Ok(request))
        }
        Err(reject) => Ok(Err(reject.reason())),
    }
}

/// The request that service data in segments spell, or the number of the reason for rejecting them (clause 18.9). The segments are not joined.
/// `NoMemory` only where they spell a request that wants memory.
pub(crate) fn read_segments(
    alloc: Global,
    choice: u8,
    incoming: &Incoming,
) -> Result<Result<OwnedRequest, u8>, NoMemory>
    ensures found { IfOk result (λ found. IsRead choice (join incoming.now.parts) (found_view found)) }
    ensures last { OnErr result ∥ NeedsMemory choice (join incoming.now.parts) ∥₁ }
{
    match read_request_parts(alloc, choice, incoming.parts()) {
        Ok(request) => Ok(Ok(request)),
        Err(error) => match error {
            ReadError::Refused(reject) => Ok(Err(reject.reason())),
            ReadError::NoMemory => Err(NoMemory),
        },
    }
}
