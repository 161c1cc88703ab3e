//! Whether a request that comes is the one that an entry is for.
ghost use Rattle.std.specs.Prelude.{◌≡◌};
ghost use Rattle.std.specs.Option.{option_map};
ghost use Rattle.bac_apdu.specs.Views.{segment_view};
ghost use Rattle.bac_protocol.specs.Reuse.{is_other_first as is_another};
ghost use Rattle.bac_protocol.specs.Server.{State as ServerState};
ghost use Rattle.bac_responder.specs.Segments.{is_repeated as is_repeat};
ghost use Rattle.bac_responder.specs.TransactionViews.{entry_of};

use crate::server_transaction::Origin;
use bac_apdu::Segment;

/// Whether it is a copy of the kept request, or a segment where the entry began with one.
pub(crate) fn is_repeated(
    origin: &Origin,
    segment: Option<Segment>,
    choice: u8,
    octets: &[u8],
) -> bool
    ensures { (z : ServerState) → result ≡ is_repeat (entry_of origin.now z) (option_map segment_view segment) choice octets.now }
{
    match segment {
        None => match &origin.request {
            None => false,
            Some(first) => choice == origin.terms.choice && octets == first.as_slice(),
        },
        Some(_) => origin.request.is_none(),
    }
}

/// Whether a segment 0 is not that of the entry's request: where it began without SEG, or keeps a first piece, and this one is another.
pub(crate) fn is_other_first(origin: &Origin, choice: u8, octets: &[u8]) -> bool
    ensures { (z : ServerState) → result ≡ is_another (entry_of origin.now z) (entry_of origin.now z).first choice octets.now }
{
    match &origin.first {
        None => origin.request.is_some(),
        Some(first) => !(choice == origin.terms.choice && octets == first.as_slice()),
    }
}
