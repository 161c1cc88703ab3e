//! Whether an APDU is the end of a request or a reply.
ghost use Rattle.std.specs.Prelude.{◌≡◌, not};
ghost use Rattle.std.specs.Option.{option_map};
ghost use Rattle.bac_apdu.specs.Views.{apdu_view, segment_view};
ghost use Rattle.bac_explain.specs.Wholes.{is_end, is_end_in, is_last, is_server_abort, is_server_abort_in};

use bac_apdu::{Apdu, Segment, read};

/// Whether no more segments follow; true for an unsegmented APDU.
fn is_last(segment: Option<Segment>) -> bool
    ensures { result ≡ is_last (option_map segment_view segment) }
{
    match segment {
        Some(segment) => !segment.more,
        None => true,
    }
}

fn is_end_in(apdu: Apdu<'_>) -> bool
    ensures { result ≡ is_end_in (apdu_view apdu.entry) }
{
    match apdu {
        Apdu::ConfirmedRequest { segment, .. } | Apdu::ComplexAck { segment, .. } => is_last(
            segment,
        ),
        _ => true,
    }
}

/// Whether the octets end their request or reply: an unsegmented APDU, or a segment after which no more follow.
pub(crate) fn is_end(octets: &[u8]) -> bool
    ensures { result ≡ is_end octets.now }
{
    match read(octets) {
        Ok(apdu) => is_end_in(apdu),
        Err(_) => true,
    }
}

fn is_server_abort_in(apdu: Apdu<'_>) -> bool
    ensures { result ≡ is_server_abort_in (apdu_view apdu.entry) }
{
    matches!(apdu, Apdu::Abort { server: true, .. })
}

/// Whether the octets are an Abort of a server.
pub(crate) fn is_server_abort(octets: &[u8]) -> bool
    ensures { result ≡ is_server_abort octets.now }
{
    match read(octets) {
        Ok(apdu) => is_server_abort_in(apdu),
        Err(_) => false,
    }
}
