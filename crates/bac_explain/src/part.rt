//! The role of an APDU in its transaction.
ghost use Rattle.std.specs.Prelude.{◌≡◌};
ghost use Rattle.std.specs.Option.{option_map};
ghost use Rattle.bac_apdu.specs.Views.{apdu_view, segment_view};
ghost use Rattle.bac_explain.specs.Parts.{number_of, part_of};

use bac_apdu::{Apdu, Segment};

/// What a SegmentACK states about the segments of its transaction.
#[derive(Clone, Copy, Debug, PartialEq, Eq)]
pub struct Taken {
    /// Whether it is about segments of the request: the server sent it.
    pub of_request: bool,
    /// Whether it is negative.
    pub nak: bool,
    /// The sequence number of the last segment taken in order, modulo 256.
    pub number: u8,
    /// How many segments may be sent after that one before the next SegmentACK.
    pub window: u8,
}

/// The role of an APDU in its transaction. A segment has its sequence number, modulo 256; an unsegmented APDU has none.
#[derive(Clone, Copy, Debug, PartialEq, Eq)]
pub enum Role {
    /// The request.
    Request(Option<u8>),
    /// A reply, or an Abort of the server.
    Answer(Option<u8>),
    /// A SegmentACK of either end.
    Acknowledgement(Taken),
    /// An Abort of the client.
    GivesUp,
}

/// The side that sent an APDU, the invoke ID, and the role in the transaction.
#[derive(Clone, Copy, Debug, PartialEq, Eq)]
pub struct Part {
    /// Whether the client sent it.
    pub by_client: bool,
    pub invoke_id: u8,
    pub role: Role,
}

/// The sequence number of a segment.
fn number_of(segment: Option<Segment>) -> Option<u8>
    ensures { result ≡ number_of (option_map segment_view segment) }
{
    match segment {
        Some(segment) => Some(segment.number),
        None => None,
    }
}

/// The role of an APDU in its transaction; None for an Unconfirmed-Request, which belongs to none.
pub fn part_of(apdu: &Apdu<'_>) -> Option<Part>
    ensures { result ≡ part_of (apdu_view apdu.now) }
{
    let (by_client, invoke_id, role) = match apdu {
        Apdu::UnconfirmedRequest { .. } => return None,
        Apdu::ConfirmedRequest {
            invoke_id,
            segment,
            ..
        } => (true, *invoke_id, Role::Request(number_of(*segment))),
        Apdu::SimpleAck { invoke_id, .. }
        | Apdu::Error { invoke_id, .. }
        | Apdu::Reject { invoke_id, .. } => (false, *invoke_id, Role::Answer(None)),
        Apdu::ComplexAck {
            invoke_id,
            segment,
            ..
        } => (false, *invoke_id, Role::Answer(number_of(*segment))),
        Apdu::SegmentAck {
            nak,
            server,
            invoke_id,
            number,
            window,
        } => (
            !*server,
            *invoke_id,
            Role::Acknowledgement(Taken {
                of_request: *server,
                nak: *nak,
                number: *number,
                window: window.size,
            }),
        ),
        Apdu::Abort {
            server: true,
            invoke_id,
            ..
        } => (false, *invoke_id, Role::Answer(None)),
        Apdu::Abort { invoke_id, .. } => (true, *invoke_id, Role::GivesUp),
    };
    Some(Part {
        by_client,
        invoke_id,
        role,
    })
}
