//! A request on its way to its peer: in one APDU or in segments (clause 5.2).
//!
//! `requester` asks [`RequestWay::of`], and `asking` makes an [`OutgoingRequest`]. All here is private to the crate.
ghost use Rattle.std.specs.Prelude.{◌≡◌, ℕ, List, length, IfOk};
ghost use Rattle.bac_apdu.specs.Views.{limits_view};
ghost use Rattle.bac_transaction.specs.Views.{settings_view};
ghost use Rattle.bac_protocol.specs.Sizes.{request_way_of};
ghost use Rattle.bac_requester.specs.Fits.{IsWayFor};
ghost use Rattle.bac_requester.specs.Requests.{request_by};
ghost use Rattle.bac_requester.specs.TransactionViews.{way_view};

use bac_apdu::Limits;
use bac_segment::{DATA, Outgoing};
use bac_transaction::{Settings, allows_segments, transfer_size};
use std::marker::Model;
use thiserror::Error;

/// The octets in front of the service data of a request that goes in one APDU (clause 20.1.2).
const WHOLE_HEAD: usize = 4;

/// The octets in front of the service data of a request's segment (clause 20.1.2).
const SEGMENT_HEAD: usize = 6;

/// The most octets of service data that a segment of a request has, in an APDU of 1,476 octets (clause 20.1.2.5).
const LONGEST_PIECE: usize = 1_470;

/// Why a request can't go.
#[derive(Clone, Copy, Debug, PartialEq, Eq, Error)]
pub(crate) enum RequestFault {
    /// It does not fit one APDU, and the peer takes no segments or fewer than are needed.
    #[error("the request needs more segments than the peer takes")]
    NeedsSegments,
    /// Its service data have more than 65,535 octets.
    #[error("the request has too many octets")]
    TooLong,
}

/// How a request goes to its peer (clause 5.2).
#[derive(Clone, Copy, PartialEq, Eq)]
pub(crate) enum RequestWay {
    /// In one APDU.
    InOne,
    /// In segments.
    InSegments {
        /// The octets of service data in each segment but the last, which has no more: 44 to 1,470.
        size: usize,
    },
}

impl RequestWay {
    /// The way of a request whose service data have so many octets (clause 5.2): in one APDU where they and 4 octets fit it, otherwise in segments.
    /// `settings` are those of the node, and `peer` is what the peer takes.
    ///
    /// `TooLong` where the data have more than 65,535 octets; otherwise `NeedsSegments` where they need segments, and the peer takes none or fewer.
    pub(crate) fn of(
        settings: &Settings,
        peer: &Limits,
        len: usize,
    ) -> Result<RequestWay, RequestFault>
        ensures is { (octets : List ℕ) → length octets ≡ len
            → request_way_of (settings_view settings.now) (limits_view peer.now) octets ≡ way_view octets result }
        ensures fits { IfOk result (λ way. IsWayFor way len) }
    {
        if len > DATA {
            return Err(RequestFault::TooLong);
        }
        let most = transfer_size(&settings.limits, peer);
        if len + WHOLE_HEAD <= most {
            return Ok(RequestWay::InOne);
        }
        // each peer takes APDUs of 50 octets at least (clause 20.1.2.5), so a segment has room
        let size = most - SEGMENT_HEAD;
        if peer.takes_segments && allows_segments(peer.max_segments, len.div_ceil(size)) {
            return Ok(RequestWay::InSegments { size });
        }
        Err(RequestFault::NeedsSegments)
    }
}

/// A request that can go to its peer: its service choice, and its service data in one APDU or in segments.
#[derive(Drop)]
pub(crate) struct OutgoingRequest {
    pub(crate) choice: u8,
    pub(crate) whole: bool,
    // one that goes in one APDU is not cut
    pub(crate) outgoing: Outgoing,
}

impl Model for OutgoingRequest {
    ghost use Rattle.bac_requester.specs.Requests as requests;

    ghost Value = { requests.OutgoingRequest };

    ghost use Rattle.bac_requester.specs.TransactionViews.{pieces_in};
    ghost use Rattle.bac_requester.specs.Fits.{IsNew};

    ghost view = { λ r. record { choice = r.choice; whole = r.whole; pieces = pieces_in r.whole r.outgoing.pieces } };

    ghost invariant = { λ r. IsNew r.whole r.outgoing };
}

impl OutgoingRequest {
    /// The request of a service choice with these service data, by a way that they can go.
    pub(crate) fn new(choice: u8, way: RequestWay, service: Vec<u8>) -> OutgoingRequest
        requires { IsWayFor way (length service.items) }
        ensures { result ≡ request_by choice service.items way }
    {
        match way {
            RequestWay::InOne => OutgoingRequest {
                choice,
                whole: true,
                outgoing: Outgoing::new(service, LONGEST_PIECE),
            },
            RequestWay::InSegments { size } => OutgoingRequest {
                choice,
                whole: false,
                outgoing: Outgoing::new(service, size),
            },
        }
    }
}
