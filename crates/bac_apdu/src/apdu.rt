//! The eight kinds of APDU.

ghost use Rattle.std.specs.Prelude.{◌≡◌};

use crate::limits::{Limits, Segment, Window};

/// An APDU (clause 20.1).
///
/// `choice` is the service choice, and `service` the octets of service data, or of one segment of them:
/// they run to the end of the APDU and may be empty.
#[derive(Clone, Copy, Debug)]
pub enum Apdu<'a> {
    /// Confirmed-Request: a request that needs a response (clause 20.1.2).
    ConfirmedRequest {
        /// The sender's limits for the response.
        limits: Limits,
        invoke_id: u8,
        /// None if the request is unsegmented.
        segment: Option<Segment>,
        choice: u8,
        service: &'a [u8],
    },
    /// Unconfirmed-Request: a request without a response (clause 20.1.3).
    UnconfirmedRequest {
        choice: u8,
        service: &'a [u8],
    },
    /// SimpleACK: a positive response without service data (clause 20.1.4).
    SimpleAck {
        invoke_id: u8,
        choice: u8,
    },
    /// ComplexACK: a positive response with service data (clause 20.1.5).
    ComplexAck {
        invoke_id: u8,
        /// None if the response is unsegmented.
        segment: Option<Segment>,
        choice: u8,
        service: &'a [u8],
    },
    /// SegmentACK: acknowledges segments up to a sequence number (clause 20.1.6).
    SegmentAck {
        /// Whether this is a negative acknowledgement, for a segment out of order.
        nak: bool,
        /// Whether the sender is the server of the transaction.
        server: bool,
        invoke_id: u8,
        /// The sequence number, modulo 256, of the last segment taken in order.
        number: u8,
        /// The actual window size.
        window: Window,
    },
    /// Error: the request failed (clause 20.1.7).
    Error {
        invoke_id: u8,
        choice: u8,
        /// The error class (clause 18).
        class: u32,
        /// The error code (clause 18).
        code: u32,
    },
    /// Reject: the request is invalid and was not performed (clause 20.1.8).
    Reject {
        invoke_id: u8,
        /// Any octet; clause 18.9 lists the reasons in use.
        reason: u8,
    },
    /// Abort: the transaction is ended early (clause 20.1.9).
    Abort {
        /// Whether the sender is the server of the transaction.
        server: bool,
        invoke_id: u8,
        /// Any octet; clause 18.10 lists the reasons in use.
        reason: u8,
    },
}

impl Apdu<'_> {
    ghost use Rattle.bac_apdu.specs.Spelling.{is_confirmed_request};
    ghost use Rattle.bac_apdu.specs.Views.{apdu_view};

    /// Whether a frame with this APDU has to be marked as expecting a reply: true exactly for a Confirmed-Request.
    pub fn expects_reply(&self) -> bool
        ensures { result ≡ is_confirmed_request (apdu_view self.now) }
    {
        matches!(self, Apdu::ConfirmedRequest { .. })
    }
}
