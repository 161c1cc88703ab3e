//! What is wrong with a datagram, considering the transaction's earlier ones.
ghost use Rattle.std.specs.Prelude.{Some};
ghost use Rattle.bac_explain.specs.Texts.{finding_text};

use std::fmt;

/// What is wrong with a datagram, considering the earlier ones.
#[derive(Clone, Copy, Debug, PartialEq, Eq)]
pub enum Finding {
    /// It is a reply to no request of the last 65,000 ms.
    AnswerToNoRequest,
    /// It is a reply of a service other than the requested one, and is ignored as a reply.
    OtherService,
    /// There was a different reply to its request before.
    AnotherAnswer,
    /// Its request appends to a file, there was a reply with another position before, and no other request had its invoke ID in the
    /// 65,000 ms before: as far as the capture shows, it was performed twice.
    PerformedTwice,
    /// It is a request with an invoke ID that another request had at most 65,000 ms before.
    InvokeIdReused,
    /// The same, and a server of this profile takes it for that one and sends its reply: both are unsegmented, with the same service and
    /// data, and differ in the client's limits; or both are segmented, and there was a reply to the earlier one.
    InvokeIdConfused,
    /// It is an unsegmented request that is sent for the fifth time, or later: once, and three retries, is the default (clause 12.11.28).
    SentTooOften,
    /// It is a segment after one or more that the capture does not have.
    SegmentMissing,
    /// It is a segment outside the window: after that of the last SegmentACK, or after segment 0 if there was none (clause 5.3).
    BeyondWindow,
    /// It is the first segment of a window, sent for the fifth time or later since the SegmentACK; or that of a request before any.
    SegmentSentTooOften,
    /// It is a repeated reply, more than 5,000 ms after it was first seen and 10,000 ms after the request was last seen. A server repeats
    /// a reply only when a copy of the request arrives, so one of the two took more than 5,000 ms in the network.
    OldCopy,
    /// It is a negative SegmentACK.
    NegativeAck,
}

impl fmt::Display for Finding {
    ghost output = { λ x. Some (finding_text x) };

    fn fmt<W: fmt::Write>(&self, f: &mut fmt::Formatter<W>) -> fmt::Result {
        match self {
            Finding::AnswerToNoRequest => write!(f, "an answer to no request"),
            Finding::OtherService => write!(f, "an answer of another service"),
            Finding::AnotherAnswer => write!(f, "another answer than before"),
            Finding::PerformedTwice => write!(f, "an append performed twice"),
            Finding::InvokeIdReused => write!(
                f,
                "another request with the invoke ID of an earlier one"
            ),
            Finding::InvokeIdConfused => write!(
                f,
                "another request with the invoke ID of an earlier one, whose answer this stack's server would send"
            ),
            Finding::SentTooOften => write!(f, "a request sent more than four times"),
            Finding::SegmentMissing => write!(f, "a segment before it is missing"),
            Finding::BeyondWindow => write!(f, "a segment beyond the window"),
            Finding::SegmentSentTooOften => write!(f, "a segment sent more than four times"),
            Finding::OldCopy => write!(f, "a copy older than 5 s"),
            Finding::NegativeAck => write!(f, "a negative SegmentACK"),
        }
    }
}
