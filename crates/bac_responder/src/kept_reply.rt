//! A kept reply of one APDU, which is written again at each repeat.
ghost use Rattle.std.specs.Prelude.{◌≡◌};
ghost use Rattle.bac_apdu.specs.Views.{apdu_view};
ghost use Rattle.bac_responder.specs.TransactionViews.{kept_reply_view};

use bac_apdu::Apdu;

/// A reply whose service data, if any, are octets.
#[derive(Drop)]
pub(crate) enum SpelledReply {
    Simple,
    Complex(Vec<u8>),
    Error { class: u32, code: u32 },
}

/// A kept reply of one APDU, without its invoke ID and its service choice.
#[derive(Drop)]
pub(crate) enum KeptReply {
    Reply(SpelledReply),
    Reject(u8),
    Abort(u8),
}

impl KeptReply {
    /// The APDU that is kept.
    pub(crate) fn as_apdu(&self, invoke_id: u8, choice: u8) -> Apdu<'_>
        ensures { apdu_view result ≡ kept_reply_view invoke_id choice self.now }
    {
        match self {
            KeptReply::Reply(SpelledReply::Simple) => Apdu::SimpleAck { invoke_id, choice },
            KeptReply::Reply(SpelledReply::Complex(octets)) => Apdu::ComplexAck {
                invoke_id,
                segment: None,
                choice,
                service: octets.as_slice(),
            },
            KeptReply::Reply(SpelledReply::Error { class, code }) => Apdu::Error {
                invoke_id,
                choice,
                class: *class,
                code: *code,
            },
            KeptReply::Reject(reason) => Apdu::Reject {
                invoke_id,
                reason: *reason,
            },
            KeptReply::Abort(reason) => Apdu::Abort {
                server: true,
                invoke_id,
                reason: *reason,
            },
        }
    }
}
