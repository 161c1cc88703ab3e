//! Plans: the reply to a request, and its effect.
ghost use Rattle.std.specs.Prelude.{◌≡◌};
ghost use Rattle.bac_service.specs.Views.{reply_view};

use crate::splice::Splice;
use bac_service::{OwnedReply, Reply};
use bac_value::{DataBuf, ObjectIdentifier};
use std::marker::Model;

/// The effect on the objects. It is none, new values of one listed property, new octets of one file from a position on, or new contents that replace
/// all of a file.
#[derive(Debug, Drop)]
pub(crate) enum StoreEffect {
    Nothing,
    Values {
        object: ObjectIdentifier,
        property: u32,
        values: DataBuf,
    },
    Octets {
        object: ObjectIdentifier,
        splice: Splice,
    },
    Contents {
        object: ObjectIdentifier,
        octets: Vec<u8>,
    },
}

/// What a store will do for a request: the reply, and the effect with all its memory. Dropping a plan changes nothing.
#[derive(Drop)]
pub struct Planned {
    pub(crate) reply: OwnedReply,
    pub(crate) effect: StoreEffect,
}

impl Model for Planned {
    ghost use Rattle.bac_store.specs.Plans.{Plan};

    ghost Value = { Plan };

    ghost use Rattle.bac_service.specs.Views.{owned_reply_view};
    ghost use Rattle.bac_store.specs.Views.{effect_view};
    ghost use Rattle.bac_store.specs.Kept.{Fits};

    ghost view = { λ p. record { reply = owned_reply_view p.reply; effect = effect_view p.effect } };

    ghost invariant = { λ p. Fits (effect_view p.effect) };
}

impl Planned {
    /// Borrows the reply. It does not allocate.
    pub fn reply(&self) -> Reply<'_>
        ensures { reply_view result ≡ self.now.reply }
    {
        self.reply.as_reply()
    }
}
