//! What a call on an entry hands out. Crates above read its fields; a new one has to be filled at each place that makes it.
ghost use Rattle.std.specs.Prelude.{◌≡◌, [], None};

use crate::effect::Effect;
use bac_transaction::Datagram;
use std::alloc::Global;

/// What an APDU makes an entry send, and what was performed for it.
#[derive(Drop)]
pub struct Performed {
    /// One datagram for each APDU that is sent, in order of sending.
    pub sends: Vec<Datagram>,
    /// The request that was performed, if any.
    pub effect: Option<Effect>,
}

impl Performed {
    /// These are sent, and nothing is performed.
    pub(crate) fn sends(sends: Vec<Datagram>) -> Performed
        ensures sends { result.sends.items ≡ sends.items }
        ensures effect { result.effect ≡ None }
    {
        Performed {
            sends,
            effect: None,
        }
    }

    /// Nothing is sent, and nothing is performed.
    pub(crate) fn nothing(alloc: Global) -> Performed
        ensures sends { result.sends.items ≡ [] }
        ensures effect { result.effect ≡ None }
    {
        Performed::sends(Vec::new(alloc))
    }
}
