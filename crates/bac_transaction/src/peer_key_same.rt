//! Keys are one to contracts where they are one in their order.
ghost use Rattle.bac_transaction.specs.Keys as keys;
ghost use Rattle.bac_transaction.specs.Views.{peer_key_view};

use crate::peer_key::PeerKey;
use bac_slots::Same;

impl Same for PeerKey {
    ghost Seen = { keys.PeerKey };

    ghost seen = { peer_key_view };

    fn same(&self, other: &PeerKey) -> bool {
        self == other
    }
}
