//! Keys are ordered by peer, then by invoke ID.
ghost use Rattle.std.specs.Prelude.{◌≡◌, ◌==◌, true, false};
ghost use Rattle.std.proofs.Common.{rules};
ghost use Rattle.std.specs.Ordering.{on, eq_by_cmp, as_partial_cmp};
ghost use Rattle.std.specs.Cmp.{partial_order_from_own_ties};
ghost use Rattle.std.specs.Cmp.Rules.{comparing};
ghost use Rattle.bac_transaction.specs.Keys.{peer_key_cmp, peer_key_cmp_total, same_key};
ghost use Rattle.bac_transaction.specs.Views.{peer_key_view};

use crate::peer_key::PeerKey;
use std::cmp::Ordering;

impl Ord for PeerKey {
    ghost cmp = { on peer_key_view peer_key_cmp };

    ghost total = { Prim.search (peer_key_cmp_total, comparing, rules) };

    ghost matches_partial_cmp = { Prim.search (peer_key_cmp_total, comparing, rules) };

    ghost matches_eq = { Prim.search (peer_key_cmp_total, comparing, rules) };

    #[inline(always)]
    fn cmp(&self, other: &PeerKey) -> Ordering {
        match self.peer.cmp(&other.peer) {
            Ordering::Equal => self.invoke_id.cmp(&other.invoke_id),
            order => order,
        }
    }
}

impl PartialOrd for PeerKey {
    ghost partial_cmp = { as_partial_cmp (on peer_key_view peer_key_cmp) };

    ghost laws = { partial_order_from_own_ties (Prim.search (peer_key_cmp_total, comparing, rules)) (Prim.search (peer_key_cmp_total, comparing, rules)) };

    fn partial_cmp(&self, other: &PeerKey) -> Option<Ordering> {
        Some(self.cmp(other))
    }
}

impl PartialEq for PeerKey {
    ghost eq = { on peer_key_view same_key };

    ghost laws = { Prim.search (peer_key_cmp_total, comparing, rules) };

    fn eq(&self, other: &PeerKey) -> bool {
        self.cmp(other) == Ordering::Equal
    }
}

impl Eq for PeerKey {
    ghost laws = { Prim.search (peer_key_cmp_total, comparing, rules) };
}
