//! Keys of transactions.
ghost use Rattle.std.specs.Prelude.{◌≡◌, ◌==◌, true, false};
ghost use Rattle.std.proofs.Common.{rules};
ghost use Rattle.std.specs.Ordering.{on, eq_by_cmp, as_partial_cmp};
ghost use Rattle.std.specs.Cmp.{partial_order_from_own_ties};
ghost use Rattle.std.specs.Cmp.Rules.{comparing};
ghost use Rattle.bac_explain.specs.Keys.{key_cmp, key_cmp_total, same_key};
ghost use Rattle.bac_explain.specs.KeyViews.{key_view};

use bac_npdu::Peer;
use std::cmp::Ordering;

/// The key of a transaction: client, server, and invoke ID (clause 5.4). Keys are ordered by client, then by server, then by invoke ID.
#[derive(Clone, Copy, Debug)]
pub struct TransactionKey {
    pub client: Peer,
    pub server: Peer,
    pub invoke_id: u8,
}

impl Ord for TransactionKey {
    ghost cmp = { on key_view key_cmp };

    ghost total = { Prim.search (key_cmp_total, comparing, rules) };

    ghost matches_partial_cmp = { Prim.search (key_cmp_total, comparing, rules) };

    ghost matches_eq = { Prim.search (key_cmp_total, comparing, rules) };

    fn cmp(&self, other: &TransactionKey) -> Ordering {
        self.client
            .cmp(&other.client)
            .then(self.server.cmp(&other.server))
            .then(self.invoke_id.cmp(&other.invoke_id))
    }
}

impl PartialOrd for TransactionKey {
    ghost partial_cmp = { as_partial_cmp (on key_view key_cmp) };

    ghost laws = { partial_order_from_own_ties (Prim.search (key_cmp_total, comparing, rules)) (Prim.search (key_cmp_total, comparing, rules)) };

    fn partial_cmp(&self, other: &TransactionKey) -> Option<Ordering> {
        Some(self.cmp(other))
    }
}

impl PartialEq for TransactionKey {
    ghost eq = { on key_view same_key };

    ghost laws = { Prim.search (key_cmp_total, comparing, rules) };

    fn eq(&self, other: &TransactionKey) -> bool {
        self.cmp(other) == Ordering::Equal
    }
}

impl Eq for TransactionKey {
    ghost laws = { Prim.search (key_cmp_total, comparing, rules) };
}
