//! Peers and their order.
ghost use Rattle.std.specs.Prelude.{◌≡◌, ◌==◌, ◌∷◌, true, false};
ghost use Rattle.std.proofs.Common.{rules};
ghost use Rattle.std.specs.Int.{w64, from_be_bytes};
ghost use Rattle.std.specs.Ordering.{nat_cmp, on, eq_by_cmp, as_partial_cmp};
ghost use Rattle.std.specs.Cmp.{partial_order_from_own_ties};
ghost use Rattle.std.specs.Cmp.Lexicographic.{slice_cmp};
ghost use Rattle.std.specs.Cmp.Rules.{comparing};
ghost use Rattle.bac_npdu.specs.Peers.{peer_cmp, peer_cmp_total};
ghost use Rattle.bac_npdu.specs.Views.{peer_view};

use crate::route::Route;
use std::cmp::Ordering;

/// The BACnet/IP address of a node on its link: four octets of IPv4 address, then two of UDP port, most significant first
/// (clause J.1.2).
pub type LinkAddress = [u8; 6];

/// The other end of a transaction: its BACnet/IP address, and the route from there if it is on a network behind a router.
///
/// Peers are ordered by link address, then no route before any route, then by network number, then by the octets of the address,
/// where a prefix comes first.
#[derive(Clone, Copy, Debug)]
pub struct Peer {
    /// The BACnet/IP address.
    pub link: LinkAddress,
    /// The route beyond a router; None for a peer at the link address itself.
    pub route: Option<Route>,
}

/// The octets of a link address as one number, most significant first.
#[inline(always)]
fn number_of(link: &LinkAddress) -> u64
    ensures { result ≡ from_be_bytes w64 (0 ∷ 0 ∷ link.now) }
{
    let [a, b, c, d, e, f] = *link;
    u64::from_be_bytes([0, 0, a, b, c, d, e, f])
}

/// The order of two link addresses, octet by octet: that of their numbers.
#[inline(always)]
#[tactic(auto, using(crate::proofs::LinkOrder::links_in_order))]
fn order_of(link: &LinkAddress, other: &LinkAddress) -> Ordering
    ensures { result ≡ slice_cmp nat_cmp link.now other.now }
{
    number_of(link).cmp(&number_of(other))
}

impl Ord for Peer {
    ghost cmp = { on peer_view peer_cmp };

    ghost total = { Prim.search (peer_cmp_total, comparing, rules) };

    ghost matches_partial_cmp = { Prim.search (peer_cmp_total, comparing, rules) };

    ghost matches_eq = { Prim.search (peer_cmp_total, comparing, rules) };

    #[inline(always)]
    fn cmp(&self, other: &Peer) -> Ordering {
        match order_of(&self.link, &other.link) {
            Ordering::Equal => self.route.cmp(&other.route),
            order => order,
        }
    }
}

impl PartialOrd for Peer {
    ghost partial_cmp = { as_partial_cmp (on peer_view peer_cmp) };

    ghost laws = { partial_order_from_own_ties (Prim.search (peer_cmp_total, comparing, rules)) (Prim.search (peer_cmp_total, comparing, rules)) };

    fn partial_cmp(&self, other: &Peer) -> Option<Ordering> {
        Some(self.cmp(other))
    }
}

impl PartialEq for Peer {
    ghost eq = { on peer_view (eq_by_cmp peer_cmp) };

    ghost laws = { Prim.search (peer_cmp_total, comparing, rules) };

    fn eq(&self, other: &Peer) -> bool {
        self.cmp(other) == Ordering::Equal
    }
}

impl Eq for Peer {
    ghost laws = { Prim.search (peer_cmp_total, comparing, rules) };
}
