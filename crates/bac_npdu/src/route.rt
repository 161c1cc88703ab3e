//! Routes to devices behind a router, and their order.
ghost use Rattle.std.specs.Prelude.{◌≡◌, ◌↔◌, ◌==◌, IsTrue, IsSome, IfSome, true, false};
ghost use Rattle.std.proofs.Common.{rules};
ghost use Rattle.std.specs.Ordering.{on, eq_by_cmp, as_partial_cmp};
ghost use Rattle.std.specs.Cmp.{partial_order_from_own_ties};
ghost use Rattle.std.specs.Cmp.Rules.{comparing};
ghost use Rattle.bac_npdu.specs.Peers.{route_fits, route_cmp, route_cmp_total};
ghost use Rattle.bac_npdu.specs.Addresses.{address_view};

use crate::address::Address;
use std::cmp::Ordering;

/// The network number of all networks, which only a destination has, for the global broadcast (clause 6.2.2).
pub(crate) const ALL_NETWORKS: u16 = 0xFFFF;

/// A device on a network behind a router: a network number of 1 to 65,534, and an address of 1 to 8 octets (clause 6.2.2; 8 is
/// an own limit of this profile). Routes are ordered by network number, then by the octets of the address, a prefix first.
#[derive(Clone, Copy, Debug)]
pub struct Route {
    /// The network number, 1 to 65,534.
    pub network: u16,
    /// The device's address on that network, 1 to 8 octets.
    pub address: Address,
    pub ghost fits: { IsTrue (route_fits (record { network = network; address = address_view address })) },
}

impl Route {
    ghost use Rattle.bac_npdu.specs.Views.{route_view};

    /// The route; None if the network number or the address length is out of range.
    pub fn new(network: u16, address: &[u8]) -> Option<Route>
        ensures some { IsSome result ↔ IsTrue (route_fits (record { network = network; address = address.now })) }
        ensures parts { IfSome result (λ r. route_view r ≡ record { network = network; address = address.now }) }
    {
        if network == 0 || network == ALL_NETWORKS || address.is_empty() {
            return None;
        }
        let address = Address::new(address)?;
        Some(Route { network, address })
    }
}

impl Ord for Route {
    ghost use Rattle.bac_npdu.specs.Views.{route_view};

    ghost cmp = { on route_view route_cmp };

    ghost total = { Prim.search (route_cmp_total, comparing, rules) };

    ghost matches_partial_cmp = { Prim.search (route_cmp_total, comparing, rules) };

    ghost matches_eq = { Prim.search (route_cmp_total, comparing, rules) };

    fn cmp(&self, other: &Route) -> Ordering {
        self.network
            .cmp(&other.network)
            .then(self.address.octets().cmp(other.address.octets()))
    }
}

impl PartialOrd for Route {
    ghost use Rattle.bac_npdu.specs.Views.{route_view};

    ghost partial_cmp = { as_partial_cmp (on route_view route_cmp) };

    ghost laws = { partial_order_from_own_ties (Prim.search (route_cmp_total, comparing, rules)) (Prim.search (route_cmp_total, comparing, rules)) };

    fn partial_cmp(&self, other: &Route) -> Option<Ordering> {
        Some(self.cmp(other))
    }
}

impl PartialEq for Route {
    ghost use Rattle.bac_npdu.specs.Views.{route_view};

    ghost eq = { on route_view (eq_by_cmp route_cmp) };

    ghost laws = { Prim.search (route_cmp_total, comparing, rules) };

    fn eq(&self, other: &Route) -> bool {
        self.cmp(other) == Ordering::Equal
    }
}

impl Eq for Route {
    ghost laws = { Prim.search (route_cmp_total, comparing, rules) };
}
