//! A network number and an address, as in the destination and the source of an NPDU (clause 6.2.2).
ghost use Rattle.std.specs.Prelude.{◌≡◌, IfOk, length, IsTrue};
ghost use Rattle.bac_value.specs.Steps.{Reads};
ghost use Rattle.bac_npdu.specs.Addresses.{address_view};
ghost use Rattle.bac_npdu.specs.Views.{place_view};
ghost use Rattle.bac_npdu.specs.Reading.{network_in, count_in, address_at, place_at};

use crate::address::Address;
use crate::fault::FrameFault;
use crate::octets::{cut, octet, word};
use crate::route::ALL_NETWORKS;

#[derive(Clone, Copy)]
pub(crate) struct Place {
    pub(crate) network: u16,
    pub(crate) address: Address,
}

fn is_network_in(is_source: bool, network: u16) -> bool
    ensures { result ≡ network_in is_source network }
{
    network > 0 && (network < ALL_NETWORKS || !is_source)
}

fn is_count_in(is_source: bool, network: u16, count: u8) -> bool
    ensures { result ≡ count_in is_source network count }
{
    count < 9
        && if is_source {
            count > 0
        } else {
            network < ALL_NETWORKS || count == 0
        }
}

/// Reads the length of an address, and the address.
#[tactic(auto, unfolding(crate::specs::Reading::address_at, crate::specs::Reading::cut_at))]
fn address(octets: &[u8], is_source: bool, network: u16) -> Result<(Place, &[u8]), FrameFault>
    ensures reads { Reads place_view (λ r. r.now) octets.now result (address_at is_source network) }
    ensures same { IfOk result (λ r. r.0.network ≡ network) }
    ensures within { IfOk result (λ r. IsTrue (count_in is_source network (length (address_view r.0.address)))) }
{
    let (count, rest) = octet(octets)?;
    if !is_count_in(is_source, network, count) {
        return Err(FrameFault::BadLength);
    }
    let (address, rest) = cut(rest, usize::from(count))?;
    match Address::new(address) {
        Some(address) => Ok((Place { network, address }, rest)),
        None => Err(FrameFault::BadLength),
    }
}

impl Place {
    /// Reads a source or a destination: first the network number is tested (`BadNet`), then the address length (`BadLength`).
    #[tactic(auto, unfolding(crate::specs::Reading::place_at))]
    pub(crate) fn read(octets: &[u8], is_source: bool) -> Result<(Place, &[u8]), FrameFault>
        ensures reads { Reads place_view (λ r. r.now) octets.now result (place_at is_source) }
        ensures network { IfOk result (λ r. IsTrue (network_in is_source r.0.network)) }
        ensures count { IfOk result (λ r. IsTrue (count_in is_source r.0.network (length (address_view r.0.address)))) }
    {
        let (network, rest) = word(octets)?;
        if !is_network_in(is_source, network) {
            return Err(FrameFault::BadNet);
        }
        address(rest, is_source, network)
    }
}
