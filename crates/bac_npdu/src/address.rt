//! Addresses of devices on their networks.
ghost use Rattle.std.specs.Prelude.{◌≡◌, ◌≤◌, ◌↔◌, IsSome, IfSome, length};

/// The address of a device on its network: 0 to 8 octets (8 is the own limit of this profile).
#[derive(Clone, Copy, Debug)]
pub struct Address {
    octets: [u8; 8],
    /// How many of them count; one octet, since each transaction of a node has an address.
    len: u8,
    ghost in_range: { len ≤ 8 },
}

impl Address {
    ghost use Rattle.bac_npdu.specs.Addresses.{address_view};

    /// The address; None if there are more than 8 octets.
    pub fn new(octets: &[u8]) -> Option<Address>
        ensures some { IsSome result ↔ (length octets.now ≤ 8) }
        ensures same { IfSome result (λ a. address_view a ≡ octets.now) }
    {
        let len = octets.len();
        if len > 8 {
            return None;
        }
        let mut room = [0; 8];
        room[..len].copy_from_slice(octets);
        Some(Address {
            octets: room,
            len: len as u8,
        })
    }

    /// The octets of the address.
    pub fn octets(&self) -> &[u8]
        ensures { result.now ≡ address_view self.now }
    {
        &self.octets[..self.len as usize]
    }
}
