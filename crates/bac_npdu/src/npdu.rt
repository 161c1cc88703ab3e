//! NPDUs and their members (clause 6.2).
ghost use Rattle.std.specs.Prelude.{◌<◌, IsTrue, length};
ghost use Rattle.bac_npdu.specs.Npdu.{destination_fits, message_fits};
ghost use Rattle.bac_npdu.specs.Addresses.{address_view};

use crate::address::Address;
use crate::route::Route;

/// The first octet of an NPDU (clause 6.2.1).
pub(crate) const VERSION: u8 = 1;
/// The hop count of an NPDU that a node originates (clause 6.2.2).
pub(crate) const FIRST_HOPS: u8 = 255;

/// The destination to which an NPDU is to be routed (clause 6.2.2). Network 65,535 is the global broadcast, and an empty address
/// is a broadcast on the network.
#[derive(Clone, Copy, Debug)]
pub struct Destination {
    /// The network number, 1 to 65,535.
    pub network: u16,
    /// The address: 0 to 8 octets, and none on network 65,535 (own limits of this profile).
    pub address: Address,
    /// The hop count: how many more routers the NPDU may pass.
    pub hops: u8,
    pub ghost fits: { IsTrue (destination_fits network (length (address_view address))) },
}

/// The type of a network layer message, and the vendor identifier of types 128 and above (clause 6.2.4).
#[derive(Clone, Copy, Debug)]
pub struct Message {
    /// The type: 0 to 127 are defined by the standard, 128 to 255 by vendors.
    pub kind: u8,
    /// The vendor identifier; None exactly for types below 128.
    pub vendor: Option<u16>,
    pub ghost fits: { IsTrue (message_fits kind vendor) },
}

/// An NPDU (clause 6.2).
#[derive(Clone, Copy, Debug)]
pub struct Npdu<'a> {
    /// The destination; None if the NPDU stays on the network.
    pub destination: Option<Destination>,
    /// The source that it was routed from; None if it comes from the network.
    pub source: Option<Route>,
    /// Whether the sender expects a reply.
    pub expecting: bool,
    /// The priority: 0 normal, 1 urgent, 2 critical equipment, 3 life safety.
    pub priority: u8,
    /// The network layer message; None if the contents are an APDU.
    pub message: Option<Message>,
    /// The octets of the APDU, or the raw contents of the network layer message.
    pub contents: &'a [u8],
    pub ghost normal_to_safety: { priority < 4 },
}
