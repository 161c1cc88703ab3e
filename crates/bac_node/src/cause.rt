//! Why a node drops a datagram. Programs print and count it: new cases and numbers are changes of the interface.
ghost use Rattle.std.specs.Prelude.{◌≡◌};
ghost use Rattle.bac_node.specs.Faults.{cause_number};

use bac_npdu::FrameFault;

/// Why a node drops a datagram: the first of these that holds.
#[derive(Clone, Copy, Debug, PartialEq, Eq)]
pub enum Cause {
    /// Its octets are no BVLL message (clause J.2).
    Bvll(FrameFault),
    /// The BVLL message holds no NPDU (clause 6.2).
    Npdu(FrameFault),
    /// The NPDU has a destination: it is to be routed elsewhere (clause 6.2.2).
    Routed,
    /// The NPDU is a network message (clause 6.2.4).
    NetworkMessage,
    /// The octets in the NPDU are no APDU that this stack reads (clause 20.1).
    Apdu,
    /// It comes from the address of the node itself.
    OwnLink,
}

impl Cause {
    /// The number of the cause, 1 to 6 (own numbers of this profile).
    pub fn number(&self) -> u8
        ensures { result ≡ cause_number self.now }
    {
        match self {
            Cause::Bvll(_) => 1,
            Cause::Npdu(_) => 2,
            Cause::Routed => 3,
            Cause::NetworkMessage => 4,
            Cause::Apdu => 5,
            Cause::OwnLink => 6,
        }
    }
}
