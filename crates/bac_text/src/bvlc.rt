//! The functions of a BVLL (Annex J).
ghost use Rattle.std.specs.Prelude.{◌≡◌};
ghost use Rattle.bac_text.specs.Bvlc.{function_of, function_number, function_name, is_framed, other_function_of, other_bvll_of};

use byteorder::{BigEndian, ByteOrder};

/// The functions of a BVLL over IPv4 (clause J.2), by number.
#[derive(Clone, Copy, Debug, PartialEq, Eq)]
pub enum BvlcFunction {
    Result = 0x00,
    WriteBroadcastDistributionTable = 0x01,
    ReadBroadcastDistributionTable = 0x02,
    ReadBroadcastDistributionTableAck = 0x03,
    ForwardedNpdu = 0x04,
    RegisterForeignDevice = 0x05,
    ReadForeignDeviceTable = 0x06,
    ReadForeignDeviceTableAck = 0x07,
    DeleteForeignDeviceTableEntry = 0x08,
    DistributeBroadcastToNetwork = 0x09,
    OriginalUnicastNpdu = 0x0A,
    OriginalBroadcastNpdu = 0x0B,
    SecureBvll = 0x0C,
}

impl BvlcFunction {
    /// The function with this number; None for numbers above 0x0C.
    pub fn of(number: u8) -> Option<BvlcFunction>
        ensures { result ≡ function_of number }
    {
        match number {
            0x00 => Some(BvlcFunction::Result),
            0x01 => Some(BvlcFunction::WriteBroadcastDistributionTable),
            0x02 => Some(BvlcFunction::ReadBroadcastDistributionTable),
            0x03 => Some(BvlcFunction::ReadBroadcastDistributionTableAck),
            0x04 => Some(BvlcFunction::ForwardedNpdu),
            0x05 => Some(BvlcFunction::RegisterForeignDevice),
            0x06 => Some(BvlcFunction::ReadForeignDeviceTable),
            0x07 => Some(BvlcFunction::ReadForeignDeviceTableAck),
            0x08 => Some(BvlcFunction::DeleteForeignDeviceTableEntry),
            0x09 => Some(BvlcFunction::DistributeBroadcastToNetwork),
            0x0A => Some(BvlcFunction::OriginalUnicastNpdu),
            0x0B => Some(BvlcFunction::OriginalBroadcastNpdu),
            0x0C => Some(BvlcFunction::SecureBvll),
            _ => None,
        }
    }

    /// The number of the function.
    pub fn number(self) -> u8
        ensures { result ≡ function_number self }
    {
        self as u8
    }

    /// The name of the function in the standard.
    pub fn name(self) -> &'static str
        ensures { result.now ≡ function_name self }
    {
        match self {
            BvlcFunction::Result => "BVLC-Result",
            BvlcFunction::WriteBroadcastDistributionTable => "Write-Broadcast-Distribution-Table",
            BvlcFunction::ReadBroadcastDistributionTable => "Read-Broadcast-Distribution-Table",
            BvlcFunction::ReadBroadcastDistributionTableAck => {
                "Read-Broadcast-Distribution-Table-Ack"
            }
            BvlcFunction::ForwardedNpdu => "Forwarded-NPDU",
            BvlcFunction::RegisterForeignDevice => "Register-Foreign-Device",
            BvlcFunction::ReadForeignDeviceTable => "Read-Foreign-Device-Table",
            BvlcFunction::ReadForeignDeviceTableAck => "Read-Foreign-Device-Table-Ack",
            BvlcFunction::DeleteForeignDeviceTableEntry => "Delete-Foreign-Device-Table-Entry",
            BvlcFunction::DistributeBroadcastToNetwork => "Distribute-Broadcast-To-Network",
            BvlcFunction::OriginalUnicastNpdu => "Original-Unicast-NPDU",
            BvlcFunction::OriginalBroadcastNpdu => "Original-Broadcast-NPDU",
            BvlcFunction::SecureBvll => "Secure-BVLL",
        }
    }
}

/// Whether the length in a BVLL is that of its datagram.
fn is_framed(datagram: &[u8]) -> bool
    ensures { result ≡ is_framed datagram.now }
{
    // octets 2 and 3 are the length (clause J.2)
    datagram.len() >= 4 && usize::from(BigEndian::read_u16(&datagram[2..])) == datagram.len()
}

/// A BVLL other than an Original-Unicast-NPDU over IPv4.
#[derive(Clone, Copy, Debug, PartialEq, Eq)]
pub enum OtherBvll {
    /// A BVLL over IPv4 (0x81, Annex J) with this function.
    Ipv4(BvlcFunction),
    /// A BVLL over IPv6 (0x82, Annex U) with any function.
    Ipv6,
}

/// The function with this number, unless it is Original-Unicast-NPDU.
fn other_function(number: u8) -> Option<OtherBvll>
    ensures { result ≡ other_function_of number }
{
    if number == 0x0A {
        return None;
    }
    match BvlcFunction::of(number) {
        Some(function) => Some(OtherBvll::Ipv4(function)),
        None => None,
    }
}

impl OtherBvll {
    /// The other BVLL that a datagram is, if its length is correct; over IPv4 only if Annex J defines its function.
    pub fn of(datagram: &[u8]) -> Option<OtherBvll>
        ensures { result ≡ other_bvll_of datagram.now }
    {
        if !is_framed(datagram) {
            return None;
        }
        match datagram[0] {
            0x81 => other_function(datagram[1]),
            0x82 => Some(OtherBvll::Ipv6),
            _ => None,
        }
    }
}
