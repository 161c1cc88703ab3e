//! Links: what carries datagrams to and from a bound node. Programs bring one or use `UdpLink`; tests bring their own.
ghost use Rattle.std.specs.Prelude.{◌≡◌, ℕ, ◌≤◌, length, IfOk, IfSome};
ghost use Rattle.std.specs.Option.{option_map};
ghost use Rattle.bac_driver.specs.Calls.{Calls, IsCounted, received, with_call};
ghost use Rattle.bac_driver.specs.Calls.Call.{Send};

use bac_npdu::LinkAddress;
use thiserror::Error;

/// A call of a link failed.
#[derive(Clone, Copy, Debug, PartialEq, Eq, Error)]
#[error("a call of the link failed")]
pub struct LinkFault;

/// Carries datagrams to and from a bound node. Addresses are those of clause J.1.2: four octets of an IPv4 address and two of a UDP port.
///
/// A link counts its failures.
pub trait Link: Drop {
    ghost failures: { Self → ℕ };

    ghost calls: { Self → Calls };

    /// How many calls failed, at most 2^64 - 1.
    fn failures(&self) -> u64
        ensures { result ≡ Self.failures self.now };

    /// Sends a datagram to an address. After a fault it is lost.
    fn send(&mut self, to: LinkAddress, octets: &[u8]) -> Result<(), LinkFault>
        ensures counted { IsCounted result (Self.failures self.old) (Self.failures self.new) }
        ensures told { Self.calls self.new ≡ with_call (Self.calls self.old) (Send to octets.now) };

    /// Waits for a datagram, at most so many milliseconds. Returns its sender, and how many octets it has: they are the first of the buffer, and of a longer
    /// datagram those that fit. None where no datagram has come.
    fn recv(
        &mut self,
        buffer: &mut [u8],
        wait: u64,
    ) -> Result<Option<(LinkAddress, usize)>, LinkFault>
        ensures within { IfOk result (λ r. IfSome r (λ d. d.1 ≤ length buffer.new)) }
        ensures counted { IsCounted result (Self.failures self.old) (Self.failures self.new) }
        ensures told { Self.calls self.new ≡ with_call (Self.calls self.old) (received wait buffer.new result) };
}
