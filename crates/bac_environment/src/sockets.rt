//! Links and clocks.
ghost use Rattle.std.specs.Prelude.{ℕ, IfOk, IfSome};
ghost use Rattle.bac_driver.specs.Nodes.{Octets};

use bac_driver::{Clock, Link};
use bac_guard::Guard;
use bac_npdu::LinkAddress;
use std::io;

/// The links and clocks of a machine. Programs bring those of the system; tests bring their own.
pub trait Sockets {
    type Link: Link + Drop;

    type Timer: Clock + Drop;

    ghost is_bound: { (host : Octets) → (port : ℕ) → Self.Link → (address : Octets) → Type 0 };

    ghost is_made: { Self.Timer → Type 0 };

    /// A link at a port of an IPv4 address of this machine, and its own address. 0.0.0.0 is every address of the machine, and port 0 any free port. What the
    /// guard drops is lost.
    ///
    /// Returns an Err if the system refuses the link.
    fn bind(&self, host: [u8; 4], port: u16, guard: &Guard) -> io::Result<(Self::Link, LinkAddress)>
        ensures { IfOk result (λ b. Self.is_bound host port b.0 b.1) };

    /// A clock. None if it cannot be read.
    fn timer(&self) -> Option<Self::Timer>
        ensures { IfSome result Self.is_made };

    /// The time of day, in milliseconds since 1970 began in UTC. None if it cannot be read.
    fn time_of_day(&self) -> Option<u64>;
}
