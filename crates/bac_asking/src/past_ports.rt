//! The ports from which the nodes of a client have asked.
use std::alloc::{AllocError, Global};

/// No node remembers a request for so many milliseconds; those that it asked hold an invoke ID for so long.
const REMEMBERED: u64 = 135_000;

/// A port, and the moment at which its node was given up.
#[derive(Clone, Copy)]
struct PastPort {
    port: u16,
    left: u64,
}

/// The ports that a client has left, each for as long as a request from there may be remembered.
#[derive(Drop)]
pub(crate) struct PastPorts {
    ports: Vec<PastPort>,
}

impl PastPorts {
    /// None.
    pub(crate) fn new(alloc: Global) -> PastPorts {
        PastPorts {
            ports: Vec::new(alloc),
        }
    }

    /// Notes that a port is left at a moment, in milliseconds; those that were left long before are forgotten. Where memory is refused, nothing has changed.
    pub(crate) fn leave(&mut self, port: u16, now: u64) -> Result<(), AllocError> {
        self.ports
            .retain(|past| now.saturating_sub(past.left) <= REMEMBERED);
        self.ports.push(PastPort { port, left: now })?;
        Ok(())
    }

    /// Whether a request from that port may be remembered at a moment.
    pub(crate) fn holds(&self, port: u16, now: u64) -> bool {
        self.ports.iter().any(|past| past.port == port
            && now.saturating_sub(past.left) <= REMEMBERED)
    }
}
