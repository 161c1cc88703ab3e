//! A link to which a burst of requests comes, and a clock that stands still.
ghost use Rattle.std.specs.Prelude.{◌≤◌, length, None, IfOk, IfSome};

use super::{Step, Steps, add};
use bac_driver::{Clock, Link, LinkFault};
use bac_npdu::LinkAddress;

/// The place of the invoke ID in a datagram whose APDU is not segmented.
const INVOKE_ID: usize = 8;

/// A link to which a request comes some times, each under an invoke ID of its own. It tells its sends.
#[derive(Drop)]
pub(super) struct BurstLink<'a> {
    steps: &'a Steps,
    request: &'static [u8],
    left: u8,
}

impl<'a> BurstLink<'a> {
    /// A link at which a request comes so many times, each under an invoke ID of its own.
    pub(super) fn new(steps: &'a Steps, request: &'static [u8], requests: u8) -> BurstLink<'a> {
        BurstLink {
            steps,
            request,
            left: requests,
        }
    }

    /// Copies the request to the front of a buffer, as far as it fits, under an invoke ID. Returns how many octets that are.
    fn fill(&self, buffer: &mut [u8], invoke_id: u8) -> usize
        ensures { result ≤ length buffer.new }
    {
        let len = self.request.len().min(buffer.len());
        buffer[..len].copy_from_slice(&self.request[..len]);
        if let Some(octet) = buffer.get_mut(INVOKE_ID) {
            *octet = invoke_id;
        }
        len
    }
}

impl Link for BurstLink<'_> {
    ghost failures = { λ _. 0 };

    ghost calls = { λ _. None };

    fn failures(&self) -> u64 {
        0
    }

    fn send(&mut self, _to: LinkAddress, _octets: &[u8]) -> Result<(), LinkFault> {
        add(self.steps, Step::Sent);
        Ok(())
    }

    fn recv(
        &mut self,
        buffer: &mut [u8],
        _wait: u64,
    ) -> Result<Option<(LinkAddress, usize)>, LinkFault> {
        if self.left == 0 {
            return Ok(None);
        }
        self.left -= 1;
        let len = self.fill(buffer, self.left);
        Ok(Some(([10, 0, 0, 2, 0xBA, 0xC0], len)))
    }
}

/// A clock that stands still.
#[derive(Clone, Copy)]
pub(super) struct StillClock;

impl Clock for StillClock {
    ghost told = { λ _. record { last = 0; all = None } };

    fn now(&mut self) -> u64 {
        0
    }
}
