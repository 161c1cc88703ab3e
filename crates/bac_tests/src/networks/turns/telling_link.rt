//! A link in memory that tells its calls.
ghost use Rattle.std.specs.Prelude.{◌≡◌, ◌∷◌, ◌++◌, [], map, Some, IfOk, IfSome, IsOk, length, ◌≤◌};
ghost use Rattle.bac_driver.specs.Calls.{received};
ghost use Rattle.bac_tests.specs.Calls.{call_view};

use crate::noted_call::NotedCall;
use bac_driver::{Link, LinkFault};
use bac_npdu::LinkAddress;
use std::alloc::Global;
use std::process::Abort;

/// What receiving gave.
type Received = Result<Option<(LinkAddress, usize)>, LinkFault>;

/// A link to which one datagram comes, and which notes each call. It stops the test where memory fails.
#[derive(Drop)]
pub(crate) struct TellingLink<'a, R> {
    runtime: &'a R,
    alloc: Global,
    from: LinkAddress,
    coming: Option<Vec<u8>>,
    noted: Vec<NotedCall>,
}

impl<'a, R> TellingLink<'a, R> {
    /// A link at which these octets come once, from that link, and which notes its calls.
    pub(crate) fn new(
        runtime: &'a R,
        alloc: Global,
        from: LinkAddress,
        octets: Vec<u8>,
    ) -> TellingLink<'a, R> {
        TellingLink {
            runtime,
            alloc,
            from,
            coming: Some(octets),
            noted: Vec::new(alloc),
        }
    }

    /// The calls so far, in their order.
    pub(crate) fn noted(&self) -> &[NotedCall] {
        &self.noted
    }
}

/// Copies the octets to the front of a buffer, as far as they fit; how many that are.
fn copy_front(octets: &[u8], buffer: &mut [u8]) -> usize
    ensures { result ≤ length buffer.new }
{
    let len = octets.len().min(buffer.len());
    buffer[..len].copy_from_slice(&octets[..len]);
    len
}

fn copied<R: Abort>(runtime: &R, alloc: Global, octets: &[u8]) -> Vec<u8>
    ensures { result.items ≡ octets.now }
{
    octets.to_vec(alloc).expect(runtime, "memory")
}

/// The call that receiving was.
fn noted_of<R: Abort>(
    runtime: &R,
    alloc: Global,
    wait: u64,
    buffer: &[u8],
    gave: Received,
) -> NotedCall
    requires { IfOk gave (λ r. IfSome r (λ d. d.1 ≤ length buffer.now)) }
    ensures { call_view result ≡ received wait buffer.now gave }
{
    match gave {
        Ok(Some(datagram)) => {
            let octets = copied(runtime, alloc, &buffer[..datagram.1]);
            NotedCall::Received(wait, datagram.0, octets)
        }
        Ok(None) => NotedCall::Nothing(wait),
        Err(_) => NotedCall::Failed,
    }
}

fn note<R: Abort>(runtime: &R, noted: &mut Vec<NotedCall>, call: NotedCall)
    ensures { map call_view noted.new.items ≡ map call_view noted.old.items ++ call_view call ∷ [] }
{
    noted.push(call).expect(runtime, "memory");
}

/// The datagram comes to the front of the buffer, if it has not come yet.
fn take(from: LinkAddress, coming: &mut Option<Vec<u8>>, buffer: &mut [u8]) -> Received
    ensures ok { IsOk result }
    ensures within { IfOk result (λ r. IfSome r (λ d. d.1 ≤ length buffer.new)) }
{
    match coming.take() {
        Some(octets) => Ok(Some((from, copy_front(&octets, buffer)))),
        None => Ok(None),
    }
}

impl<R: Abort> Link for TellingLink<'_, R> {
    ghost failures = { λ _. 0 };

    ghost calls = { λ l. Some (map call_view l.noted.items) };

    fn failures(&self) -> u64 {
        0
    }

    fn send(&mut self, to: LinkAddress, octets: &[u8]) -> Result<(), LinkFault> {
        let copy = copied(self.runtime, self.alloc, octets);
        note(self.runtime, &mut self.noted, NotedCall::Sent(to, copy));
        Ok(())
    }

    fn recv(
        &mut self,
        buffer: &mut [u8],
        wait: u64,
    ) -> Result<Option<(LinkAddress, usize)>, LinkFault> {
        let gave = take(self.from, &mut self.coming, buffer);
        let call = noted_of(self.runtime, self.alloc, wait, buffer, gave);
        note(self.runtime, &mut self.noted, call);
        gave
    }
}
