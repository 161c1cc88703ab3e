//! A link that waits over faults that pass: [`Lasting`].
ghost use Rattle.std.specs.Prelude.{◌≡◌, ◌≤◌, true, None, length, IfOk, IfSome, OnErr};
ghost use Rattle.bac_driver.specs.Calls.{IsCounted, one_more};

use bac_driver::{Link, LinkFault};
use bac_npdu::LinkAddress;

/// The longest rest after a fault, in milliseconds.
const MOST_REST: u64 = 1_000;

/// How long at least passes from one time that faults are told to the next, in milliseconds.
const BETWEEN: u64 = 60_000;

/// What a link has beside it while it waits over faults.
pub trait Beside: Drop {
    /// The moment, in milliseconds from any beginning.
    fn now(&mut self) -> u64;

    /// Whether the last fault is that of the socket itself, which does not pass. Call it right behind the fault.
    fn is_broken(&self) -> bool;

    /// Rests so many milliseconds.
    fn rest(&mut self, millis: u64);

    /// Tells that so many calls to receive failed. Returns whether that was told.
    fn tell(&mut self, faults: u64) -> bool;
}

/// The calls to receive that failed, one after the other.
#[derive(Clone, Copy)]
struct Faults {
    /// How many are not told.
    untold: u64,
    /// The moment before which no more are told; None where none were.
    told_until: Option<u64>,
    /// How long the next rest is, in milliseconds.
    rest: u64,
}

impl Faults {
    const NONE: Faults = Faults {
        untold: 0,
        told_until: None,
        rest: 1,
    };

    /// One more. Each rest is twice as long as the one before, up to a second.
    fn add(&mut self) {
        self.untold = self.untold.saturating_add(1);
        self.rest = self.rest.saturating_mul(2).min(MOST_REST);
    }

    /// Whether they are told at a moment.
    fn is_told_at(&self, now: u64) -> bool {
        match self.told_until {
            Some(moment) => moment <= now,
            None => true,
        }
    }
}

/// A link over another one. Where that one cannot receive, nothing came, and it rests. A rest is as long as it has failed so far, a second at the
/// most, and no longer than the call may wait. So an answer that can be given again comes at most a second late. Only a fault of the socket itself is
/// told to the node.
#[derive(Drop)]
pub struct Lasting<L, B> {
    link: L,
    beside: B,
    faults: Faults,
    failures: u64,
}

impl<L: Link, B: Beside> Lasting<L, B> {
    /// A link over another one.
    pub(crate) fn new(link: L, beside: B) -> Lasting<L, B>
        ensures link { result.link ≡ link }
    {
        Lasting {
            link,
            beside,
            faults: Faults::NONE,
            failures: 0,
        }
    }

    fn failed(&mut self) -> LinkFault
        ensures failures { self.new.failures ≡ one_more self.old.failures }
        ensures link { self.new.link ≡ self.old.link }
    {
        self.failures = self.failures.saturating_add(1);
        LinkFault
    }

    /// Tells the faults so far, where that is due.
    fn tell(&mut self)
        ensures failures { self.new.failures ≡ self.old.failures }
        ensures link { self.new.link ≡ self.old.link }
    {
        let now = self.beside.now();
        if self.faults.is_told_at(now) && self.beside.tell(self.faults.untold) {
            self.faults.untold = 0;
            self.faults.told_until = Some(now.saturating_add(BETWEEN));
        }
    }

    /// Waits over a fault, no longer than so many milliseconds.
    fn wait_over(&mut self, wait: u64)
        ensures failures { self.new.failures ≡ self.old.failures }
        ensures link { self.new.link ≡ self.old.link }
    {
        let rest = self.faults.rest.min(wait);
        self.faults.add();
        self.tell();
        self.beside.rest(rest);
    }
}

impl<L: Link, B: Beside> Link for Lasting<L, B> {
    ghost failures = { λ l. l.failures };

    ghost calls = { λ _. None };

    fn failures(&self) -> u64 {
        self.failures
    }

    fn send(&mut self, to: LinkAddress, octets: &[u8]) -> Result<(), LinkFault> {
        match self.link.send(to, octets) {
            Ok(()) => Ok(()),
            Err(LinkFault) => Err(self.failed()),
        }
    }

    /// Waits for a datagram. None also where the link below could not receive, and may again.
    fn recv(
        &mut self,
        buffer: &mut [u8],
        wait: u64,
    ) -> Result<Option<(LinkAddress, usize)>, LinkFault>
        ensures within { IfOk result (λ r. IfSome r (λ d. d.1 ≤ length buffer.new)) }
        ensures counted { IsCounted result self.old.failures self.new.failures }
        ensures failed { OnErr result (L.failures self.new.link ≡ one_more (L.failures self.old.link)) }
        ensures passed { IfOk result (λ r. IfSome r (λ _. L.failures self.new.link ≡ L.failures self.old.link)) }
    {
        match self.link.recv(buffer, wait) {
            Ok(received) => {
                self.faults.rest = Faults::NONE.rest;
                Ok(received)
            }
            Err(LinkFault) if self.beside.is_broken() => Err(self.failed()),
            Err(LinkFault) => {
                self.wait_over(wait);
                Ok(None)
            }
        }
    }
}
