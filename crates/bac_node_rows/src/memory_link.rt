//! Links in memory, and the clock beside them.
ghost use Rattle.std.specs.Prelude.{◌≡◌, ◌≤◌, length, IfOk, IfSome, None};
ghost use Rattle.bac_driver.specs.Calls.{one_more};

use crate::medium::{End, Medium};
use bac_driver::{Clock, Link, LinkFault};
use bac_npdu::LinkAddress;
use std::cell::RefCell;

/// A link of a medium.
#[derive(Drop)]
pub(crate) struct MemoryLink<'a> {
    medium: &'a RefCell<Medium>,
    end: End,
    failures: u64,
}

impl<'a> MemoryLink<'a> {
    /// The link of a medium at that end.
    pub(crate) fn new(medium: &'a RefCell<Medium>, end: End) -> MemoryLink<'a> {
        MemoryLink {
            medium,
            end,
            failures: 0,
        }
    }

    fn failed(&mut self) -> LinkFault
        ensures { self.new.failures ≡ one_more self.old.failures }
    {
        self.failures = self.failures.saturating_add(1);
        LinkFault
    }

    fn hand_over(&self, to: LinkAddress, octets: &[u8]) -> bool {
        match self.medium.try_borrow_mut() {
            Ok(mut medium) => medium.send(self.end, to, octets),
            Err(_) => false,
        }
    }

    fn take(&self, buffer: &mut [u8], wait: u64) -> Result<Option<(LinkAddress, usize)>, LinkFault>
        ensures { IfOk result (λ r. IfSome r (λ d. d.1 ≤ length buffer.new)) }
    {
        match self.medium.try_borrow_mut() {
            Ok(mut medium) => medium.receive(self.end, buffer, wait),
            Err(_) => Err(LinkFault),
        }
    }
}

impl Link for MemoryLink<'_> {
    ghost failures = { λ l. l.failures };

    ghost calls = { λ _. None };

    fn failures(&self) -> u64 {
        self.failures
    }

    fn send(&mut self, to: LinkAddress, octets: &[u8]) -> Result<(), LinkFault> {
        if self.hand_over(to, octets) {
            Ok(())
        } else {
            Err(self.failed())
        }
    }

    fn recv(
        &mut self,
        buffer: &mut [u8],
        wait: u64,
    ) -> Result<Option<(LinkAddress, usize)>, LinkFault> {
        match self.take(buffer, wait) {
            Ok(received) => Ok(received),
            Err(_) => Err(self.failed()),
        }
    }
}

/// The clock of a medium.
#[derive(Clone, Copy)]
pub(crate) struct MemoryClock<'a> {
    medium: &'a RefCell<Medium>,
    last: u64,
}

impl<'a> MemoryClock<'a> {
    /// A clock that has told no moment yet.
    pub(crate) fn new(medium: &'a RefCell<Medium>) -> MemoryClock<'a> {
        MemoryClock { medium, last: 0 }
    }
}

impl Clock for MemoryClock<'_> {
    ghost told = { λ c. record { last = c.last; all = None } };

    fn now(&mut self) -> u64 {
        if let Ok(mut medium) = self.medium.try_borrow_mut() {
            self.last = medium.now();
        }
        self.last
    }
}
