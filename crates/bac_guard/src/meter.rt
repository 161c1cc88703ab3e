//! Counts what comes and goes, where what is sent is bounded: [`Meter`]. `guarded` asks it; all here is private to the crate.
ghost use Rattle.std.specs.Prelude.{◌≡◌, ◌&&◌};
ghost use Rattle.bac_guard.specs.Addresses.{host_of};
ghost use Rattle.bac_guard.specs.Sources.{is_loopback};
ghost use Rattle.bac_guard.specs.Meters.{IsCredited, IsSpent, meter_view};

use crate::address::{host_in, is_loopback};
use crate::budget::Budget;
use bac_driver::Clock;
use bac_npdu::LinkAddress;

/// A clock, and how much each address is sent, if that is bounded.
#[derive(Drop)]
pub(crate) struct Meter<C> {
    pub(crate) clock: C,
    pub(crate) budget: Option<Budget>,
    /// Whether what goes to the loopback is not bounded.
    pub(crate) spares_loopback: bool,
}

impl<C: Clock> Meter<C> {
    /// Whether nothing counts of what comes from a link and goes there.
    fn spares(&self, link: LinkAddress) -> bool
        ensures { result ≡ (self.now.spares_loopback && is_loopback (host_of link)) }
    {
        self.spares_loopback && is_loopback(link)
    }

    /// Counts octets that came from a link, at the moment of the clock: more may then be sent there. It does nothing where what is sent is not
    /// bounded.
    pub(crate) fn credit(&mut self, from: LinkAddress, octets: usize)
        ensures { IsCredited from octets (meter_view C.told self.old) (meter_view C.told self.new) }
    {
        if self.spares(from) {
            return;
        }
        if let Some(budget) = &mut self.budget {
            let now = self.clock.now();
            budget.credit(now, host_in(from), octets);
        }
    }

    /// Whether so many octets that are to go to a link fit. Then they count as sent.
    pub(crate) fn spend(&mut self, to: LinkAddress, octets: usize) -> bool
        ensures { IsSpent to octets result (meter_view C.told self.old) (meter_view C.told self.new) }
    {
        if self.spares(to) {
            return true;
        }
        match &mut self.budget {
            Some(budget) => {
                let now = self.clock.now();
                budget.spend(now, host_in(to), octets)
            }
            None => true,
        }
    }
}
