//! What a link is to hear and to send: [`Guard`]. Programs make one of their settings.
ghost use Rattle.std.specs.Prelude.{◌≡◌, None, false, IfOk};
ghost use Rattle.std.specs.Option.{option_map};
ghost use Rattle.bac_guard.specs.Budgets.{new_table};
ghost use Rattle.bac_guard.specs.Guards.{IsGuardedBy, guard_view, link_below, new_guard};
ghost use Rattle.bac_guard.specs.Sources.{ANY};
ghost use Rattle.bac_guard.specs.Views.{blocks_of};

use crate::budget::Budget;
use crate::guarded::Guarded;
use crate::sources::Sources;
use bac_driver::{Clock, Link};
use std::alloc::{AllocError, Global};

/// Which sources a link hears, and how much it sends to one address.
#[derive(Clone, Copy)]
pub struct Guard {
    /// The sources that are heard.
    pub sources: Sources,
    /// How many octets a second fill the budget of each address; None where what is sent is not bounded.
    pub rate: Option<u64>,
    /// Whether what goes to the loopback is never bounded.
    pub spares_loopback: bool,
}

/// A budget that fills at a rate, if there is one.
fn budget_of(
    alloc: Global,
    key: u64,
    rate: Option<u64>,
    began: u64,
) -> Result<Option<Budget>, AllocError>
    ensures { IfOk result (λ b. b ≡ option_map (λ r. new_table key r began) rate) }
{
    match rate {
        Some(rate) => match Budget::new(alloc, key, rate, began) {
            Ok(budget) => Ok(Some(budget)),
            Err(error) => Err(error),
        },
        None => Ok(None),
    }
}

impl Guard {
    /// All addresses are heard, and what is sent is not bounded.
    pub fn open() -> Guard
        ensures sources { blocks_of result.sources ≡ ANY }
        ensures rate { result.rate ≡ None }
        ensures loopback { result.spares_loopback ≡ false }
    {
        Guard {
            sources: Sources::any(),
            rate: None,
            spares_loopback: false,
        }
    }

    /// A link over another one, guarded so from a moment on, by a clock. The key decides which addresses share a bucket, and is to be one that others do not
    /// know. Returns an `Err` if the allocation fails.
    pub fn over<L: Link, C: Clock + Drop>(
        &self,
        alloc: Global,
        key: u64,
        began: u64,
        link: L,
        clock: C,
    ) -> Result<Guarded<L, C>, AllocError>
        ensures link { IfOk result (λ g. link_below g ≡ link) }
        ensures told { IfOk result (IsGuardedBy began self.now) }
        ensures guarded { IfOk result (λ g. guard_view L.failures L.calls C.told g ≡ new_guard (L.failures link) (L.calls link) (C.told clock)
            (blocks_of self.now.sources) (option_map (λ r. new_table key r began) self.now.rate) self.now.spares_loopback) }
    {
        match budget_of(alloc, key, self.rate, began) {
            Ok(budget) => Ok(Guarded::new(link, clock, self.sources, budget, self.spares_loopback)),
            Err(error) => Err(error),
        }
    }
}
