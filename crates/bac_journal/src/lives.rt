//! What nodes did so far.
ghost use Rattle.std.specs.Prelude.{◌≡◌, ◌<◌, ◌≤◌, ◌+◌, ◌*◌, ℕ, IfOk, map};
ghost use Rattle.bac_protocol.specs.Pace.{most};
ghost use Rattle.bac_journal.specs.Clocks.{MayGo, pace_of, view_of_own};
ghost use Rattle.bac_journal.specs.Lives.{fresh_life};

use crate::clocks::{OwnClocks, most};
use bac_npdu::LinkAddress;
use bac_value::NoMemory;
use std::alloc::Global;

/// What a node did so far: whether anything happened at it, and from which moment on its client sends nothing for the asks that it made of nodes; 0 where it
/// made none.
#[derive(Clone, Copy, PartialEq, Eq)]
pub(crate) struct Life {
    pub active: bool,
    pub sends_until: u128,
}

/// Nodes at these links at which nothing happened.
pub(crate) fn fresh_lives(alloc: Global, links: &[LinkAddress]) -> Result<Vec<Life>, NoMemory>
    ensures { IfOk result (λ lives. lives.items ≡ map fresh_life links.now) }
{
    let mut lives = Vec::with_capacity(alloc, links.len())?;
    for _link in links {
        lives.push(Life {
            active: false,
            sends_until: 0,
        })?;
    }
    Ok(lives)
}

/// The most real time that passes while no clock goes on by more than that many milliseconds, in parts of a millisecond.
#[tactic(auto, using(crate::proofs::Passing::one_most))]
pub(crate) fn most_time(own: &Option<OwnClocks>, ms: u64) -> u64
    requires going { (moment : ℕ) × (nodes : ℕ) × MayGo moment nodes (view_of_own own.now) }
    requires short { ms ≤ 75000 }
    ensures is { result ≡ most (pace_of (view_of_own own.now)) ms }
    ensures few { result ≤ 1000000 * (1000000 * ms + 999999) }
{
    match own {
        Some(own) => most(own.pace.drift, ms),
        None => ms,
    }
}
