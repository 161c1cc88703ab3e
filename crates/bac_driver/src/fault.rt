//! Why a turn was not taken. Programs match on it and print its number: new cases, texts and numbers are changes of the interface.
ghost use Rattle.std.specs.Prelude.{◌≡◌};
ghost use Rattle.bac_driver.specs.Faults.{fault_number, round_fault};
ghost use Rattle.bac_driver.specs.declared.fault.TurnFault.TheVariants as fault;
ghost use Rattle.bac_driver.specs.declared.fault.RoundFault.TheVariants as round;

use crate::LinkFault;
use bac_keep::KeepFault;
use thiserror::Error;

/// Why a turn was not taken. The node is as it was after the turn before.
#[derive(Clone, Copy, Debug, PartialEq, Eq, Error)]
pub enum TurnFault {
    /// The link could not receive.
    #[error("the link could not receive")]
    Link,
    /// The moment is before the latest one of the node. It is tested first; nothing is received.
    #[error("the clock went back")]
    ClockBack,
}

impl TurnFault {
    /// The number of the fault (own numbers of this profile): 1 `Link`, 2 `ClockBack`.
    pub fn number(self) -> u8
        ensures { result ≡ fault_number self }
    {
        match self {
            TurnFault::Link => 1,
            TurnFault::ClockBack => 2,
        }
    }
}

impl From<LinkFault> for TurnFault {
    ghost from_gives = { λ _ e. e ≡ fault.Link };

    fn from(_error: LinkFault) -> TurnFault {
        TurnFault::Link
    }
}

/// Why a round stopped. Nothing of it was sent.
#[derive(Clone, Copy, Debug, PartialEq, Eq, Error)]
pub enum RoundFault {
    /// The link could not receive, in the first turn or a later one.
    #[error("the link could not receive")]
    Link,
    /// The moment at which the round began is before the latest one of the node; nothing is received.
    #[error("the clock went back")]
    ClockBack,
    /// What the node changed in its store could not be noted or kept.
    #[error("what was written could not be kept: {0}")]
    Keep(KeepFault),
}

impl From<TurnFault> for RoundFault {
    ghost from_gives = { λ f g. g ≡ round_fault f };

    fn from(fault: TurnFault) -> RoundFault {
        match fault {
            TurnFault::Link => RoundFault::Link,
            TurnFault::ClockBack => RoundFault::ClockBack,
        }
    }
}

impl From<KeepFault> for RoundFault {
    ghost from_gives = { λ f g. g ≡ round.Keep f };

    fn from(fault: KeepFault) -> RoundFault {
        RoundFault::Keep(fault)
    }
}
