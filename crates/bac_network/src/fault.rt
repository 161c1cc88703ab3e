//! Why an event could not happen, and why a world was not made.
ghost use Rattle.std.specs.Prelude.{◌≡◌};
ghost use Rattle.bac_network.specs.Faults.{fault_number, new_fault_number};
ghost use Rattle.bac_network.specs.declared.fault.NewClocksFault.TheVariants as clocks_fault;
ghost use Rattle.bac_network.specs.declared.fault.NewWorldFault.TheVariants as new_fault;
ghost use Rattle.bac_network.specs.declared.fault.WorldFault.TheVariants as fault;

use bac_store::ChangeFault;
use bac_value::NoMemory;
use thiserror::Error;

/// Why an event did not happen: the world is as before.
#[derive(Clone, Copy, Debug, PartialEq, Eq, Error)]
pub enum WorldFault {
    /// The event names a node that there is not. It is told before all else.
    #[error("no such node")]
    NoSuchNode,
    /// The event names a copy that there is not.
    #[error("no such datagram")]
    NoSuchDatagram,
    /// A stranger's event has a link that is a node's: what comes from there is from that node, and an ask of it is `Event::Ask`.
    #[error("the link is a node's")]
    NodeLink,
    /// The moment would pass 64 bits.
    #[error("the clock is at its end")]
    ClockEnd,
    /// A node may not begin any more: something happened at it. Or another program may not begin there yet: not all is over that its client sent.
    #[error("the node may not begin now")]
    TooSoon,
    /// A change of a node's own store has that fault, which is never `NoMemory`.
    #[error("the change is refused: {0}")]
    BadChange(ChangeFault),
    /// Memory was refused.
    #[error("no memory")]
    NoMemory,
}

impl WorldFault {
    /// The number of the fault (own numbers of this profile): 1 `NoSuchNode`, 2 `NoSuchDatagram`, 3 `ClockEnd`, 4 `NoMemory`, 9
    /// `BadChange`, 10 `NodeLink`, 11 `TooSoon`.
    pub fn number(self) -> u8
        ensures { result ≡ fault_number self }
    {
        match self {
            WorldFault::NoSuchNode => 1,
            WorldFault::NoSuchDatagram => 2,
            WorldFault::NodeLink => 10,
            WorldFault::ClockEnd => 3,
            WorldFault::TooSoon => 11,
            WorldFault::BadChange(_) => 9,
            WorldFault::NoMemory => 4,
        }
    }
}

impl From<NoMemory> for WorldFault {
    ghost from_gives = { λ _ e. e ≡ fault.NoMemory };

    fn from(_error: NoMemory) -> WorldFault {
        WorldFault::NoMemory
    }
}

/// Why a world was not made: the first of these that holds.
#[derive(Clone, Copy, Debug, PartialEq, Eq, Error)]
pub enum NewWorldFault {
    /// Two nodes have one link.
    #[error("two nodes have one link")]
    SameLink,
    /// A number of slots is not 1 to 1,024.
    #[error("a number of slots is out of range")]
    BadSlots,
    /// A window is not 1 to 64.
    #[error("a window is out of range")]
    BadWindow,
    /// The overtaking limit and twice the greatest window are more than 255 together.
    #[error("the overtaking limit and the windows are too great together")]
    BadBound,
    /// Memory was refused.
    #[error("no memory")]
    NoMemory,
}

impl NewWorldFault {
    /// The number of the fault (own numbers of this profile): 4 `NoMemory`, 5 `SameLink`, 6 `BadSlots`, 7 `BadWindow`, 8 `BadBound`.
    pub fn number(self) -> u8
        ensures { result ≡ new_fault_number self }
    {
        match self {
            NewWorldFault::SameLink => 5,
            NewWorldFault::BadSlots => 6,
            NewWorldFault::BadWindow => 7,
            NewWorldFault::BadBound => 8,
            NewWorldFault::NoMemory => 4,
        }
    }
}

impl From<NoMemory> for NewWorldFault {
    ghost from_gives = { λ _ e. e ≡ new_fault.NoMemory };

    fn from(_error: NoMemory) -> NewWorldFault {
        NewWorldFault::NoMemory
    }
}

/// Why a world whose nodes have clocks of their own was not made: the first of these that holds.
#[derive(Clone, Copy, Debug, PartialEq, Eq, Error)]
pub enum NewClocksFault {
    /// The times of the protocol don't suffice for clocks of that pace and copies that live so long.
    #[error("clocks go too far apart for copies that live so long")]
    BadPace,
    /// There is not one start for each node.
    #[error("there is not one start for each clock")]
    BadStarts,
    /// A world of these nodes is refused for that.
    #[error("{0}")]
    NotMade(NewWorldFault),
}

impl From<NewWorldFault> for NewClocksFault {
    ghost from_gives = { λ why e. e ≡ clocks_fault.NotMade why };

    fn from(why: NewWorldFault) -> NewClocksFault {
        NewClocksFault::NotMade(why)
    }
}

/// Why a clock keeps its pace.
#[derive(Clone, Copy, Debug, PartialEq, Eq, Error)]
pub enum PaceFault {
    /// There is no such node.
    #[error("no such node")]
    NoSuchNode,
    /// The clock would be faster or slower than those of the world may be; where all nodes have one clock, any rate but 1,000,000.
    #[error("a clock may not be so fast or slow")]
    BadPace,
}

/// Where a run stopped: the events before that place happened, and the one there did not.
#[derive(Clone, Copy, Debug, PartialEq, Eq, Error)]
#[error("{fault} at event {place}")]
pub struct RunFault {
    /// The place of the event in the list, from 0.
    pub place: usize,
    /// Why it did not happen.
    pub fault: WorldFault,
}
