//! Why a call was refused, and its status for a C program.
ghost use Rattle.std.specs.Prelude.{◌≡◌};
ghost use Rattle.bac_c.specs.Statuses.{fault_number, IsStatusOf};
ghost use Rattle.bac_c.specs.declared.fault.Fault.TheVariants as fault;

use bac_value::NoMemory;
use std::alloc::AllocError;

/// Why a call was refused. Nothing has changed then.
#[derive(Clone, Copy, Debug, PartialEq, Eq)]
pub enum Fault {
    /// The moment is before the latest one that the node was told.
    ClockBack = 1,
    /// Memory was refused; the same call may work later. Tested last.
    NoMemory = 2,
    /// The handle holds nothing: it was not opened, or is closed.
    NotOpen = 3,
    /// The handle is open, and its node is not started.
    NotStarted = 4,
    /// The handle is open already.
    AlreadyOpen = 5,
    /// Its node is started already.
    AlreadyStarted = 6,
    /// A code of limits, a window or a number of slots is outside its range.
    BadSettings = 7,
    /// An object, a name, a property, values or a file that no store can have.
    BadObject = 8,
    /// Two listed objects have one type and instance.
    Duplicate = 9,
    /// A request with a number outside its range, or octets that are no data.
    BadRequest = 10,
    /// The peer is at the node's own link.
    SelfPeer = 11,
    /// More octets than the limit.
    TooLong = 12,
    /// The request needs segments, and the peer takes none, or fewer.
    NeedsSegments = 13,
    /// All 256 invoke IDs are held for the peer.
    NoInvokeId = 14,
    /// All client slots are held.
    NoSlot = 15,
    /// The node has no such object, or one that is no file where a file is meant.
    NoSuchObject = 16,
    /// The object has no such property.
    NoSuchProperty = 17,
    /// The octets are no value that the property can have.
    BadValue = 18,
}

impl Fault {
    /// Its number, 1 to 18 (own numbers of this library).
    pub fn number(self) -> u8
        ensures { result ≡ fault_number self }
    {
        self as u8
    }
}

impl From<NoMemory> for Fault {
    ghost from_gives = { λ _ e. e ≡ fault.NoMemory };

    fn from(_error: NoMemory) -> Fault {
        Fault::NoMemory
    }
}

impl From<AllocError> for Fault {
    ghost from_gives = { λ _ e. e ≡ fault.NoMemory };

    fn from(_error: AllocError) -> Fault {
        Fault::NoMemory
    }
}

/// The status of a call: 0 where it was done, otherwise the fault's number.
#[tactic(auto, using(crate::proofs::Numbers::status_is))]
pub fn status(done: Result<(), Fault>) -> u32
    ensures { IsStatusOf done result }
{
    match done {
        Ok(()) => 0,
        Err(fault) => u32::from(fault.number()),
    }
}
