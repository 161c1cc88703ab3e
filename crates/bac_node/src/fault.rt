//! Why a call of a node fails. Programs print the numbers: new cases, texts and numbers are changes of the interface.
ghost use Rattle.std.specs.Prelude.{◌≡◌};
ghost use Rattle.bac_node.specs.Faults.{fault_number, new_fault_number};
ghost use Rattle.bac_node.specs.declared.fault.NewNodeFault.TheVariants as new_fault;
ghost use Rattle.bac_node.specs.declared.fault.NodeFault.TheVariants as fault;

use bac_value::NoMemory;
use thiserror::Error;

/// Why a node can't be made: the first of these that holds.
#[derive(Clone, Copy, Debug, PartialEq, Eq, Error)]
pub enum NewNodeFault {
    /// A number of slots is not 1 to 1,024; of a node with large tables, 1 to 65,536.
    #[error("a number of slots is out of range")]
    BadSlots,
    /// The window is not 1 to 64.
    #[error("the window is out of range")]
    BadWindow,
    /// The tables can't be allocated.
    #[error("no memory")]
    NoMemory,
}

impl NewNodeFault {
    /// The number of the fault (own numbers of this profile): 1 `BadSlots`, 2 `NoMemory`, 3 `BadWindow`.
    pub fn number(self) -> u8
        ensures { result ≡ new_fault_number self }
    {
        match self {
            NewNodeFault::BadSlots => 1,
            NewNodeFault::NoMemory => 2,
            NewNodeFault::BadWindow => 3,
        }
    }
}

impl From<NoMemory> for NewNodeFault {
    ghost from_gives = { λ _ e. e ≡ new_fault.NoMemory };

    fn from(_error: NoMemory) -> NewNodeFault {
        NewNodeFault::NoMemory
    }
}

/// Why a call did nothing: the node is as before, and so is its latest moment.
#[derive(Clone, Copy, Debug, PartialEq, Eq, Error)]
pub enum NodeFault {
    /// The moment is before the latest one of the node. It is tested first.
    #[error("the clock went back")]
    ClockBack,
    /// Memory can't be allocated.
    #[error("no memory")]
    NoMemory,
}

impl NodeFault {
    /// The number of the fault (own numbers of this profile): 1 `ClockBack`, 2 `NoMemory`.
    pub fn number(self) -> u8
        ensures { result ≡ fault_number self }
    {
        match self {
            NodeFault::ClockBack => 1,
            NodeFault::NoMemory => 2,
        }
    }
}

impl From<NoMemory> for NodeFault {
    ghost from_gives = { λ _ e. e ≡ fault.NoMemory };

    fn from(_error: NoMemory) -> NodeFault {
        NodeFault::NoMemory
    }
}
