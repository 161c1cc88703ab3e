//! What a program of your own stands on, in one library: nodes, their links and turns, their store, worlds, and the codecs.
//!
//! It has no code of its own: each name is that of the crate which defines it, with the same contract. A program that cites definitions in its own contracts
//! names their crates too. A program makes a [`Node`] with a [`Store`], binds it to a [`Link`] as a [`BoundNode`], and takes turns by a [`Clock`].
#![tactic(auto)]

pub mod codecs;
pub mod worlds;

pub use bac_apdu::Limits;
pub use bac_driver::{
    AskEnd, BoundNode, Clock, Link, LinkFault, MonotonicClock, NoObserver, Observer, Question,
    RunLimit, Turn, TurnFault, UdpLink, WaitLimit, pair, sends_of,
};
pub use bac_node::{Cause, Config, MEMORY, NewNodeFault, Node, NodeFault, Outcome};
pub use bac_npdu::{Address, LinkAddress, Peer, Route};
pub use bac_requester::{AskFault, Asked, Ended, Ending};
pub use bac_responder::{Act, Effect};
pub use bac_service::{
    FileRead, FileWritten, OwnedComplex, OwnedReply, OwnedRequest, Priority, PropertyRead,
    PropertyReference, ReadAccess, ReadFile, Reject, WriteAccess, WriteFile, WriteProperty,
    WriteRecords, WriteStream,
};
pub use bac_store::{
    Change, ChangeFault, FILE_LIMIT, File, Object, Property, Store, StoreFault, VALUE_LIMIT, house,
};
pub use bac_transaction::{ReadRule, Rules};
pub use bac_value::{
    BitString, CharacterString, Data, DataBuf, NoMemory, ObjectIdentifier, OctetString, Value,
};
