//! What the lines of a script say.
use bac_npdu::LinkAddress;
use bac_service::OwnedRequest;
use bac_value::ObjectIdentifier;

/// What the first line of a script sets.
#[derive(Clone, Copy, Debug, PartialEq, Eq)]
pub struct Setting {
    /// How many nodes there are, 1 to 16.
    pub nodes: u8,
    /// The greatest window of each node, in segments: 1 to 64 (clause 5.3).
    pub window: u8,
    /// How many later copies of its transaction may overtake a copy before it counts as lost. With twice the window it is at most 255.
    pub overtake: u8,
}

/// A node is to ask another one.
#[derive(Debug, Drop)]
pub struct Ask {
    /// The number of the node that asks, from 0 on.
    pub client: u64,
    /// The number of the node that is asked.
    pub server: u64,
    /// What it is asked.
    pub request: OwnedRequest,
}

/// Octets come to a node from a link of no node.
#[derive(Debug, Drop)]
pub struct Noise {
    /// The number of the node.
    pub node: u64,
    /// The octets.
    pub octets: Vec<u8>,
}

/// A node is to ask a stranger.
#[derive(Debug, Drop)]
pub struct AskStranger {
    /// The number of the node that asks, from 0 on.
    pub client: u64,
    /// The stranger's link: four octets of IPv4 address and two of UDP port (clause J.1.2).
    pub link: LinkAddress,
    /// What it is asked.
    pub request: OwnedRequest,
}

/// Octets of a stranger come to a node.
#[derive(Debug, Drop)]
pub struct Stranger {
    /// The number of the node.
    pub node: u64,
    /// The stranger's link: four octets of IPv4 address and two of UDP port (clause J.1.2).
    pub link: LinkAddress,
    /// The octets.
    pub octets: Vec<u8>,
}

/// A node's clock begins.
#[derive(Clone, Copy, Debug, PartialEq, Eq)]
pub struct ClockStart {
    /// The number of the node.
    pub node: u64,
    /// What its clock shows at the run's first moment, in milliseconds.
    pub start: u32,
}

/// A node's clock is to be fast or slow.
#[derive(Clone, Copy, Debug, PartialEq, Eq)]
pub struct ClockPace {
    /// The number of the node.
    pub node: u64,
    /// How many parts it goes on while a million parts of real time pass: 999,000 to 1,001,000.
    pub rate: u32,
}

/// A node gives a property of its own store other values.
#[derive(Debug, Drop)]
pub struct SetProperty {
    /// The number of the node.
    pub node: u64,
    /// The object.
    pub object: ObjectIdentifier,
    /// The number of the property (clause 21, BACnetPropertyIdentifier).
    pub property: u32,
    /// The octets of the values; whether they are data, and of the property's kind, says the store.
    pub octets: Vec<u8>,
}

/// A node gives a file of its own store other octets.
#[derive(Debug, Drop)]
pub struct SetFile {
    /// The number of the node.
    pub node: u64,
    /// The file.
    pub object: ObjectIdentifier,
    /// What it holds then.
    pub octets: Vec<u8>,
}

/// What a line after the first one says.
#[derive(Debug, Drop)]
pub enum Statement {
    /// A node asks another one.
    Ask(Ask),
    /// The copy of that number, from 0 on, is delivered.
    Deliver(u64),
    /// The copy of that number counts as lost. That is a note alone: nothing happens in the network.
    Lose(u64),
    /// Octets come to a node.
    Noise(Noise),
    /// The node of that number looks at its timers.
    Tick(u64),
    /// Time passes, this many milliseconds.
    Advance(u64),
    /// A node changes a property of its own store.
    SetProperty(SetProperty),
    /// A node changes a file of its own store.
    SetFile(SetFile),
    /// The node of that number restarts, with the store that it has.
    Restart(u64),
    /// The node of that number begins, where nothing happened at it so far.
    Begin(u64),
    /// Another program begins at the link of the node of that number, with the store that is there. Its invoke IDs begin at 0.
    BeginAgain(u64),
    /// A node asks a stranger.
    AskStranger(AskStranger),
    /// Octets of a stranger come to a node.
    Stranger(Stranger),
    /// A node's clock begins so. It says so of the whole script, and stands before the first event.
    Clock(ClockStart),
    /// A node's clock is fast or slow from then on.
    Pace(ClockPace),
}
