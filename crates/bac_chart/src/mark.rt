//! What there is to draw.

/// A datagram from one node to another. Nodes are numbered from 0.
#[derive(Debug, Drop)]
pub struct Arrow {
    /// Its number.
    pub number: u64,
    /// The moment of its sending, in milliseconds.
    pub sent: u64,
    /// The node that sent it.
    pub from: u64,
    /// The node that it is for.
    pub to: u64,
    /// What it is, in short.
    pub words: Vec<u8>,
}

/// What there is to draw, in the order in which it happened.
#[derive(Debug, Drop)]
pub enum Mark {
    /// A datagram was sent.
    Sent(Arrow),
    /// A datagram comes to its node.
    Came {
        /// The moment, in milliseconds.
        moment: u64,
        /// The datagram.
        arrow: Arrow,
    },
    /// Something happens at a node.
    Note {
        /// The moment, in milliseconds.
        moment: u64,
        /// The node.
        node: u64,
        /// What happens.
        words: Vec<u8>,
    },
}
