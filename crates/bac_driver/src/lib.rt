//! Runs a node on a link, by a clock: [`BoundNode`] receives datagrams, gives them to its node, ticks it when something is due, and sends what it returns.
//!
//! Programs use it to serve, to ask, and to do both in one process ([`pair`]). A [`Link`] carries datagrams, as [`UdpLink`] does (clause J.1), and a [`Clock`]
//! gives the moments; tests bring their own. A program that has its own event loop can do without this crate and call bac_node itself.
#![tactic(auto)]

mod asking;
mod bound_node;
mod changing;
mod clock;
mod endings;
mod fault;
mod holding;
mod link;
mod observer;
mod pairing;
mod question;
mod round;
mod rounds;
mod sending;
mod serving;
mod step;
mod turn;
mod udp;
mod wait_limit;

pub use bound_node::BoundNode;
pub use clock::{Clock, MonotonicClock};
pub use fault::{RoundFault, TurnFault};
pub use link::{Link, LinkFault};
pub use observer::{NoObserver, Observer};
pub use pairing::pair;
pub use question::{AskEnd, Question};
pub use round::Round;
pub use turn::{Turn, sends_of};
pub use udp::UdpLink;
pub use wait_limit::{RunLimit, WaitLimit};

// for programs that run nodes
pub use bac_keep::KeepFault;
pub use bac_node::{Config, MEMORY, NewNodeFault, Node, NodeFault, Outcome};
