//! BACnet/IP frames: BVLL (Annex J) and NPDU (clause 6), the peers that they identify, and the order of peers.
#![tactic(auto)]

mod address;
mod bvll;
mod control;
mod datagram_reading;
mod datagram_writing;
mod fault;
mod laws;
mod npdu;
mod npdu_reading;
mod octets;
mod peer;
mod place;
mod route;

pub use address::Address;
pub use bvll::read_bvll;
pub use datagram_reading::read_datagram;
pub use datagram_writing::{write_datagram, write_frame_head};
pub use fault::{Dropped, FrameFault};
pub use laws::{
    frame_arrives, frame_is_its_head_and_the_apdu, one_bvll_spelling, one_meaning,
    one_npdu_spelling, peers_in_order, routed_frame_means_nothing,
};
pub use npdu::{Destination, Message, Npdu};
pub use npdu_reading::read_npdu;
pub use peer::{LinkAddress, Peer};
pub use route::Route;
