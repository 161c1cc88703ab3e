//! Both sides of a segmented transfer (clauses 5.2 and 5.4): one end cuts octets into pieces, the other end takes them in order.
//!
//! Pieces are numbered with whole numbers from 0 on. On the wire a sequence number is the remainder modulo 256; only the calls that
//! take or return sequence numbers use it. Window sizes are those of bac_apdu: 1 to 127 segments.
#![tactic(auto)]

pub mod chunks;
pub mod examples;
mod incoming;
mod laws;
mod limits;
mod outgoing;

pub use incoming::{Incoming, SegmentFault, Step};
pub use laws::{
    numbers_in_reach_differ, parts_are_the_first_pieces, pieces_are_few, pieces_are_unique,
    segment_ack_is_of_the_window, segment_is_the_expected_one, taking_back_undoes,
};
pub use limits::{DATA, N_RETRY};
pub use outgoing::{Outgoing, Position, Progress, Timeout};
