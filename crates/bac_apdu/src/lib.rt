//! Encoding of APDUs (clause 20.1): the eight types, their reader and their writer.
#![tactic(auto)]

mod apdu;
mod bits;
mod error_reading;
mod fault;
mod laws;
mod lengths;
mod limits;
mod limits_reading;
mod octets;
mod reading;
mod writing;

pub use apdu::Apdu;
pub use fault::ApduFault;
pub use laws::{error_members_are_values, one_apdu_spelling};
pub use lengths::apdu_len;
pub use limits::{Limits, Segment, Window};
pub use reading::read;
pub use writing::write;
