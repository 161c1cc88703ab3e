//! Datagrams as other programs write them: the forms in which Wireshark copies and exports octets, each read to the octets that it spells.
#![tactic(auto)]

mod array;
mod blanks;
mod decode;
mod digits;
mod dump;
mod escaped;
mod fault;
mod form;
mod frame;
mod gathered;
mod guessing;
mod lines;
mod place;
mod reading;
mod scan;
mod scanning;
mod stream;

pub use decode::{FRAME_ADVICE, Printing, decode_form_over};
pub use fault::FormFault;
pub use form::{FORM_NAMES, Form};
pub use frame::is_frame;
pub use guessing::{evident, guess};
pub use place::Position;
pub use reading::read_datagrams;
