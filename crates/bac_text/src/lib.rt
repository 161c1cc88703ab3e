//! What `bac decode` and `bac check` print: the layers of a datagram, by numbers or in words, and which lines of a capture are good.
#![tactic(auto)]

mod apdu_line;
mod bvlc;
mod capture;
mod carried;
mod check;
mod decode;
mod decode_lines;
mod digits;
mod error;
mod fault;
mod fault_words;
mod frame_lines;
mod groups;
mod judging;
mod laws;
mod layers;
mod lines;
mod name_lines;
mod notes;
mod peers;
mod service_names;
mod status;
mod tally;

pub use bvlc::{BvlcFunction, OtherBvll};
pub use capture::{CaptureLine, read_capture_line};
pub use check::{check_lines_over, check_over};
pub use decode::{decode_over, decode_text_over, print_apdu_octets, show_datagram, shown_status};
pub use decode_lines::decode_lines_over;
pub use error::{CheckError, stopped};
pub use fault::{LayerFault, LineFault, LineVerdict};
pub use fault_words::{apdu_reason, fault_in_words, frame_reason, function_in, kind_reason};
pub use groups::octets_in;
pub use judging::judge_line;
pub use laws::fine_or_at_fault;
pub use layers::check_datagram;
pub use lines::{LINE_LIMIT, is_interrupted, next_line};
pub use notes::read_of;
pub use peers::{link_text, peer_text};
pub use service_names::{confirmed_service_name, network_message_name, unconfirmed_service_name};
pub use status::{Status, complain, no_memory, output_failed};
pub use tally::LineTally;
