//! Nodes on links: what `bac ask` and `bac pair` do, over any links and clocks.
mod ask_end;
mod asking;
mod bound_node;
mod command_error;
mod file_octets;
mod output_format;
mod pairing;
mod progress;
mod question;
mod success;

pub use ask_end::print_ask_end;
pub use asking::{AskCommand, TURNS, ask, ask_unprinted, is_spent};
pub use bound_node::{bound_client, bound_house, bound_server};
pub use command_error::{CommandError, clock_back, clock_unread, link_fault};
pub use output_format::{OutputFormat, Style};
pub use pairing::pair;
pub use question::read_question;
