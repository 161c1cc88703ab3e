//! What a command is given: the words of its command line, addresses, requests of lists, files, and the links and clocks of a machine. Beside them is why
//! one of these is bad.
#![tactic(auto)]

mod address;
mod asker;
mod bad_words;
mod client_sockets;
mod digits;
mod environment;
mod given;
mod input;
mod line_name;
mod line_words;
mod near_names;
mod numbers;
mod open_files;
mod parts;
mod question_lines;
mod reasons;
mod regular_files;
mod sockets;
mod source;
mod standard_error;
mod station;
mod times;
mod value_forms;

pub use address::{
    BACNET_PORT, EVERY_HOST, LOCAL_HOST, OutOfRange, host_towards, is_of_node, link_at,
    network_out_of_range, port_out_of_range, read_end, read_host, read_link, read_route,
};
pub use asker::{Asker, NO_LINE};
pub use bad_words::{bad_word_text, print_bad_words};
pub use client_sockets::{ClientSockets, NoPair};
pub use digits::{Digits, no_digit, print_bad_digit};
pub use environment::Environment;
pub use given::{flag_of, number_of};
pub use input::StandardInput;
pub use numbers::{parts_at, read_number};
pub use open_files::{OpenFiles, octets_of, opened};
pub use question_lines::{LineQuestion, have_names, questions_in};
pub use reasons::{print_bad_name, print_no_link};
pub use regular_files::RegularFiles;
pub use sockets::Sockets;
pub use standard_error::StandardError;
pub use station::Station;
pub use times::read_time;

// what `Sockets::bind` takes
pub use bac_guard::Guard;
