//! What `ask` and `pair` do: nodes that ask, on any links.
#![tactic(auto)]

mod answers;
mod asking;
mod asking_lines;
mod client;
mod ends;
mod file_words;
mod fleet;
mod flights;
mod gathering;
mod no_answer;
mod online;
mod pace;
mod past_ports;
mod peers;
mod recording;
mod rota;
mod rounds;
mod seconds;
mod sources;
mod timeout;
mod unheard;
mod unsent;
mod window;

pub use answers::{part_in, reply_of};
pub use asking::{Asking, Rounds, asking_of, default_of, peer_of};
pub use asking_lines::{ask_lines, ask_on};
pub use client::Client;
pub use file_words::ask;
pub use gathering::gather;
pub use no_answer::{tell_no_answer, tell_unheard};
pub use online::{pair, question_in};
pub use recording::{RecordForm, outcome_of, print_header};
pub use seconds::{bad_pace, print_bad_pace, read_seconds};
pub use timeout::{bad_timeout, print_bad_timeout};
pub use unheard::{is_unheard, tells_unheard};
pub use unsent::tell_unsent;
