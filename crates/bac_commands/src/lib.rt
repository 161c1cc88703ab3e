//! What the commands `answer`, `ask` and `pair` of `bac` do, over any writers, links and clocks, and the lines that they print of what came of it. bac_server does
//! what `serve` does.
#![tactic(auto)]

mod answering;
mod facts;
mod fault_words;
mod fresh_node;
mod online;

pub use answering::{CLIENT, answer_datagram, answer_over};
pub use facts::{
    ending_words, print_asked, print_changed, print_ended, print_ending, print_ending_line,
    print_fault, print_nothing, print_performed, print_refused, print_sent,
};
pub use fault_words::ask_fault_words;
pub use online::{
    AskCommand, CommandError, OutputFormat, Style, TURNS, ask, ask_unprinted, bound_client,
    bound_house, bound_server, clock_back, clock_unread, is_spent, link_fault, pair, print_ask_end,
    read_question,
};
