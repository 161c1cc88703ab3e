//! Facts as lines: how asks are printed, what is performed and sent, and how tickets end. Each call fails where the output does.
mod ending;
mod in_words;
mod lines;

pub use ending::{print_ending, print_ending_line};
pub use in_words::ending_words;
pub(crate) use in_words::ticket_words;
pub use lines::{
    print_asked, print_changed, print_ended, print_fault, print_nothing, print_performed,
    print_refused, print_sent,
};
