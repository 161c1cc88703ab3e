//! Sequence charts: what nodes send each other and what comes of it, as text for a terminal and as a diagram of Mermaid.
#![tactic(auto)]

mod drawing;
mod head;
mod label;
mod line;
mod mark;
mod row;

pub use drawing::{ChartFormat, line_text, print_drawing};
pub use label::{datagram_words, octets_words};
pub use line::{Line, coming_line, note_line};
pub use mark::{Arrow, Mark};
