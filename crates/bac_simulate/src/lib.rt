//! `bac simulate`: a script of events in a network of nodes, and what comes of each; also in a network of the caller's.
#![tactic(auto)]

mod bad_line;
mod capture;
mod clock_words;
mod event_style;
mod fault_words;
mod line;
mod line_reading;
mod line_words;
mod link_words;
mod marks;
mod moments;
mod nothing;
mod objects;
mod printing;
mod read_script;
mod script;
mod script_reading;
mod simulate;
mod telling;
mod told;
mod trace;
mod view;
mod words;
mod world_of;

pub use line::{
    Ask, AskStranger, ClockPace, ClockStart, Noise, SetFile, SetProperty, Setting, Statement,
    Stranger,
};
pub use line_reading::{read_setting, read_statement};
pub use simulate::{simulate_in, simulate_lines_over, simulate_over};
pub use view::{View, show_over};
