//! The command line of `bac`: what its words ask for, and doing it over any files, links, clocks and writers.
#![tactic(auto)]

mod command;
mod complaints;
mod ending;
mod output;
mod piped;
mod reasons;
mod shown_form;
mod task;
mod telling;
mod told;

pub use command::run;
pub use ending::{exit_code, run_to_end};
pub use piped::Piped;
