//! The words of the command line of `bac`: the table of its commands, reading words by it, and its help, manual page and completion.
#![tactic(auto)]

mod backup_words;
mod capture_words;
mod completion;
mod file_words;
mod grammar;
mod help;
mod help_words;
mod manual;
mod nearest;
mod node_words;
mod people_words;
mod shells;
mod unexpected;
mod value_names;
mod words;
mod wrapping;

pub use grammar::matches;
pub use help::Telling;
pub use nearest::nearest_command;
pub use shells::Shell;
