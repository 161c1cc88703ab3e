//! What a command line runs on beside files.

use bac_environment::{ClientSockets, StandardError, StandardInput};
use bac_keep_file::Databases;

/// The links and the clocks of a machine, its databases, its standard input and its standard error, and its copy of the program.
pub trait Machine: ClientSockets + Databases + StandardInput + StandardError {
    /// Whether standard error is a terminal, which shows the progress of an ask.
    fn shows_progress(&self) -> bool;

    /// Whether standard output is a terminal.
    fn is_screen(&self) -> bool;

    /// What is known of how the program was built.
    fn built(&self) -> Option<String>;
}
