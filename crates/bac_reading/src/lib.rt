//! What `decode`, `check`, `explain` and `simulate` do with datagrams, and with the captures and scripts of files.
#![tactic(auto)]

mod captures;
mod copied;
mod decoding;
mod digit_lines;
mod files;
mod reasons;
mod report;
mod script;
mod selecting;
mod watched;

pub use copied::{Copied, FormChoice};
pub use decoding::{Decoding, LayerForm, STANDARD_INPUT, decode};
pub use report::{CaptureFile, Report, print_report};
pub use script::{ScriptFile, simulate};
pub use selecting::{MOST_SLOWER, check_of, decoding_of, read_slower, report_of};
