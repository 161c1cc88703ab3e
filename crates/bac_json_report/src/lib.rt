//! What `bac decode` and `bac check` print with `--json`: one object a line, over any readers and writers.
#![tactic(auto)]

mod check;
mod check_lines;
mod datagram;
mod decode;
mod fault;
mod file_check;
mod line;
mod line_check;
mod line_report;
mod moment;
mod names;

pub use check::check_json_over;
pub use check_lines::check_json_lines_over;
pub use datagram::datagram_json;
pub use decode::{decode_json_lines_over, decode_json_over};
pub use fault::fault_json;
pub use line::{json_line, print_json};
pub use moment::{number_or_null, time_json, time_or_null};
