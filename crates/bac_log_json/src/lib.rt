//! What `keep`, `simulate` and the log of `serve` print with `--json`, one object a line. Members that say what those of `bac ask --json` or
//! `bac decode --json` do have their names.
#![tactic(auto)]

mod cell;
mod event;
mod log;

pub use cell::{KeptPart, cell_json, print_cell_object};
pub use event::{EventKind, EventRecord, print_event_object};
pub use log::{LogEvent, LogRecord, print_log_object};
