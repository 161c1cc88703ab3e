//! What `bac ask` prints of an ask with `--json`, one object a line, and with `--csv`, one row a line.
#![tactic(auto)]

mod answer;
mod cell_text;
mod csv_row;
mod members;
mod object;
mod question;
mod record;

pub use cell_text::CellText;
pub use csv_row::{print_csv_header, print_csv_row};
pub use object::print_ask_object;
pub use record::{AskRecord, LineName, Outcome};
