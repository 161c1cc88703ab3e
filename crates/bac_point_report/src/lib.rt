//! What `read`, `write` and `points` ask and print, for people: the properties that words name, values alone, and the table of a device's points.
#![tactic(auto)]

mod advice;
mod columns;
mod line;
mod listing;
mod outcome;
mod point_record;
mod points;
mod showing;
mod targets;
mod written;

pub use advice::is_refused;
pub use columns::Widths;
pub use line::{failure_lines, value_line};
pub use listing::{ListStep, after_list, number_of, objects_of};
pub use outcome::{failure_words, has_values, is_done, is_silent, values_of};
pub use point_record::{CSV_HEADER, point_object, point_row, record_cell};
pub use points::{Cell, HEADER, cell_of, is_absent, point_line, point_references, whole_property};
pub use showing::shown;
pub use targets::{Target, targets_in};
pub use written::{kind_in, kind_named, written_values};
