//! What `read`, `write` and `points` do: a node is asked for values, or to take one, in the words that people use.
#![tactic(auto)]

mod listing;
mod objects;
mod performing;
mod questions;
mod reading;
mod silence;
mod table;
mod task;
mod writing;

pub use performing::do_with_points;
pub use task::{Listing, PointTask, PointWork, Writing, point_task_of};
