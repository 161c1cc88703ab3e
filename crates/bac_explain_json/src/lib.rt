//! `bac explain --json`: what a capture shows of transactions, as objects of JSON, one a line.
#![tactic(auto)]

mod carried;
mod explain;
mod findings;
mod members;
mod summary;
mod transaction;

pub use explain::explain_json_over;
