//! What a document that changed makes a node change at itself: values and octets of files that differ from what the document said before.
#![tactic(auto)]

mod fault;
mod following;
mod likeness;
mod news;

pub use fault::FollowFault;
pub use following::{Documents, changes_between};
