//! What `serve`, `answer` and `keep` do: nodes with a store, on any links, and the databases that keep their stores.
#![tactic(auto)]

mod changing;
mod dropping;
mod extent;
mod fault_lines;
mod followed;
mod following_keeper;
mod forgetting;
mod gap;
mod guard_words;
mod keep_faults;
mod keeping;
mod kept_station;
mod listing;
mod looking;
mod objects;
mod online;
mod part_words;
mod reading;
mod reasons;
mod serving;
mod serving_words;
mod stretching;

pub use forgetting::{Forgetting, forget_kept};
pub use guard_words::bad_peers;
pub use keeping::serve_kept;
pub use listing::{ListForm, list_kept};
pub use looking::serve_looking;
pub use objects::{answer, serve};
pub use serving::Serving;
pub use serving_words::{read_memory, remembers_in_vain, serving_of};
