//! The source ports and first invoke IDs of clients: which they are, when they come again, and who can guess them.
#![tactic(auto)]

mod key;
mod laws;
mod pair;

pub use key::PairKey;
pub use laws::{clients_come_late, ports_come_late};
pub use pair::{ClientPair, left_at, pair_at};
