//! What the datagrams of a capture show of transactions (clause 5.4): each request, the reply to it, and what was wrong.
#![tactic(auto)]

mod appends;
mod choice;
mod explainer;
mod finding;
mod grant;
mod key;
mod numbers;
mod part;
mod sent;
mod sighting;
mod step;
mod table;
mod transaction;
mod whole;

pub use explainer::{Explainer, Heard};
pub use finding::Finding;
pub use grant::{Grant, Granted};
pub use key::TransactionKey;
pub use part::{Part, Role, Taken, part_of};
pub use sent::Sent;
pub use sighting::{Sighting, read_sighting};
pub use step::Step;
pub use table::{Closed, OPEN_LIMIT};
pub use transaction::Transaction;
