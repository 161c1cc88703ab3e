//! The server's end of a node: the reply table, over any table of slots (clause 5.4.5, with this profile's own rules). A live entry is never evicted.
//!
//! `Responder` is the table: bac_node calls `on` for each APDU, and `prepare_tick` and `commit_tick` for each tick. `ServerTransaction` is one entry
//! of it: a request that came, and what became of it. `Responder::on` gives an APDU to `hearing`. If its key has a live entry that goes on, `live`
//! takes it, by the entry's state. Otherwise `beginning` takes it, and `idle` after that.
//!
//! Each call gives exactly what bac_transaction's definitions of the server's end say, and below it what bac_protocol's machine says of one entry. An entry
//! is changed in its slot. All memory is taken before anything changes, so that after an Err the table and the store are as before.
#![tactic(auto)]

mod aging;
mod beginning;
mod comparing;
mod effect;
mod ending;
mod freeing;
mod hearing;
mod idle;
mod keeping;
mod kept_reply;
mod live;
mod moments;
mod performed;
mod performing;
mod reading;
mod repeats;
mod replying;
mod responder;
mod segmented_request;
mod segmented_response;
mod served;
mod server_transaction;
mod sharing;
mod tick;
mod ticking;
mod timers;

pub use effect::Effect;
pub use idle::idle_on_apdu;
pub use performed::Performed;
pub use responder::{Responder, Serving};
pub use served::{Act, Served};
pub use server_transaction::ServerTransaction;
