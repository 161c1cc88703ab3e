//! What both ends of a transaction stand on: how slots are found, what is sent, and both ends as plain values.
//!
//! The definitions stand in `specs/`; the code of the client's and the server's end cites them.
#![tactic(auto)]

mod answering;
mod context;
mod datagram;
pub mod examples;
mod invoke_id;
mod laws;
mod peer_key;
mod peer_key_order;
mod peer_key_same;
mod restart;
mod rules;
mod serving;
mod settings;
mod sizes;

pub use answering::{only_abort, only_ack, only_apdu, step_acks};
pub use context::Context;
pub use datagram::{Datagram, datagram_of};
pub use invoke_id::invoke_id_of;
pub use laws::{
    asks_take_the_least_invoke_id, client_tables_stay_in_order, full_tables_turn_requests_away,
    keys_in_order, replies_fit_transfers, server_tables_stay_in_order, slots_are_held_as_tickets,
};
pub use peer_key::PeerKey;
pub use restart::is_waiting;
pub use rules::{ReadRule, Rules};
pub use serving::{
    fresh_reads, remembers_all, requests_turned_away, slots_are_shared, strict_rules,
};
pub use settings::Settings;
pub use sizes::{allows_segments, apdu_size, transfer_size};
