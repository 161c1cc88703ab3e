//! What the plain lines say, as JSON: values, requests, replies, and the layers of datagrams.
//!
//! Each function returns values of serde_json, whose members its definition in specs/ lists; docs/FORMATS.md ("JSON") has them in a table. Texts in
//! them are those that the plain lines print.
#![tactic(auto)]

mod apdu;
mod layers;
mod members;
mod named;
mod npdu;
mod reply;
mod request;
mod text;
mod value;

pub use apdu::apdu_json;
pub use layers::{Layers, datagram_layers, npdu_layers};
pub use members::Members;
pub use npdu::npdu_json;
pub use reply::{complex_json, reason_json, reply_json};
pub use request::request_json;
pub use text::{object_json, octets_json, optional_json, property_json, text_json};
pub use value::{data_json, sole_member};
