//! Reports on the transactions of a capture file: the text of `bac explain` and its charts.
//!
//! The text has each transaction, what is wrong with its datagrams, and a summary. A chart has a column for each peer, or is of one client
//! and one server, and an arrow for each datagram of a transaction.
#![tactic(auto)]

mod account;
mod answer_words;
mod arrow_words;
mod block;
mod chart;
mod column;
mod copies;
mod devices;
mod ending;
mod explain;
mod form;
mod frame_report;
mod frames_line;
mod keys;
mod pair;
mod pair_sketch;
mod reporter;
mod request_words;
mod seeing;
mod selection;
mod service_words;
mod sketch;
mod summary;
mod tally;
mod totals;
mod unread;

pub use account::Account;
pub use answer_words::told_words;
pub use bac_chart::ChartFormat;
pub use chart::{ChartOptions, chart_over};
pub use devices::{Device, MOST_DEVICES};
pub use ending::{Ending, delay_of, ending_of, is_refused, is_unanswered};
pub use explain::explain_over;
pub use form::ReportForm;
pub use frame_report::{FrameReport, Hearing};
pub use reporter::Reporter;
pub use request_words::asked_words;
pub use seeing::seen_of;
pub use selection::{PeerFilter, ReportOptions, Selection};
pub use tally::Tally;
pub use totals::Totals;
pub use unread::Unread;
