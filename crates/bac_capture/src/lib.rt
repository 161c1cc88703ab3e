//! Reads and writes capture files: which UDP datagrams of BACnet/IP the frames of a capture carry.
//!
//! It walks a capture file frame by frame for a report, and has the report of `bac check`: which frames carry good datagrams.
//!
//! It writes pcap files with datagrams of BACnet/IP between numbered nodes, in packets of IPv4 and UDP.
#![tactic(auto)]

mod begin;
mod block;
mod broken;
mod capture;
mod check;
mod check_fault;
mod fault;
mod fields;
mod file;
mod form;
mod ip;
mod ipv4;
mod ipv6;
mod judging;
mod laws;
mod link;
mod moment;
mod order;
mod others;
mod packet;
mod packet_writing;
mod ports;
mod reading;
mod report;
mod run;
mod sum;
mod tally;
mod udp;
mod walk;

pub use bac_text::{BvlcFunction, OtherBvll};
pub use block::{Block, Frame};
pub use capture::{NodeDatagram, print_head, print_record};
pub use check::check_capture_over;
pub use check_fault::{CapturedFault, Verdict};
pub use fault::{FileFault, PacketFault};
pub use file::{Interface, Layout};
pub use form::{FileFormat, FileSignature, signature_of};
pub use judging::judge;
pub use laws::{longest_packet_is_kept, options_that_count};
pub use link::LinkKind;
pub use moment::Resolution;
pub use order::Order;
pub use packet::{Datagram, Endpoint};
pub use ports::Ports;
pub use reading::read_frame;
pub use report::{FileReport, print_text, report_over};
pub use run::read_run;
pub use tally::FrameTally;
