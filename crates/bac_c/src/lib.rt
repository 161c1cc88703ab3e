//! The node for programs in C: a static library, with the header include/bac.h.
//!
//! A C program holds a [`Handle`](crate::handle::Handle). Each call takes the device out of it, works on it in safe code, and puts it back. No call
//! requires anything of what a handle holds: each answers a status.
#![tactic(auto)]

mod allowing;
mod asking;
mod changing;
mod copying;
mod describing;
mod device;
mod ending;
mod fault;
mod flaw;
mod handle;
mod keeping;
mod kept;
mod kept_fault;
mod limiting;
mod listed;
mod listing;
mod listing_kept;
mod names;
mod opening;
mod parked;
mod performing;
mod places;
mod question;
mod ranges;
mod reading;
mod records;
mod refusing;
mod requests;
mod restarting;
mod restoring;
mod results;
mod rule;
mod setting;
mod settings;
mod slots;
mod starting;
mod taking;
mod telling;
mod turns;
mod version;
