//! What `serve` of `bac` does, over any links, clocks, keepers and writers: turns, in rounds where the store is kept, and their log.
//!
//! The log has a line for each datagram that came, with what was done, and for what else the turns gave. It is in words, or in objects of JSON.
#![tactic(auto)]

mod came;
mod cause;
mod done;
mod event_text;
mod frames;
mod keeping;
mod lines;
mod log;
mod log_level;
mod log_settings;
mod logging;
mod serving;
mod shortening;
mod stretch;
mod turned_away;

pub use event_text::print_event;
pub use keeping::{KeptServer, serve_kept};
pub use log_level::{LevelLog, LogLevel, OctetStyle};
pub use log_settings::{LogFormat, LogSettings};
pub use logging::{Logged, ServeCommand, serve_kept_logged, serve_logged};
pub use serving::serve;
pub use stretch::{print_served, serve_stretch};
