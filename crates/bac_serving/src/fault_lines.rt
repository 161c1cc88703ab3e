//! Faults of a document that a server follows, in the form of its log.

use bac_json::{Members, text_json};
use bac_json_report::{print_json, time_json};
use bac_text::next_line;
use serde_json::Value as Json;
use std::alloc::{AllocError, Global};
use std::io;
use std::io::Write;

/// When faults are told.
#[derive(Clone, Copy)]
pub(crate) struct FaultTime {
    /// The moment, in milliseconds by the clock of the server.
    pub moment: u64,
    /// The time of day at moment 0 of that clock, in milliseconds since 1970 began in UTC; None where it cannot be read.
    pub epoch: Option<u64>,
}

impl FaultTime {
    /// The time of day, in milliseconds since 1970 began in UTC.
    fn time_of_day(self) -> Option<u64> {
        match self.epoch {
            Some(epoch) => Some(epoch.saturating_add(self.moment)),
            None => None,
        }
    }
}

/// The object of a fault: the members of a line of the log.
fn fault_json(alloc: Global, at: FaultTime, text: &[u8]) -> Result<Json, AllocError> {
    let text = text_json(alloc, text)?;
    let time = match time_json(alloc, at.time_of_day()) {
        Ok(time) => time,
        Err(error) => {
            drop(text);
            return Err(error);
        }
    };
    Members::new(alloc)
        .json("change", Json::Null)
        .json("count", Json::Null)
        .json("id", Json::Null)
        .number("moment", at.moment)
        .json("peer", Json::Null)
        .json("reply", Json::Null)
        .json("request", Json::Null)
        .json("text", text)
        .json("time", time)
        .text("type", "fault")
        .json("wait", Json::Null)
        .json("what", Json::Null)
        .end()
}

fn print_fault_object<E: Write>(
    alloc: Global,
    at: FaultTime,
    text: &[u8],
    err: &mut E,
) -> io::Result<()> {
    let object = fault_json(alloc, at, text)?;
    let done = print_json(alloc, &object, err);
    drop(object);
    done
}

/// Prints an object of JSON for each line of a text.
pub(crate) fn print_fault_objects<E: Write>(
    alloc: Global,
    at: FaultTime,
    text: &[u8],
    err: &mut E,
) {
    let mut rest = text;
    let mut line = Vec::new(alloc);
    // each line takes an octet at least
    for _ in 0..text.len() {
        let Ok(true) = next_line(&mut rest, &mut line) else {
            return;
        };
        // if that fails, nothing is printed
        let _ = print_fault_object(alloc, at, &line, err);
    }
}
