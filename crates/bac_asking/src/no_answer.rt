//! What is told of a node that does not answer.

use bac_ask_report::Outcome;
use bac_npdu::Peer;
use bac_text::peer_text;
use std::alloc::{AllocError, Global};
use std::io;
use std::io::Write;

/// What to look at where a node does not answer.
const ADVICE: &[u8] =
    b"check the address, the port and whether the device is on; a device behind a router needs --route NET:MAC\n";

/// So many milliseconds as seconds, as `0.5` or `12`.
fn seconds_text(alloc: Global, milliseconds: u64) -> Result<String, AllocError> {
    let seconds = milliseconds / 1_000;
    let rest = milliseconds % 1_000;
    if rest == 0 {
        return format!(in alloc; "{seconds}");
    }
    let text = format!(in alloc; "{seconds}.{rest:03}")?;
    String::from_str(alloc, text.as_str().trim_end_matches('0'))
}

/// How long a node was waited for, where an ask got no answer.
fn wait_text(
    alloc: Global,
    timeout: Option<u64>,
    outcome: Outcome<'_>,
) -> Result<String, AllocError> {
    if let Outcome::TimedOut = outcome {
        return String::from_str(alloc, "4 requests in 12 s");
    }
    let seconds = seconds_text(alloc, timeout.unwrap_or(60_000))?;
    format!(in alloc; "waited {seconds} s")
}

/// Writes that a node did not answer, how that is known, and what to look at.
fn write_no_answer<E: Write>(
    alloc: Global,
    peer: Peer,
    known: &str,
    err: &mut E,
) -> io::Result<()> {
    let peer = peer_text(alloc, peer)?;
    writeln!(err, "no answer from {peer} ({known})")?;
    err.write_all(ADVICE)
}

/// Writes that a node did not answer, how long it was waited for, and what to look at.
fn write_waited<E: Write>(
    alloc: Global,
    peer: Peer,
    timeout: Option<u64>,
    outcome: Outcome<'_>,
    err: &mut E,
) -> io::Result<()> {
    let wait = wait_text(alloc, timeout, outcome)?;
    write_no_answer(alloc, peer, &wait, err)
}

/// Tells on `err` that a node did not answer, how long it was waited for, and what to look at. Call it for an ask whose outcome is that nothing came back.
/// `timeout` is the milliseconds that an ask was given, and None if it ended by itself.
pub fn tell_no_answer<E: Write>(
    alloc: Global,
    peer: Peer,
    timeout: Option<u64>,
    outcome: Outcome<'_>,
    err: &mut E,
) {
    // if that fails too, only the status is left
    let _ = write_waited(alloc, peer, timeout, outcome, err);
}

/// Tells on `err` that a node does not answer, since nothing listens at its UDP port, and what to look at.
pub fn tell_unheard<E: Write>(alloc: Global, peer: Peer, err: &mut E) {
    // if that fails too, only the status is left
    let _ = write_no_answer(alloc, peer, "nothing listens at this port", err);
}
