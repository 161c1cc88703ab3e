//! Captures where datagrams are wanted.

use bac_capture::signature_of;
use std::io::Write;

/// Whether octets begin as a file of pcap or pcapng does.
pub(crate) fn begins_capture(octets: &[u8]) -> bool {
    match octets {
        [a, b, c, d, ..] => signature_of(&[*a, *b, *c, *d]).is_some(),
        _ => false,
    }
}

/// Whether a name is one of a file of pcap or pcapng.
pub(crate) fn is_capture_name(name: &str) -> bool {
    name.ends_with(".pcap") || name.ends_with(".pcapng")
}

/// Tells how a capture is read.
pub(crate) fn tell_capture<E: Write>(err: &mut E) {
    // if that fails too, only the status is left
    let _ = err.writeln("this is a pcap or pcapng file: `bac explain` reads it");
}
