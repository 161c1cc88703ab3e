//! Lines of frames, `NAME; LINK HEX`: the number of the link layer, the frame, and what it carries.
use crate::words::octets_of;
use bac_capture::{Datagram, Endpoint, LinkKind, Ports, read_frame};
use bac_rows::row::{Row, after, number};

const PORTS: Ports = Ports { also: Some(40_001) };

fn print_endpoint(endpoint: Endpoint<'_>, row: &mut Row) {
    row.say_octets(endpoint.host);
    row.tell(":# ", u64::from(endpoint.port));
}

fn print_datagram(datagram: Datagram<'_>, row: &mut Row) {
    print_endpoint(datagram.from, row);
    print_endpoint(datagram.to, row);
    row.say_octets(datagram.octets);
    row.put(b'\n');
}

fn print_carried(link: LinkKind, frame: &[u8], row: &mut Row) {
    match read_frame(link, PORTS, frame) {
        Ok(Some(datagram)) => print_datagram(datagram, row),
        Ok(None) => row.say("none\n"),
        Err(fault) => row.line(fault),
    }
}

fn show(words: &str, row: &mut Row) {
    match LinkKind::of((number(words, 0) % 65_536) as u16) {
        Some(link) => print_carried(link, &octets_of(after(words, 1), row), row),
        None => row.say("another link layer\n"),
    }
}

/// Plays the lines of a row.
pub(crate) fn play(lines: &str, row: &mut Row) {
    for line in lines.lines() {
        let (name, words) = line.split_once("; ").unwrap_or((line, ""));
        row.say(name);
        row.say("; ");
        show(words, row);
    }
}
