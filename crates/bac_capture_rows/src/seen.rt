//! Lines of datagrams that are seen, `MOMENT FROM TO HEX`: the moment in milliseconds, the numbers of the hosts, and the octets.
use crate::words::octets_of;
use bac_rows::row::{Row, after, decimal, number, word};
use bac_rows::script::{ranged, spelled};

/// A datagram, when it is seen, and between which BACnet/IP addresses.
#[derive(Drop)]
pub(crate) struct Seen {
    pub(crate) moment: u64,
    pub(crate) from: [u8; 6],
    pub(crate) to: [u8; 6],
    pub(crate) datagram: Vec<u8>,
}

/// The address of the host of a number, at port 47,808, or where a colon follows, at the next port.
fn host(word: &str) -> [u8; 6] {
    let number = word.strip_suffix(':').unwrap_or(word);
    let port = if number.len() < word.len() {
        0xC1
    } else {
        0xC0
    };
    [10, 0, 0, (decimal(number) % 256) as u8, 0xBA, port]
}

/// What a line says.
pub(crate) fn seen_of(line: &str, row: &Row) -> Seen {
    Seen {
        moment: number(line, 0),
        from: host(word(line, 1)),
        to: host(word(line, 2)),
        datagram: octets_of(after(line, 3), row),
    }
}

/// The header of a file of pcap, of packets of IP and nothing else.
const HEADER: &[u8] = b"\xD4\xC3\xB2\xA1\x02\0\x04\0\0\0\0\0\0\0\0\0\0\0\x04\0\x65\0\0\0";

/// A number of four octets, the least significant first.
fn put_long(number: u64, file: &mut Row) {
    let [first, second, third, fourth, ..] = number.to_le_bytes();
    file.put_all(&[first, second, third, fourth]);
}

/// A number of two octets, the most significant first.
fn put_word(number: usize, file: &mut Row) {
    file.put((number / 0x100 % 0x100) as u8);
    file.put((number % 0x100) as u8);
}

/// A datagram of UDP over IPv4.
fn put_packet(seen: &Seen, file: &mut Row) {
    let len = seen.datagram.len();
    put_word(0x4500, file);
    put_word(len.saturating_add(28), file);
    file.put_all(&[0, 0, 0, 0, 64, 17, 0, 0]);
    file.put_all(&seen.from[..4]);
    file.put_all(&seen.to[..4]);
    file.put_all(&seen.from[4..]);
    file.put_all(&seen.to[4..]);
    put_word(len.saturating_add(8), file);
    put_word(0, file);
    file.put_all(&seen.datagram);
}

/// A record of pcap: its moment in seconds and microseconds, how many octets it has, twice, and they.
fn put_record(seen: &Seen, file: &mut Row) {
    let len = (seen.datagram.len() as u64).saturating_add(28);
    put_long(seen.moment / 1_000, file);
    put_long(seen.moment % 1_000 * 1_000, file);
    put_long(len, file);
    put_long(len, file);
    put_packet(seen, file);
}

/// The datagram of a line with a number.
fn put_line(line: &str, number: u64, file: &mut Row) {
    match spelled(file.alloc, "", line, number) {
        Ok(line) => put_record(&seen_of(&line, file), file),
        Err(_) => file.fail(),
    }
}

/// The datagrams of a line, which may stand for many.
fn put_lines(line: &str, file: &mut Row) {
    match ranged(line) {
        Ok((numbers, line)) => {
            for place in 0..numbers.count {
                put_line(line, numbers.at(place), file);
            }
        }
        Err(_) => file.fail(),
    }
}

/// A capture file of what is seen.
pub(crate) fn file_of(lines: &str, row: &Row) -> Row {
    let mut file = Row::new(row.alloc);
    file.put_all(HEADER);
    for line in lines.lines() {
        put_lines(line, &mut file);
    }
    file
}
