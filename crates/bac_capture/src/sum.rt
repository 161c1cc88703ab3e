//! The checksum of an IPv4 header.
ghost use Rattle.std.specs.Prelude.{◌≡◌, ◌+◌, ◌*◌, ◌<◌, ◌≤◌, length, slice_index};
ghost use Rattle.bac_capture.specs.Sums.{checksum, ones_sum, sum_from};

use byteorder::{BigEndian, ByteOrder};

/// The sum of two words in one's complement: the carry is added at the end.
fn ones_sum(a: u32, b: u32) -> u32
    requires a { a ≤ 65535 }
    requires b { b ≤ 65535 }
    ensures is { result ≡ ones_sum a b }
    ensures word { result ≤ 65535 }
{
    let sum = a + b;
    sum % 65_536 + sum / 65_536
}

/// The word at a place.
fn word_at(octets: &[u8], place: usize) -> u32
    requires { place + 1 < length octets.now }
    ensures is { result ≡ slice_index octets.now place * 256 + slice_index octets.now (place + 1) }
    ensures word { result ≤ 65535 }
{
    u32::from(BigEndian::read_u16(&octets[place..]))
}

/// The sum of the words of these octets in one's complement.
#[tactic(auto, using(crate::proofs::Words::word_more))]
fn sum_of(octets: &[u8]) -> u32
    ensures is { result ≡ sum_from 0 octets.now }
    ensures word { result ≤ 65535 }
{
    let mut sum = 0;
    let mut place = 0;
    while octets.len() - place >= 2 {
        sum = ones_sum(sum, word_at(octets, place));
        place += 2;
    }
    sum
}

/// The checksum of a header: the complement of the sum of its words.
pub(crate) fn checksum(octets: &[u8]) -> u16
    ensures { result ≡ checksum octets.now }
{
    (65_535 - sum_of(octets)) as u16
}
