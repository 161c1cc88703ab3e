//! What fits into the APDUs between two ends (clauses 20.1.2.4, 20.1.2.5 and 5.2).
ghost use Rattle.std.specs.Prelude.{◌≡◌, ◌≤◌, ◌<◌};
ghost use Rattle.bac_protocol.specs.Sizes.{apdu_size, allows_segments, transfer_size};

use bac_apdu::Limits;

/// The octets that a code of max APDU stands for; a code above 5 is taken as 5.
pub fn apdu_size(code: u8) -> usize
    ensures is { result ≡ apdu_size code }
    ensures least { 50 ≤ result }
    ensures most { result ≤ 1476 }
{
    match code {
        0 => 50,
        1 => 128,
        2 => 206,
        3 => 480,
        4 => 1024,
        _ => 1476,
    }
}

/// Whether so many segments may be sent to an end that says that code; 0 and 7 set no limit (own rule of this profile).
pub fn allows_segments(code: u8, count: usize) -> bool
    ensures { result ≡ allows_segments code count }
{
    match code {
        1 => count <= 2,
        2 => count <= 4,
        3 => count <= 8,
        4 => count <= 16,
        5 => count <= 32,
        6 => count <= 64,
        _ => true,
    }
}

/// The APDU size of a transfer, in octets: the lesser of the sizes of its two ends.
pub fn transfer_size(one: &Limits, other: &Limits) -> usize
    ensures is { result ≡ transfer_size one.now.max_apdu other.now.max_apdu }
    ensures least { 50 ≤ result }
    ensures most { result ≤ 1476 }
{
    apdu_size(one.max_apdu).min(apdu_size(other.max_apdu))
}
