//! How many octets a number takes.
ghost use Rattle.std.specs.Prelude.{length, ◌≡◌, ◌<◌, ◌≤◌, ◌+◌, ◌-◌, ◌*◌, ◌/◌, ◌^◌};
ghost use Rattle.bac_value.specs.Number.{width_of, half_width_of, distance, complement, unsigned_octets, signed_octets};

/// How many octets an unsigned number takes, at least one.
pub(crate) fn octets_of(number: u64) -> usize
    ensures is { result ≡ width_of number }
    ensures few { result ≤ 8 }
{
    if number < 0x100 {
        1
    } else if number < 0x1_0000 {
        2
    } else if number < 0x100_0000 {
        3
    } else if number < 0x1_0000_0000 {
        4
    } else if number < 0x100_0000_0000 {
        5
    } else if number < 0x1_0000_0000_0000 {
        6
    } else if number < 0x100_0000_0000_0000 {
        7
    } else {
        8
    }
}

/// How many octets a signed number takes, at least one. `distance` is its distance from 0, or from -1 if it is negative.
pub(crate) fn signed_octets_of(distance: u64) -> usize
    ensures is { result ≡ half_width_of distance }
    ensures few { result ≤ 8 }
{
    if distance < 0x80 {
        1
    } else if distance < 0x8000 {
        2
    } else if distance < 0x80_0000 {
        3
    } else if distance < 0x8000_0000 {
        4
    } else if distance < 0x80_0000_0000 {
        5
    } else if distance < 0x8000_0000_0000 {
        6
    } else if distance < 0x80_0000_0000_0000 {
        7
    } else {
        8
    }
}

/// The distance of a number from 0, or from -1 if it is negative.
pub(crate) fn distance_of(number: i64) -> u64
    ensures is { result ≡ distance number }
    ensures small { result < 2 ^ 63 }
{
    if number < 0 {
        (-1 - number) as u64
    } else {
        number as u64
    }
}

/// The greatest unsigned number in 1 to 8 octets.
pub(crate) fn greatest_in(len: usize) -> u64
    requires some { 0 < len }
    requires most { len ≤ 8 }
    ensures whole { result + 1 ≡ 256 ^ len }
    ensures half { result / 2 + 1 ≡ 2 ^ (8 * len - 1) }
{
    match len {
        1 => 0xff,
        2 => 0xffff,
        3 => 0xff_ffff,
        4 => 0xffff_ffff,
        5 => 0xff_ffff_ffff,
        6 => 0xffff_ffff_ffff,
        7 => 0xff_ffff_ffff_ffff,
        _ => 0xffff_ffff_ffff_ffff,
    }
}

/// The unsigned number with the same octets as a signed number.
pub(crate) fn complement_of(number: i64) -> u64
    ensures is { result ≡ complement number }
    ensures fits { result < 256 ^ half_width_of (distance number) }
{
    let distance = distance_of(number);
    let greatest = greatest_in(signed_octets_of(distance));
    if number < 0 {
        greatest - distance
    } else {
        distance
    }
}

/// The length in octets of the contents of an Unsigned or an Enumerated (clause 20.2.4).
pub fn unsigned_len(number: u64) -> usize
    ensures len { result ≡ length (unsigned_octets number) }
    ensures few { result ≤ 8 }
{
    octets_of(number)
}

/// The length in octets of the contents of a Signed (clause 20.2.5).
pub fn signed_len(number: i64) -> usize
    ensures len { result ≡ length (signed_octets number) }
    ensures few { result ≤ 8 }
{
    signed_octets_of(distance_of(number))
}
