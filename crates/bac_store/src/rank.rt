//! The order of values that are numbers.
ghost use Rattle.std.specs.Prelude.{◌≡◌};
ghost use Rattle.bac_value.specs.Views.{element_view};
ghost use Rattle.bac_store.specs.Ranks.{is_at_most as at_most_in, place_in as place_at, place_or_zero, place_of_class as place_of, rank_of as rank_in, real_in as real_at, real_place as place_of_bits, signed_place as place_of_signed};

use bac_value::{Class, kinds, take_element, take_enumerated, take_signed, take_unsigned};

/// The bit of a Real that is its sign.
const SIGN: u32 = 0x8000_0000;

/// The bits of the Real infinity.
const INFINITY: u32 = 0x7F80_0000;

/// The distance of the least Signed from 0.
const HALF: u64 = 0x8000_0000_0000_0000;

/// The place of a Real by its bits among all Reals; None for a NaN.
fn real_place(bits: u32) -> Option<u64>
    ensures { result ≡ place_of_bits bits }
{
    // the bits of Reals above 0 rise with the number, those of Reals below 0 fall; -0.0 and 0.0 have one place
    let magnitude = if bits < SIGN { bits } else { bits - SIGN };
    if magnitude > INFINITY {
        None
    } else if bits < SIGN {
        Some(u64::from(SIGN) + u64::from(magnitude))
    } else {
        Some(u64::from(SIGN - magnitude))
    }
}

/// The place of a Real with these contents.
fn real_in(contents: &[u8]) -> Option<u64>
    ensures { result ≡ real_at contents.now }
{
    match contents {
        [a, b, c, d] => real_place(
            u32::from(*a) * 0x100_0000
                + u32::from(*b) * 0x1_0000
                + u32::from(*c) * 0x100
                + u32::from(*d),
        ),
        _ => None,
    }
}

/// The place of a Signed among all of 64 bits.
fn signed_place(number: i64) -> u64
    ensures { result ≡ place_of_signed number }
{
    if number < 0 {
        // -1 - number is not below 0 here, so the cast loses no sign
        HALF - 1 - (-1 - number) as u64
    } else {
        HALF + number as u64
    }
}

/// The place of a value with these contents among those of its kind; None for a kind that is no number.
fn place_in(kind: u8, contents: &[u8]) -> Option<u64>
    ensures { result ≡ place_at kind contents.now }
{
    match kind {
        kinds::UNSIGNED => match take_unsigned(contents, contents.len()) {
            Ok((number, _)) => Some(number),
            Err(_) => None,
        },
        kinds::SIGNED => match take_signed(contents, contents.len()) {
            Ok((number, _)) => Some(signed_place(number)),
            Err(_) => None,
        },
        kinds::REAL => real_in(contents),
        kinds::ENUMERATED => match take_enumerated(contents, contents.len()) {
            Ok((number, _)) => Some(u64::from(number)),
            Err(_) => None,
        },
        _ => None,
    }
}

/// The kind of one number, and its place among the values of this kind; None for all other data.
fn rank_of(values: &[u8]) -> Option<(u8, u64)>
    ensures { result ≡ rank_in values.now }
{
    match take_element(values) {
        Ok((element, rest)) if rest.is_empty() => match element.tag.class {
            Class::Application => match place_in(element.tag.number, element.contents) {
                Some(place) => Some((element.tag.number, place)),
                None => None,
            },
            Class::Context => None,
        },
        _ => None,
    }
}

/// The number that these octets encode; 0 if they encode none.
pub(crate) fn number_in(values: &[u8]) -> u64
    ensures { result ≡ place_or_zero (rank_in values.now) }
{
    match rank_of(values) {
        Some((_, place)) => place,
        None => 0,
    }
}

/// Whether both are numbers of the same kind, and the second is not below the first.
pub(crate) fn is_at_most(least: &[u8], greatest: &[u8]) -> bool
    ensures { result ≡ at_most_in least.now greatest.now }
{
    match (rank_of(least), rank_of(greatest)) {
        (Some((kind, place)), Some((other, most))) => kind == other && place <= most,
        _ => false,
    }
}
