//! Counts, and sequence numbers of segments.
ghost use Rattle.std.specs.Prelude.{◌≡◌};
ghost use Rattle.bac_explain.specs.Numbers.{ahead, following, is_ahead, is_behind, more_by, one_more};

/// How often a request or a segment may be sent: once, and as many retries as the standard has by default (Number_Of_APDU_Retries,
/// clause 12.11.28, default 3).
pub(crate) const MOST_SENDS: u64 = 4;

/// How many segments after the first are seen before sequence numbers may have wrapped: half of all numbers, as the capture may lack some (own).
pub(crate) const ROUND: u64 = 128;

/// One more than a count; it saturates.
pub(crate) fn one_more(count: u64) -> u64
    ensures { result ≡ one_more count }
{
    count.saturating_add(1)
}

/// A count plus this many; it saturates.
pub(crate) fn more_by(count: u64, more: u16) -> u64
    ensures { result ≡ more_by more count }
{
    count.saturating_add(u64::from(more))
}

/// How far a sequence number is ahead of another, modulo 256.
pub(crate) fn ahead(last: u8, number: u8) -> u16
    ensures { result ≡ ahead last number }
{
    u16::from(number.wrapping_sub(last))
}

/// Whether a sequence number is ahead of another by less than half of all numbers.
pub(crate) fn is_ahead(last: u8, number: u8) -> bool
    ensures { result ≡ is_ahead last number }
{
    let ahead = ahead(last, number);
    0 < ahead && ahead < 128
}

/// Whether a sequence number is behind another.
pub(crate) fn is_behind(last: u8, number: u8) -> bool
    ensures { result ≡ is_behind last number }
{
    ahead(last, number) >= 128
}

/// Whether a sequence number is the next after another.
pub(crate) fn is_following(last: u8, number: u8) -> bool
    ensures { result ≡ following last number }
{
    last.wrapping_add(1) == number
}
