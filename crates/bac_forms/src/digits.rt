//! Hexadecimal digits of either case.
ghost use Rattle.std.specs.Prelude.{◌≡◌, ◌<◌, IfSome};
ghost use Rattle.bac_forms.specs.Digits.{digit_of, is_digit, pair_of};

/// What a digit counts; None where the character is none.
pub(crate) fn digit_of(octet: u8) -> Option<u8>
    ensures is { result ≡ digit_of octet }
    ensures small { IfSome result (λ digit. digit < 16) }
{
    if b'0' <= octet && octet <= b'9' {
        Some(octet - b'0')
    } else if b'a' <= octet && octet <= b'f' {
        Some(octet - b'a' + 10)
    } else if b'A' <= octet && octet <= b'F' {
        Some(octet - b'A' + 10)
    } else {
        None
    }
}

pub(crate) fn is_digit(octet: u8) -> bool
    ensures { result ≡ is_digit octet }
{
    digit_of(octet).is_some()
}

/// The octet of two digits, of which the first counts 16 times.
pub(crate) fn pair_of(high: u8, low: u8) -> Option<u8>
    ensures { result ≡ pair_of high low }
{
    let Some(high) = digit_of(high) else {
        return None;
    };
    let Some(low) = digit_of(low) else {
        return None;
    };
    Some(16 * high + low)
}
