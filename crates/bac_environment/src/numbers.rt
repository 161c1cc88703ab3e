//! Numbers as words, and words that are cut at a mark.
ghost use Rattle.std.specs.Prelude.{◌≡◌, ◌<◌, false, MatchOption};
ghost use Rattle.bac_environment.specs.Addresses.{IsCut, IsNoNumber, IsNumber, has_octet, is_mark};

/// The number of 64 bits that a text is: decimal digits, before which a plus may stand. None of any other text, and of a number of 2^64 or more.
pub fn read_number(text: &str) -> Option<u64>
    ensures { MatchOption result (IsNoNumber 64 text.now) (IsNumber 64 text.now) }
{
    match text.parse::<u64>() {
        Ok(number) => Some(number),
        Err(_) => None,
    }
}

/// The number of 16 bits that a text is.
pub(crate) fn read_short(text: &str) -> Option<u16>
    ensures { MatchOption result (IsNoNumber 16 text.now) (IsNumber 16 text.now) }
{
    match text.parse::<u16>() {
        Ok(number) => Some(number),
        Err(_) => None,
    }
}

/// What stands before the first such mark of a text, and what stands behind it. None where there is none.
pub fn parts_at(text: &str, mark: char) -> Option<(&str, &str)>
    requires { mark < 128 }
    ensures { MatchOption result (has_octet (is_mark mark) text.now ≡ false) (λ p. IsCut (is_mark mark) text.now p.0.now p.1.now) }
{
    text.split_once(mark)
}
