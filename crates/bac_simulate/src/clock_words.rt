//! How fast clocks go, as words of a script.
ghost use Rattle.std.specs.Prelude.{◌≡◌};
ghost use Rattle.bac_simulate.specs.Lines.{fast_of, rate_of, slow_of};

use bac_value_text::number_up_to;

#[tactic(auto, unfolding(crate::specs::Lines::fast_of))]
fn fast_in(digits: &[u8]) -> Option<u32>
    ensures { result ≡ fast_of digits.now }
{
    let parts = number_up_to(1_000, digits)?;
    Some(1_000_000 + parts as u32)
}

#[tactic(auto, unfolding(crate::specs::Lines::slow_of))]
fn slow_in(digits: &[u8]) -> Option<u32>
    ensures { result ≡ slow_of digits.now }
{
    let parts = number_up_to(1_000, digits)?;
    if parts >= 1 {
        Some(1_000_000 - parts as u32)
    } else {
        None
    }
}

/// The rate of a clock: how many parts it goes on while a million of real time pass. The word says by how many parts in a million it is fast, or slow
/// after a minus: -1,000 to 1,000.
pub(crate) fn rate_in(word: &[u8]) -> Option<u32>
    ensures { result ≡ rate_of word.now }
{
    match word {
        [b'-', digits @ ..] => slow_in(digits),
        _ => fast_in(word),
    }
}
