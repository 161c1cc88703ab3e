//! Reading the parameters of APDUs for segments, window sizes and APDU lengths.

ghost use Rattle.std.specs.Prelude.{◌≡◌, ◌<◌, ◌%◌, ◌/◌, IfOk, true, false};
ghost use Rattle.std.specs.Option.{option_map};
ghost use Rattle.bac_value.specs.Steps.{Reads};
ghost use Rattle.bac_apdu.specs.Views.{limits_view, segment_view};
ghost use Rattle.bac_apdu.specs.Reading.{window_at, segment_at, limits_at};

use crate::fault::ApduFault;
use crate::limits::{Limits, Segment, Window};
use crate::octets::octet;

#[tactic(auto, unfolding(crate::specs::Reading::window_at))]
pub(crate) fn window(octets: &[u8]) -> Result<(Window, &[u8]), ApduFault>
    ensures { Reads (λ w. w.size) (λ r. r.now) octets.now result window_at }
{
    let (size, rest) = octet(octets)?;
    match Window::new(size) {
        Some(window) => Ok((window, rest)),
        None => Err(ApduFault::BadWindow),
    }
}

/// Reads the sequence number and the window size, if the APDU is a segment.
#[tactic(auto, unfolding(crate::specs::Reading::segment_at))]
#[inline(always)]
pub(crate) fn segment(
    octets: &[u8],
    is_segment: bool,
    more: bool,
) -> Result<(Option<Segment>, &[u8]), ApduFault>
    ensures { Reads (option_map segment_view) (λ r. r.now) octets.now result (segment_at is_segment more) }
{
    if !is_segment {
        return Ok((None, octets));
    }
    let (number, rest) = octet(octets)?;
    let (window, rest) = window(rest)?;
    let segment = Segment {
        more,
        number,
        window,
    };
    Ok((Some(segment), rest))
}

/// Reads the octet with the two codes.
#[tactic(auto, unfolding(crate::specs::Reading::limits_at))]
pub(crate) fn limits(octets: &[u8], takes_segments: bool) -> Result<(Limits, &[u8]), ApduFault>
    ensures { Reads limits_view (λ r. r.now) octets.now result (limits_at takes_segments) }
{
    let (codes, rest) = octet(octets)?;
    if codes > 127 {
        return Err(ApduFault::ReservedBits);
    }
    match Limits::new(codes % 16, takes_segments, codes / 16) {
        Some(limits) => Ok((limits, rest)),
        None => Err(ApduFault::ReservedCode),
    }
}
