//! The parameters of APDUs for segments, window sizes and APDU lengths, each within its range.

ghost use Rattle.std.specs.Prelude.{◌≡◌, ◌<◌, ◌↔◌, IsTrue, IsSome, IfSome, nat_lt, ◌&&◌};
ghost use Rattle.bac_apdu.specs.Spelling.{window_fits, codes_fit};

/// A window size: how many segments, 1 to 127, are sent before waiting for a SegmentACK (clauses 20.1.2.8 and 20.1.6.5).
#[derive(Clone, Copy, Debug, PartialEq, Eq)]
pub struct Window {
    /// The number of segments, 1 to 127.
    pub size: u8,
    pub ghost fits: { IsTrue (window_fits size) },
}

impl Window {
    /// The window size; None if it is 0 or above 127.
    pub fn new(size: u8) -> Option<Window>
        ensures some { IsSome result ↔ IsTrue (window_fits size) }
        ensures same { IfSome result (λ w. w.size ≡ size) }
    {
        if size > 0 && size < 128 {
            Some(Window { size })
        } else {
            None
        }
    }
}

/// The segmentation parameters of a segment (clauses 20.1.2.1, 20.1.2.2, 20.1.2.7 and 20.1.2.8).
#[derive(Clone, Copy, Debug, PartialEq, Eq)]
pub struct Segment {
    /// Whether more segments follow.
    pub more: bool,
    /// The sequence number, modulo 256.
    pub number: u8,
    /// The proposed window size.
    pub window: Window,
}

/// What the sender of a request accepts as response: whether it may be segmented, and codes for how many segments and how long APDUs
/// (clauses 20.1.2.3 to 20.1.2.5).
///
/// The segment codes are 0 (unspecified), 1 to 6 (2, 4, 8, 16, 32, 64) and 7 (more than 64). The APDU length codes are 0 to 5
/// (50, 128, 206, 480, 1,024, 1,476 octets).
#[derive(Clone, Copy, Debug, PartialEq, Eq)]
pub struct Limits {
    /// The code of the maximum APDU length, 0 to 5.
    pub max_apdu: u8,
    /// Whether a segmented response is accepted.
    pub takes_segments: bool,
    /// The code of the maximum number of segments, 0 to 7.
    pub max_segments: u8,
    pub ghost fits: { IsTrue (codes_fit max_segments max_apdu) },
}

impl Limits {
    /// The limits; None if the length code is above 5 or the segment code above 7.
    pub fn new(max_apdu: u8, takes_segments: bool, max_segments: u8) -> Option<Limits>
        ensures some { IsSome result ↔ IsTrue (codes_fit max_segments max_apdu) }
        ensures same { IfSome result (λ l. (l.max_apdu ≡ max_apdu) × (l.takes_segments ≡ takes_segments) × (l.max_segments ≡ max_segments)) }
    {
        if max_apdu < 6 && max_segments < 8 {
            Some(Limits {
                max_apdu,
                takes_segments,
                max_segments,
            })
        } else {
            None
        }
    }
}
