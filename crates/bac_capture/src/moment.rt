//! The timestamps of frames.
ghost use Rattle.std.specs.Prelude.{◌≡◌, ◌≤◌, drop, length};
ghost use Rattle.bac_capture.specs.Orders.{number_of};
ghost use Rattle.bac_capture.specs.Moments.{block_moment, option_len, record_moment, milliseconds_of, resolution_in, resolution_of};

use crate::order::Order;

/// The code of the option that ends the options.
const END: u16 = 0;

/// The code of the option for the unit of timestamps.
const RESOLUTION: u16 = 9;

/// The greatest number of options of an interface that are read.
pub(crate) const OPTION_LIMIT: usize = 64;

/// The exponent if there is no such option: microseconds.
const MICROSECONDS: u8 = 6;

/// The unit of timestamps.
#[derive(Clone, Copy, Debug, PartialEq, Eq)]
pub enum Resolution {
    Milliseconds,
    Microseconds,
    Nanoseconds,
}

impl Resolution {
    /// This many units in whole milliseconds.
    fn milliseconds(self, count: u64) -> u64
        ensures { result ≡ milliseconds_of self count }
    {
        match self {
            Resolution::Milliseconds => count,
            Resolution::Microseconds => count / 1_000,
            Resolution::Nanoseconds => count / 1_000_000,
        }
    }
}

/// The timestamp of a pcap record in milliseconds: seconds, and units in addition.
pub(crate) fn record_moment(
    resolution: Option<Resolution>,
    order: Order,
    head: &[u8],
) -> Option<u64>
    requires { 8 ≤ length head.now }
    ensures { result ≡ record_moment resolution order head.now }
{
    let resolution = resolution?;
    let seconds = u64::from(order.long(head));
    let beside = u64::from(order.long(&head[4..]));
    Some(seconds * 1_000 + resolution.milliseconds(beside))
}

/// The timestamp of a pcapng block in milliseconds: a count of units, upper half first.
pub(crate) fn block_moment(resolution: Option<Resolution>, order: Order, body: &[u8]) -> Option<u64>
    requires { 8 ≤ length body.now }
    ensures { result ≡ block_moment resolution order body.now }
{
    let resolution = resolution?;
    let upper = u64::from(order.long(body));
    let lower = u64::from(order.long(&body[4..]));
    Some(resolution.milliseconds(upper * 0x1_0000_0000 + lower))
}

/// The unit that is 10 to the power of minus this exponent, in seconds.
pub(crate) fn resolution_of(exponent: u8) -> Option<Resolution>
    ensures { result ≡ resolution_of exponent }
{
    match exponent {
        3 => Some(Resolution::Milliseconds),
        6 => Some(Resolution::Microseconds),
        9 => Some(Resolution::Nanoseconds),
        _ => None,
    }
}

/// The options after the first one.
fn after_option(order: Order, options: &[u8]) -> &[u8]
    requires { 5 ≤ length options.now }
    ensures { result.now ≡ drop (option_len (number_of order 2 (drop 2 options.now))) options.now }
{
    let size = order.word(&options[2..]);
    let len = 4 + usize::from(size).div_ceil(4) * 4;
    &options[len.min(options.len())..]
}

/// The exponent in the options of an interface, of which at most this many are read.
pub(crate) fn resolution_in(limit: usize, order: Order, options: &[u8]) -> u8
    ensures { result ≡ resolution_in limit order options.now }
{
    let mut left = options;
    for _ in 0..limit {
        if left.len() < 5 {
            return MICROSECONDS;
        }
        let code = order.word(left);
        if code == END {
            return MICROSECONDS;
        }
        if code == RESOLUTION {
            return left[4];
        }
        left = after_option(order, left);
    }
    MICROSECONDS
}
