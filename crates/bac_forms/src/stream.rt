//! Hexadecimal digits, a datagram on each line: in groups of whole octets, with spaces, tabs or colons between them and `0x` before a group or not.
ghost use Rattle.std.specs.Prelude.{◌≡◌};
ghost use Rattle.bac_forms.specs.Stream.{digit_or, first, goes_on, is_gap, low, on_gap, on_line, on_note, stream_end, stream_step};

use crate::digits::{is_digit, pair_of};
use crate::gathered::Event;

/// What stands before a character of lines of digits.
#[derive(Clone, Copy)]
pub(crate) enum Stream {
    /// Nothing on the line.
    Line,
    /// Blanks alone on the line.
    Blank,
    /// A `#`, with which a note begins.
    Note,
    /// A blank behind a group.
    Gap,
    /// An octet.
    Group,
    /// `0x`.
    Prefix,
    /// The first digit of a group.
    First(u8),
    /// The first digit of a later octet.
    Low(u8),
}

type Step = Option<(Stream, Event)>;

fn goes_on(place: Stream) -> Step
    ensures { result ≡ goes_on place }
{
    Some((place, Event::Nothing))
}

/// A space, a tab, a colon or a carriage return.
fn is_gap(octet: u8) -> bool
    ensures { result ≡ is_gap octet }
{
    octet == b' ' || octet == b'\t' || octet == b':' || octet == b'\r'
}

/// What stands behind a digit; None where the character is none.
fn digit_or(place: Stream, octet: u8) -> Step
    ensures { result ≡ digit_or place octet }
{
    if is_digit(octet) {
        goes_on(place)
    } else {
        None
    }
}

fn on_line(octet: u8) -> Step
    ensures { result ≡ on_line octet }
{
    if octet == b'\n' {
        goes_on(Stream::Line)
    } else if is_gap(octet) {
        goes_on(Stream::Blank)
    } else {
        digit_or(Stream::First(octet), octet)
    }
}

fn on_note(octet: u8) -> Step
    ensures { result ≡ on_note octet }
{
    if octet == b'\n' {
        goes_on(Stream::Line)
    } else {
        goes_on(Stream::Note)
    }
}

/// Behind a group or a blank after it; a digit stands at that place.
fn on_gap(place: Stream, octet: u8) -> Step
    ensures { result ≡ on_gap place octet }
{
    if octet == b'\n' {
        Some((Stream::Line, Event::End))
    } else if is_gap(octet) {
        goes_on(Stream::Gap)
    } else {
        digit_or(place, octet)
    }
}

fn low(digit: u8, octet: u8) -> Step
    ensures { result ≡ low digit octet }
{
    match pair_of(digit, octet) {
        Some(pair) => Some((Stream::Group, Event::Octet(pair))),
        None => None,
    }
}

fn first(digit: u8, octet: u8) -> Step
    ensures { result ≡ first digit octet }
{
    if digit == b'0' && octet == b'x' {
        goes_on(Stream::Prefix)
    } else {
        low(digit, octet)
    }
}

impl Stream {
    /// What a character adds, and what stands before the one after it; None where it does not fit.
    pub(crate) fn step(self, octet: u8) -> Option<(Stream, Event)>
        ensures { result ≡ stream_step self octet }
    {
        match self {
            Stream::Line if octet == b'#' => goes_on(Stream::Note),
            Stream::Line | Stream::Blank => on_line(octet),
            Stream::Note => on_note(octet),
            Stream::Gap => on_gap(Stream::First(octet), octet),
            Stream::Group => on_gap(Stream::Low(octet), octet),
            Stream::Prefix => digit_or(Stream::Low(octet), octet),
            Stream::First(digit) => first(digit, octet),
            Stream::Low(digit) => low(digit, octet),
        }
    }

    /// What the end of the text adds; None where it does not fit.
    pub(crate) fn end(self) -> Option<Event>
        ensures { result ≡ stream_end self }
    {
        match self {
            Stream::Line | Stream::Blank | Stream::Note => Some(Event::Nothing),
            Stream::Gap | Stream::Group => Some(Event::End),
            Stream::Prefix | Stream::First(_) | Stream::Low(_) => None,
        }
    }
}
