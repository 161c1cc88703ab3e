//! Escaped strings: `"\x81\x0a"`, which a backslash behind them joins with that of the next line.
ghost use Rattle.std.specs.Prelude.{◌≡◌};
ghost use Rattle.bac_forms.specs.Escaped.{before, behind, end, escape, goes_on, high, joined, low, on_next_line, step, within};

use crate::blanks::{is_blank, is_space};
use crate::digits::{is_digit, pair_of};
use crate::gathered::Event;

/// What stands before a character of escaped strings.
#[derive(Clone, Copy)]
pub(crate) enum Escaped {
    /// No string of a datagram.
    Before,
    /// A quote, or an octet.
    Within,
    /// A backslash in a string.
    Escape,
    /// A backslash and an `x`.
    High,
    /// And a digit.
    Low(u8),
    /// A string.
    Behind,
    /// A backslash behind a string.
    Joined,
    /// The end of that line.
    Next,
}

type Step = Option<(Escaped, Event)>;

fn goes_on(place: Escaped) -> Step
    ensures { result ≡ goes_on place }
{
    Some((place, Event::Nothing))
}

fn before(octet: u8) -> Step
    ensures { result ≡ before octet }
{
    if is_space(octet) {
        goes_on(Escaped::Before)
    } else if octet == b'"' {
        goes_on(Escaped::Within)
    } else {
        None
    }
}

fn within(octet: u8) -> Step
    ensures { result ≡ within octet }
{
    if octet == b'\\' {
        goes_on(Escaped::Escape)
    } else if octet == b'"' {
        goes_on(Escaped::Behind)
    } else {
        None
    }
}

fn escape(octet: u8) -> Step
    ensures { result ≡ escape octet }
{
    if octet == b'x' {
        goes_on(Escaped::High)
    } else {
        None
    }
}

fn high(octet: u8) -> Step
    ensures { result ≡ high octet }
{
    if is_digit(octet) {
        goes_on(Escaped::Low(octet))
    } else {
        None
    }
}

fn low(digit: u8, octet: u8) -> Step
    ensures { result ≡ low digit octet }
{
    match pair_of(digit, octet) {
        Some(pair) => Some((Escaped::Within, Event::Octet(pair))),
        None => None,
    }
}

fn behind(octet: u8) -> Step
    ensures { result ≡ behind octet }
{
    if octet == b'\n' {
        Some((Escaped::Before, Event::End))
    } else if is_blank(octet) {
        goes_on(Escaped::Behind)
    } else if octet == b'\\' {
        goes_on(Escaped::Joined)
    } else {
        None
    }
}

fn joined(octet: u8) -> Step
    ensures { result ≡ joined octet }
{
    if octet == b'\n' {
        goes_on(Escaped::Next)
    } else if is_blank(octet) {
        goes_on(Escaped::Joined)
    } else {
        None
    }
}

fn on_next_line(octet: u8) -> Step
    ensures { result ≡ on_next_line octet }
{
    if octet == b'"' {
        goes_on(Escaped::Within)
    } else if is_blank(octet) {
        goes_on(Escaped::Next)
    } else {
        None
    }
}

impl Escaped {
    /// What a character adds, and what stands before the one after it; None where it does not fit.
    pub(crate) fn step(self, octet: u8) -> Option<(Escaped, Event)>
        ensures { result ≡ step self octet }
    {
        match self {
            Escaped::Before => before(octet),
            Escaped::Within => within(octet),
            Escaped::Escape => escape(octet),
            Escaped::High => high(octet),
            Escaped::Low(digit) => low(digit, octet),
            Escaped::Behind => behind(octet),
            Escaped::Joined => joined(octet),
            Escaped::Next => on_next_line(octet),
        }
    }

    /// What the end of the text adds; None where it does not fit.
    pub(crate) fn end(self) -> Option<Event>
        ensures { result ≡ end self }
    {
        match self {
            Escaped::Before => Some(Event::Nothing),
            Escaped::Behind => Some(Event::End),
            _ => None,
        }
    }
}
