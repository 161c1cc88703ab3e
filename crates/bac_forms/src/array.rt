//! Arrays of C: `{ 0x81, 0x0a }`, behind their declarations, and comments.
ghost use Rattle.std.specs.Prelude.{◌≡◌};
ghost use Rattle.bac_forms.specs.Array.{behind, between, comment, end, goes_on, high, in_declaration, low, opens, outside, returns, star, step, zero};

use crate::blanks::is_space;
use crate::digits::{is_digit, pair_of};
use crate::gathered::Event;

/// Where a comment stands.
#[derive(Clone, Copy)]
pub(crate) enum Around {
    /// Outside of arrays.
    Outside,
    /// Before an item.
    Between,
    /// Behind an item.
    Behind,
}

/// What stands before a character of arrays.
#[derive(Clone, Copy)]
pub(crate) enum Array {
    /// No array that is open.
    Outside,
    /// A brace or a comma.
    Between,
    /// A zero.
    Zero,
    /// `0x`.
    High,
    /// And a digit.
    Low(u8),
    /// An item.
    Behind,
    /// A slash.
    Opens(Around),
    /// A part of a comment.
    Comment(Around),
    /// And an asterisk.
    Star(Around),
}

type Step = Option<(Array, Event)>;

fn goes_on(place: Array) -> Step
    ensures { result ≡ goes_on place }
{
    Some((place, Event::Nothing))
}

/// Whether a declaration may have the character: a letter, a digit, `_`, `[`, `]`, `=`, `*` or `;`, or a blank.
fn in_declaration(octet: u8) -> bool
    ensures { result ≡ in_declaration octet }
{
    octet.is_ascii_alphanumeric()
        || is_space(octet)
        || octet == b'_'
        || octet == b'['
        || octet == b']'
        || octet == b'='
        || octet == b'*'
        || octet == b';'
}

fn outside(octet: u8) -> Step
    ensures { result ≡ outside octet }
{
    if octet == b'{' {
        goes_on(Array::Between)
    } else if octet == b'/' {
        goes_on(Array::Opens(Around::Outside))
    } else if in_declaration(octet) {
        goes_on(Array::Outside)
    } else {
        None
    }
}

fn between(octet: u8) -> Step
    ensures { result ≡ between octet }
{
    if octet == b'0' {
        goes_on(Array::Zero)
    } else if is_space(octet) {
        goes_on(Array::Between)
    } else if octet == b'}' {
        Some((Array::Outside, Event::End))
    } else if octet == b'/' {
        goes_on(Array::Opens(Around::Between))
    } else {
        None
    }
}

fn zero(octet: u8) -> Step
    ensures { result ≡ zero octet }
{
    if octet == b'x' || octet == b'X' {
        goes_on(Array::High)
    } else {
        None
    }
}

fn high(octet: u8) -> Step
    ensures { result ≡ high octet }
{
    if is_digit(octet) {
        goes_on(Array::Low(octet))
    } else {
        None
    }
}

fn low(digit: u8, octet: u8) -> Step
    ensures { result ≡ low digit octet }
{
    match pair_of(digit, octet) {
        Some(pair) => Some((Array::Behind, Event::Octet(pair))),
        None => None,
    }
}

fn behind(octet: u8) -> Step
    ensures { result ≡ behind octet }
{
    if octet == b',' {
        goes_on(Array::Between)
    } else if is_space(octet) {
        goes_on(Array::Behind)
    } else if octet == b'}' {
        Some((Array::Outside, Event::End))
    } else if octet == b'/' {
        goes_on(Array::Opens(Around::Behind))
    } else {
        None
    }
}

fn opens(around: Around, octet: u8) -> Step
    ensures { result ≡ opens around octet }
{
    if octet == b'*' {
        goes_on(Array::Comment(around))
    } else {
        None
    }
}

fn comment(around: Around, octet: u8) -> Step
    ensures { result ≡ comment around octet }
{
    if octet == b'*' {
        goes_on(Array::Star(around))
    } else {
        goes_on(Array::Comment(around))
    }
}

/// What stands before the character behind a comment.
fn returns(around: Around) -> Array
    ensures { result ≡ returns around }
{
    match around {
        Around::Outside => Array::Outside,
        Around::Between => Array::Between,
        Around::Behind => Array::Behind,
    }
}

fn star(around: Around, octet: u8) -> Step
    ensures { result ≡ star around octet }
{
    if octet == b'/' {
        goes_on(returns(around))
    } else {
        comment(around, octet)
    }
}

impl Array {
    /// What a character adds, and what stands before the one after it; None where it does not fit.
    pub(crate) fn step(self, octet: u8) -> Option<(Array, Event)>
        ensures { result ≡ step self octet }
    {
        match self {
            Array::Outside => outside(octet),
            Array::Between => between(octet),
            Array::Zero => zero(octet),
            Array::High => high(octet),
            Array::Low(digit) => low(digit, octet),
            Array::Behind => behind(octet),
            Array::Opens(around) => opens(around, octet),
            Array::Comment(around) => comment(around, octet),
            Array::Star(around) => star(around, octet),
        }
    }

    /// What the end of the text adds; None where it does not fit.
    pub(crate) fn end(self) -> Option<Event>
        ensures { result ≡ end self }
    {
        match self {
            Array::Outside => Some(Event::Nothing),
            _ => None,
        }
    }
}
