//! Hex dumps: lines of an offset, up to 16 octets, and their characters or not.
ghost use Rattle.std.specs.Prelude.{◌≡◌, ◌<◌};
ghost use Rattle.bac_forms.specs.Dump.{after_blank, begin_line, dump_end, dump_step, end_offset, ends_offset, gap, low, more_offset, offset, on_characters, on_start, begun, stays};

use crate::blanks::{is_blank, is_space};
use crate::digits::{digit_of, is_digit, pair_of};
use crate::gathered::Event;

/// Most octets of a line.
const ROW: u8 = 16;

/// What stands before a character of a dump.
#[derive(Clone, Copy)]
pub(crate) enum Column {
    /// Nothing on the line.
    Start,
    /// Digits of the offset, which are so much.
    Offset(u16),
    /// So many octets of the line, and so many blanks behind them.
    Gap { row: u8, blanks: u8 },
    /// The first digit of the octet with that number in the line.
    Low { row: u8, digit: u8 },
    /// The octets of the line, and blanks.
    Characters,
}

/// What stands before a character of a dump, and how many octets of its datagram.
#[derive(Clone, Copy)]
pub(crate) struct Dump {
    pub(crate) octets: u16,
    pub(crate) column: Column,
}

type Step = Option<(Dump, Event)>;

/// Nothing of a dump.
pub(crate) fn begun() -> Dump
    ensures { result ≡ begun }
{
    Dump {
        octets: 0,
        column: Column::Start,
    }
}

fn stays(octets: u16, column: Column) -> Step
    ensures { result ≡ stays octets column }
{
    Some((Dump { octets, column }, Event::Nothing))
}

fn on_start(octets: u16, octet: u8) -> Step
    ensures { result ≡ on_start octets octet }
{
    if is_space(octet) {
        return stays(octets, Column::Start);
    }
    match digit_of(octet) {
        Some(digit) => stays(octets, Column::Offset(u16::from(digit))),
        None => None,
    }
}

/// What begins behind an offset: that of the next octet, or 0, with which the next datagram begins.
fn begin_line(octets: u16, offset: u16, column: Column) -> Step
    ensures { result ≡ begin_line octets offset column }
{
    if offset == octets {
        stays(octets, column)
    } else if offset == 0 {
        Some((Dump { octets: 0, column }, Event::End))
    } else {
        None
    }
}

/// Whether the character ends an offset: a blank or a colon.
fn ends_offset(octet: u8) -> bool
    ensures { result ≡ ends_offset octet }
{
    is_blank(octet) || octet == b':'
}

fn end_offset(octets: u16, offset: u16, octet: u8) -> Step
    ensures { result ≡ end_offset octets offset octet }
{
    if octet == b'\n' {
        begin_line(octets, offset, Column::Start)
    } else if ends_offset(octet) {
        begin_line(octets, offset, Column::Gap { row: 0, blanks: 0 })
    } else {
        None
    }
}

/// The offset with another digit; None above 65,535.
fn more_offset(offset: u16, digit: u8) -> Option<u16>
    requires { digit < 16 }
    ensures { result ≡ more_offset offset digit }
{
    if offset < 4_096 {
        Some(offset * 16 + u16::from(digit))
    } else {
        None
    }
}

fn offset(octets: u16, before: u16, octet: u8) -> Step
    ensures { result ≡ offset octets before octet }
{
    let Some(digit) = digit_of(octet) else {
        return end_offset(octets, before, octet);
    };
    match more_offset(before, digit) {
        Some(offset) => stays(octets, Column::Offset(offset)),
        None => None,
    }
}

/// What stands behind a blank more. Octets are two blanks apart at most in the middle of a line; else two blanks, and there three, end them.
fn after_blank(row: u8, blanks: u8) -> Column
    ensures { result ≡ after_blank row blanks }
{
    if row == 0 {
        Column::Gap { row, blanks: 0 }
    } else if blanks == 0 {
        Column::Gap { row, blanks: 1 }
    } else if blanks == 1 && row == 8 {
        Column::Gap { row, blanks: 2 }
    } else {
        Column::Characters
    }
}

fn gap(octets: u16, row: u8, blanks: u8, octet: u8) -> Step
    ensures { result ≡ gap octets row blanks octet }
{
    if octet == b'\n' {
        stays(octets, Column::Start)
    } else if is_blank(octet) {
        stays(octets, after_blank(row, blanks))
    } else if is_digit(octet) && row < ROW {
        stays(
            octets,
            Column::Low {
                row: row + 1,
                digit: octet,
            },
        )
    } else {
        None
    }
}

fn low(octets: u16, row: u8, digit: u8, octet: u8) -> Step
    ensures { result ≡ low octets row digit octet }
{
    if octets == u16::MAX {
        return None;
    }
    let Some(pair) = pair_of(digit, octet) else {
        return None;
    };
    let column = Column::Gap { row, blanks: 0 };
    Some((
        Dump {
            octets: octets + 1,
            column,
        },
        Event::Octet(pair),
    ))
}

fn on_characters(octets: u16, octet: u8) -> Step
    ensures { result ≡ on_characters octets octet }
{
    if octet == b'\n' {
        stays(octets, Column::Start)
    } else {
        stays(octets, Column::Characters)
    }
}

impl Dump {
    /// What a character adds, and what stands before the one after it; None where it does not fit.
    pub(crate) fn step(self, octet: u8) -> Option<(Dump, Event)>
        ensures { result ≡ dump_step self octet }
    {
        let octets = self.octets;
        match self.column {
            Column::Start => on_start(octets, octet),
            Column::Offset(before) => offset(octets, before, octet),
            Column::Gap { row, blanks } => gap(octets, row, blanks, octet),
            Column::Low { row, digit } => low(octets, row, digit, octet),
            Column::Characters => on_characters(octets, octet),
        }
    }

    /// What the end of the text adds; None where it does not fit.
    pub(crate) fn end(self) -> Option<Event>
        ensures { result ≡ dump_end self }
    {
        let last = if self.octets == 0 {
            Event::Nothing
        } else {
            Event::End
        };
        match self.column {
            Column::Offset(_) | Column::Low { .. } => None,
            Column::Start | Column::Gap { .. } | Column::Characters => Some(last),
        }
    }
}
