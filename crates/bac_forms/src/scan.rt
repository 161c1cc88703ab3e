//! What stands before a character of a text, in any form that is read character by character.
ghost use Rattle.std.specs.Prelude.{◌≡◌};
ghost use Rattle.bac_forms.specs.Scans.{scan_end, scan_step};

use crate::array::Array;
use crate::dump::Dump;
use crate::escaped::Escaped;
use crate::gathered::Event;
use crate::stream::Stream;

/// What stands before a character, by form.
#[derive(Clone, Copy)]
pub(crate) enum Scan {
    Stream(Stream),
    Dump(Dump),
    Escaped(Escaped),
    Array(Array),
}

impl Scan {
    /// What a character adds, and what stands before the one after it; None where it does not fit.
    pub(crate) fn step(self, octet: u8) -> Option<(Scan, Event)>
        ensures { result ≡ scan_step self octet }
    {
        match self {
            Scan::Stream(place) => match place.step(octet) {
                Some((next, event)) => Some((Scan::Stream(next), event)),
                None => None,
            },
            Scan::Dump(place) => match place.step(octet) {
                Some((next, event)) => Some((Scan::Dump(next), event)),
                None => None,
            },
            Scan::Escaped(place) => match place.step(octet) {
                Some((next, event)) => Some((Scan::Escaped(next), event)),
                None => None,
            },
            Scan::Array(place) => match place.step(octet) {
                Some((next, event)) => Some((Scan::Array(next), event)),
                None => None,
            },
        }
    }

    /// What the end of the text adds; None where it does not fit.
    pub(crate) fn end(self) -> Option<Event>
        ensures { result ≡ scan_end self }
    {
        match self {
            Scan::Stream(place) => place.end(),
            Scan::Dump(place) => place.end(),
            Scan::Escaped(place) => place.end(),
            Scan::Array(place) => place.end(),
        }
    }
}
