//! Reading a text in a form.
ghost use Rattle.std.specs.Prelude.{◌≡◌, ◌≤◌, length, Ok, IfOk, IfErr};
ghost use Rattle.bac_forms.specs.Reading.{IsFormFault, IsMisfit, octets_of, reading_of};

use crate::array::Array;
use crate::dump::begun;
use crate::escaped::Escaped;
use crate::fault::{FormFault, ScanFault};
use crate::form::Form;
use crate::lines::read_base64;
use crate::place::position_of;
use crate::scan::Scan;
use crate::scanning::scan_text;
use crate::stream::Stream;
use std::alloc::Global;

/// The datagrams of a text; or how many characters stand before the first that does not fit.
fn read(alloc: Global, form: Form, text: &[u8]) -> Result<Vec<Vec<u8>>, ScanFault>
    ensures datagrams { IfOk result (λ d. reading_of form text.now ≡ Ok (octets_of d.items)) }
    ensures misfit { IfErr result (IsMisfit (reading_of form text.now)) }
{
    match form {
        Form::Hex => scan_text(alloc, Scan::Stream(Stream::Line), text),
        Form::HexDump => scan_text(alloc, Scan::Dump(begun()), text),
        Form::Escaped => scan_text(alloc, Scan::Escaped(Escaped::Before), text),
        Form::CArray => scan_text(alloc, Scan::Array(Array::Outside), text),
        Form::Base64 => read_base64(alloc, text),
    }
}

/// Reads the datagrams of a text in that form, in order. `Misfit` has the first character that does not fit, with its line and column; where the text
/// ends too early none, and the place behind its last character.
pub fn read_datagrams(alloc: Global, form: Form, text: &[u8]) -> Result<Vec<Vec<u8>>, FormFault>
    ensures datagrams { IfOk result (λ d. reading_of form text.now ≡ Ok (octets_of d.items)) }
    ensures misfit { IfErr result (IsFormFault (reading_of form text.now) text.now) }
{
    match read(alloc, form, text) {
        Ok(datagrams) => Ok(datagrams),
        Err(ScanFault::At(place)) => Err(FormFault::Misfit {
            position: position_of(&text[..place.min(text.len())]),
            found: text.get(place).copied(),
        }),
        Err(ScanFault::NoMemory) => Err(FormFault::NoMemory),
    }
}
