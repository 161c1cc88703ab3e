//! A datagram as one object.
ghost use Rattle.std.specs.Prelude.{◌≡◌, IfOk, OnOk};
ghost use Rattle.bac_json.specs.Datagrams.{layers_view};
ghost use Rattle.bac_json.specs.Forms.{string_or_null};
ghost use Rattle.bac_json_report.specs.Datagrams.{IsDatagramForm, IsDatagramLine, IsDatagramText, bad_line_form, datagram_members, optional_fault};
ghost use Rattle.bac_json_report.specs.Lines.{IsLineOf};
ghost use Rattle.bac_json_report.specs.Names.{name_at};
ghost use Rattle.bac_text.specs.Texts.{AppendsText};
ghost use Rattle.serde_json.specs.View.{view};

use crate::fault::{fault_json, outer_fault_json};
use crate::line::print_json;
use crate::names::name_of;
use bac_json::{Layers, Members, datagram_layers};
use bac_text::{LayerFault, check_datagram};
use bac_value::NoMemory;
use serde_json::Value as Json;
use std::alloc::{AllocError, Global};
use std::io;
use std::io::{ErrorKind, Write};

/// A fault; Null where there is none.
fn optional_fault(alloc: Global, fault: Option<LayerFault>) -> Result<Json, AllocError>
    ensures { IfOk result (λ v. view v ≡ optional_fault fault) }
{
    match fault {
        Some(fault) => fault_json(alloc, fault),
        None => Ok(Json::Null),
    }
}

/// The name of what a datagram is; Null where it has none.
fn name_json(alloc: Global, datagram: &[u8]) -> Result<Json, AllocError>
    ensures { IfOk result (λ v. view v ≡ string_or_null (name_at datagram.now)) }
{
    match name_of(datagram) {
        Some(name) => Json::try_from_str(alloc, name),
        None => Ok(Json::Null),
    }
}

/// An object with these members.
fn datagram_object(
    alloc: Global,
    line: u64,
    length: Json,
    fault: Json,
    name: Json,
    layers: Layers,
) -> Result<Json, AllocError>
    ensures { IfOk result (λ v. view v ≡ datagram_members line (view length) (view fault) (view name) (layers_view layers)) }
{
    Members::new(alloc)
        .json("apdu", layers.apdu)
        .json("fault", fault)
        .json("length", length)
        .number("line", line)
        .json("name", name)
        .json("npdu", layers.npdu)
        .json("service", layers.service)
        .end()
}

/// A datagram, with the number of its line: how many octets it has, its layers, the standard's name for what it is, and its fault. An Err is out of memory.
pub fn datagram_json(
    alloc: Global,
    line: u64,
    datagram: &[u8],
    fault: Option<LayerFault>,
) -> Result<Json, NoMemory>
    ensures { IfOk result (λ v. IsDatagramForm line datagram.now fault (view v)) }
{
    let layers = datagram_layers(alloc, datagram)?;
    let fault = optional_fault(alloc, fault)?;
    let name = name_json(alloc, datagram)?;
    let length = Json::from(datagram.len());
    Ok(datagram_object(alloc, line, length, fault, name, layers)?)
}

fn print_datagram<W: Write>(
    alloc: Global,
    line: u64,
    datagram: &[u8],
    fault: Option<LayerFault>,
    out: &mut W,
) -> io::Result<()>
    ensures { OnOk result (AppendsText (W.contents out.old) (W.contents out.new) (IsDatagramLine line datagram.now fault)) }
{
    let Ok(json) = datagram_json(alloc, line, datagram, fault) else {
        return Err(io::Error::from(ErrorKind::OutOfMemory));
    };
    print_json(alloc, &json, out)
}

/// Prints a datagram as one object, with the number of its line. Answers whether it has no fault.
#[tactic(auto, using(crate::proofs::Printed::shown_fine, crate::proofs::Printed::shown_faulty))]
pub(crate) fn show_datagram<W: Write>(
    alloc: Global,
    line: u64,
    datagram: &[u8],
    out: &mut W,
) -> io::Result<bool>
    ensures { IfOk result (λ fine. AppendsText (W.contents out.old) (W.contents out.new) (IsDatagramText line fine datagram.now)) }
{
    match check_datagram(datagram) {
        Ok(()) => {
            print_datagram(alloc, line, datagram, None, out)?;
            Ok(true)
        }
        Err(fault) => {
            print_datagram(alloc, line, datagram, Some(fault), out)?;
            Ok(false)
        }
    }
}

fn bad_line_json(alloc: Global, line: u64) -> Result<Json, AllocError>
    ensures { IfOk result (λ v. view v ≡ bad_line_form line) }
{
    let fault = outer_fault_json(alloc, "line", "bad hex")?;
    let layers = Layers {
        npdu: Json::Null,
        apdu: Json::Null,
        service: Json::Null,
    };
    datagram_object(alloc, line, Json::Null, fault, Json::Null, layers)
}

/// Prints that a line is no hexadecimal.
pub(crate) fn show_bad_line<W: Write>(alloc: Global, line: u64, out: &mut W) -> io::Result<()>
    ensures { OnOk result (AppendsText (W.contents out.old) (W.contents out.new) (IsLineOf (λ d. d ≡ bad_line_form line))) }
{
    let json = bad_line_json(alloc, line)?;
    print_json(alloc, &json, out)
}
