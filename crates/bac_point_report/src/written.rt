//! Values to be written, as people write them.
ghost use Rattle.std.specs.Prelude.{◌≡◌, IfOk, IfSome, MatchResult};
ghost use Rattle.bac_value.specs.Views.{value_view};
ghost use Rattle.bac_value.specs.Writing.{value_spelling};
ghost use Rattle.bac_service.specs.Views.{property_reference_view};
ghost use Rattle.bac_point_report.specs.Written.{AreValuesFor, IsFaultFor, IsOnlyKind, kind_named, meant, number_kind_named, string_kind_named};

use bac_point_text::{Kind, WrittenFault, enumeration_of, value_as_written};
use bac_service::PropertyReference;
use bac_value::{Data, DataBuf, NoMemory, Value, value_of, write_value};
use std::alloc::Global;

/// The kind of the only value that there is. None if there is none, more than one, a Null, or one of no kind. An Err is out of memory.
pub fn kind_in(alloc: Global, values: Data<'_>) -> Result<Option<Kind>, NoMemory>
    ensures { IfOk result (λ o. IfSome o (λ kind. IsOnlyKind kind values.entry.octets.now)) }
{
    let Some((element, others)) = values.elements().split_first() else {
        return Ok(None);
    };
    if !others.octets.is_empty() {
        return Ok(None);
    }
    let Some(value) = value_of(alloc, element)? else {
        return Ok(None);
    };
    match Kind::of(&value) {
        Kind::Null => Ok(None),
        kind => Ok(Some(kind)),
    }
}

/// The kind of numbers, or of none, with that name.
fn number_kind_named(name: &str) -> Option<Kind>
    ensures { result ≡ number_kind_named name.now }
{
    if name == "null" {
        Some(Kind::Null)
    } else if name == "boolean" {
        Some(Kind::Boolean)
    } else if name == "unsigned" {
        Some(Kind::Unsigned)
    } else if name == "signed" {
        Some(Kind::Signed)
    } else if name == "real" {
        Some(Kind::Real)
    } else if name == "double" {
        Some(Kind::Double)
    } else if name == "enumerated" {
        Some(Kind::Enumerated)
    } else {
        None
    }
}

/// The kind of strings, times or objects with that name.
fn string_kind_named(name: &str) -> Option<Kind>
    ensures { result ≡ string_kind_named name.now }
{
    if name == "octets" {
        Some(Kind::OctetString)
    } else if name == "text" {
        Some(Kind::CharacterString)
    } else if name == "bits" {
        Some(Kind::BitString)
    } else if name == "date" {
        Some(Kind::Date)
    } else if name == "time" {
        Some(Kind::Time)
    } else if name == "object" {
        Some(Kind::ObjectIdentifier)
    } else {
        None
    }
}

/// The kind with that name, as `bac ask` writes it before a value. None if there is none.
pub fn kind_named(name: &str) -> Option<Kind>
    ensures { result ≡ kind_named name.now }
{
    match number_kind_named(name) {
        Some(kind) => Some(kind),
        None => string_kind_named(name),
    }
}

/// A value encoded as data.
fn spelled(alloc: Global, value: &Value) -> Result<DataBuf, NoMemory>
    ensures { IfOk result (λ d. d.octets.items ≡ value_spelling (value_view value.now)) }
{
    let mut octets = Vec::new(alloc);
    write_value(value, &mut octets)?;
    Ok(DataBuf { octets })
}

/// The value which a text means, encoded: it is read as people write it, `null` for none. An Err says why the text is no value of that kind of the property, or
/// that an allocation failed.
pub fn written_values(
    alloc: Global,
    reference: PropertyReference,
    kind: Kind,
    text: &str,
) -> Result<DataBuf, WrittenFault>
    ensures { MatchResult result (λ d. AreValuesFor (meant (property_reference_view reference) kind text.now) d.octets.items)
        (λ f. IsFaultFor (meant (property_reference_view reference) kind text.now) f) }
{
    let names = enumeration_of(reference.object.kind, reference.property);
    let value = value_as_written(alloc, kind, names, text.as_bytes())?;
    match spelled(alloc, &value) {
        Ok(values) => Ok(values),
        Err(_) => Err(WrittenFault::NoMemory),
    }
}
