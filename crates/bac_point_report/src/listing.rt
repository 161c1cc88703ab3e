//! The objects of a device, by its object-list.
ghost use Rattle.std.specs.Prelude.{◌≡◌, ℕ, map, IfOk, MatchOption};
ghost use Rattle.std.specs.Option.{option_map};
ghost use Rattle.bac_ask_report.specs.Records.{outcome_view};
ghost use Rattle.bac_service.specs.Views.{property_reference_view};
ghost use Rattle.bac_value.specs.Meaning.{IsValueOf};
ghost use Rattle.bac_value.specs.Value.{ObjectId, object as datum, unsigned};
ghost use Rattle.bac_value.specs.Views.{element_view, object_identifier_view, value_view};
ghost use Rattle.bac_point_report.specs.Listing.{AreNoObjects, AreNoObjectsOf, AreObjects, AreObjectsOf, IsNoNumber, IsNoNumberOf, IsNumber, IsNumberOf, IsStep};
ghost use Rattle.bac_point_report.specs.Listing.{is_aborted, object_in, unsigned_in};

use crate::outcome::values_of;
use bac_ask_report::Outcome;
use bac_service::{AnyRequest, PropertyReference};
use bac_value::{Data, Element, NoMemory, ObjectIdentifier, Value, value_of};
use std::alloc::Global;

/// What follows from how the read of an object-list ended.
#[derive(Drop)]
pub enum ListStep {
    /// These are the objects.
    Objects(Vec<ObjectIdentifier>),
    /// The list does not come as a whole: its number of elements, and then each element, can be read.
    InParts,
    /// It was not answered with objects.
    Failed,
}

/// The object that a value is.
fn object_in(value: &Value) -> Option<ObjectIdentifier>
    ensures { option_map object_identifier_view result ≡ object_in (value_view value.now) }
{
    match value {
        Value::ObjectIdentifier(object) => Some(*object),
        Value::Null => None,
        Value::Boolean(_) => None,
        Value::Unsigned(_) => None,
        Value::Signed(_) => None,
        Value::Real(_) => None,
        Value::Double(_) => None,
        Value::OctetString(_) => None,
        Value::CharacterString(_) => None,
        Value::BitString(_) => None,
        Value::Enumerated(_) => None,
        Value::Date(_) => None,
        Value::Time(_) => None,
    }
}

/// The object that an element is; None exactly if it is none.
#[tactic(auto, using(crate::proofs::Objects::object_told))]
fn object_of(alloc: Global, element: Element<&[u8]>) -> Result<Option<ObjectIdentifier>, NoMemory>
    ensures { IfOk result (λ o. MatchOption o ((i : ObjectId) → IsValueOf (datum i) (element_view (λ s. s.now) element.entry) → ⊥)
        (λ i. IsValueOf (datum (object_identifier_view i)) (element_view (λ s. s.now) element.entry))) }
{
    match value_of(alloc, element)? {
        Some(value) => Ok(object_in(&value)),
        None => Ok(None),
    }
}

/// The objects that values are; None exactly if one is no object.
fn objects_in(alloc: Global, values: Data<'_>) -> Result<Option<Vec<ObjectIdentifier>>, NoMemory>
    ensures { IfOk result (λ o. MatchOption o (AreNoObjects values.entry.octets.now)
        (λ objects. AreObjects (map object_identifier_view objects.items) values.entry.octets.now)) }
{
    let mut objects = Vec::new(alloc);
    let mut rest = values.elements();
    while let Some((element, more)) = rest.split_first() {
        let Some(object) = object_of(alloc, element)? else {
            return Ok(None);
        };
        objects.push(object)?;
        rest = more;
    }
    Ok(Some(objects))
}

/// The objects with which a read of a property was answered; None exactly if it was not answered with objects. An Err is out of memory.
pub fn objects_of(
    alloc: Global,
    reference: PropertyReference,
    outcome: Outcome<'_>,
) -> Result<Option<Vec<ObjectIdentifier>>, NoMemory>
    ensures { IfOk result (λ o. MatchOption o (AreNoObjectsOf (property_reference_view reference) (outcome_view outcome.entry))
        (λ objects. AreObjectsOf (property_reference_view reference) (outcome_view outcome.entry) (map object_identifier_view objects.items))) }
{
    match values_of(AnyRequest::ReadProperty(reference), outcome) {
        Some(values) => objects_in(alloc, values),
        None => Ok(None),
    }
}

/// The number that a value is.
fn unsigned_in(value: &Value) -> Option<u64>
    ensures { result ≡ unsigned_in (value_view value.now) }
{
    match value {
        Value::Unsigned(number) => Some(*number),
        Value::Null => None,
        Value::Boolean(_) => None,
        Value::Signed(_) => None,
        Value::Real(_) => None,
        Value::Double(_) => None,
        Value::OctetString(_) => None,
        Value::CharacterString(_) => None,
        Value::BitString(_) => None,
        Value::Enumerated(_) => None,
        Value::Date(_) => None,
        Value::Time(_) => None,
        Value::ObjectIdentifier(_) => None,
    }
}

/// The number that an element is; None exactly if it is none.
#[tactic(auto, using(crate::proofs::Numbers::number_told))]
fn unsigned_of(alloc: Global, element: Element<&[u8]>) -> Result<Option<u64>, NoMemory>
    ensures { IfOk result (λ o. MatchOption o ((n : ℕ) → IsValueOf (unsigned n) (element_view (λ s. s.now) element.entry) → ⊥)
        (λ n. IsValueOf (unsigned n) (element_view (λ s. s.now) element.entry))) }
{
    match value_of(alloc, element)? {
        Some(value) => Ok(unsigned_in(&value)),
        None => Ok(None),
    }
}

/// The number that values are; None exactly if they are not one number.
fn number_in(alloc: Global, values: Data<'_>) -> Result<Option<u64>, NoMemory>
    ensures { IfOk result (λ o. MatchOption o (IsNoNumber values.entry.octets.now) (λ n. IsNumber n values.entry.octets.now)) }
{
    let Some((element, others)) = values.elements().split_first() else {
        return Ok(None);
    };
    if !others.octets.is_empty() {
        return Ok(None);
    }
    unsigned_of(alloc, element)
}

/// The number with which a read of a property was answered; None exactly if it was not answered with one number. An Err is out of memory.
pub fn number_of(
    alloc: Global,
    reference: PropertyReference,
    outcome: Outcome<'_>,
) -> Result<Option<u64>, NoMemory>
    ensures { IfOk result (λ o. MatchOption o (IsNoNumberOf (property_reference_view reference) (outcome_view outcome.entry))
        (λ n. IsNumberOf (property_reference_view reference) (outcome_view outcome.entry) n)) }
{
    match values_of(AnyRequest::ReadProperty(reference), outcome) {
        Some(values) => number_in(alloc, values),
        None => Ok(None),
    }
}

/// Whether an Abort came.
fn is_aborted(outcome: Outcome<'_>) -> bool
    ensures { result ≡ is_aborted (outcome_view outcome.entry) }
{
    match outcome {
        Outcome::Aborted(_) => true,
        Outcome::Answered(_) => false,
        Outcome::Rejected(_) => false,
        Outcome::TimedOut => false,
        Outcome::Expired => false,
        Outcome::Refused(_) => false,
        Outcome::NoEnding => false,
        Outcome::NoLink => false,
    }
}

/// What follows from how the read of an object-list ended: an Abort says that it does not come as a whole. An Err is out of memory.
pub fn after_list(
    alloc: Global,
    reference: PropertyReference,
    outcome: Outcome<'_>,
) -> Result<ListStep, NoMemory>
    ensures { IfOk result (λ step. IsStep (property_reference_view reference) (outcome_view outcome.entry) step) }
{
    if is_aborted(outcome) {
        return Ok(ListStep::InParts);
    }
    match objects_of(alloc, reference, outcome)? {
        Some(objects) => Ok(ListStep::Objects(objects)),
        None => Ok(ListStep::Failed),
    }
}
