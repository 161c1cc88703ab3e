//! What the standard says of the values of some properties in any object, and of the properties of an object together (clause 12).
ghost use Rattle.std.specs.Prelude.{◌≡◌, map};
ghost use Rattle.std.specs.Option.{option_map};
ghost use Rattle.bac_store.specs.Views.{property_view};
ghost use Rattle.bac_value.specs.Steps.{ReadsAll};
ghost use Rattle.bac_store.specs.Kinds.{is_multi_state as is_multi_state_of, kind_of as kind_in};
ghost use Rattle.bac_value.specs.declared.tag.Class.TheVariants.{Application};
ghost use Rattle.bac_objects.specs.Consistency.{are_fitting as are_fitting_in, consistent as consistent_of, fitting_values as fitting_values_of, flaw_in, is_beyond as is_beyond_of};
ghost use Rattle.bac_objects.specs.Consistency.{is_count as is_count_of, lacking as lacking_of, number_in as number_of, present_flaw as present_flaw_of, unsigned_in as unsigned_of};
ghost use Rattle.bac_objects.specs.Consistency.{unsigned_of_class, values_of as values_in, wanted_of as wanted_by, wanted_present as wanted_by_type};

use crate::form::{Kind, ValueForm};
use crate::problem::{Given, Problem, Wanted};
use crate::property::{PRESENT_VALUE, given_as};
use bac_store::Property;
use bac_value::{Class, DataBuf, kinds, take_element, take_unsigned};

/// The property number-of-states.
pub(crate) const NUMBER_OF_STATES: u32 = 74;

/// The property units.
pub(crate) const UNITS: u32 = 117;

/// The application tag of octets that encode one value; None for all others.
fn kind_of(values: &[u8]) -> Option<u8>
    ensures { result ≡ kind_in values.now }
{
    match take_element(values) {
        Ok((element, rest)) if rest.is_empty() => match element.tag.class {
            Class::Application => Some(element.tag.number),
            Class::Context => None,
        },
        _ => None,
    }
}

/// The number with these contents, if its kind is Unsigned.
fn unsigned_contents(kind: u8, contents: &[u8]) -> Option<u64>
    ensures { result ≡ unsigned_of_class Application kind contents.now }
{
    if kind != kinds::UNSIGNED {
        return None;
    }
    match take_unsigned(contents, contents.len()) {
        Ok((number, _)) => Some(number),
        Err(_) => None,
    }
}

/// The number of octets that encode one Unsigned; None for all others.
pub(crate) fn unsigned_in(values: &[u8]) -> Option<u64>
    ensures { result ≡ unsigned_of values.now }
{
    match take_element(values) {
        Ok((element, rest)) if rest.is_empty() => match element.tag.class {
            Class::Application => unsigned_contents(element.tag.number, element.contents),
            Class::Context => None,
        },
        _ => None,
    }
}

/// Whether octets encode an Unsigned from 1 on.
fn is_count(values: &[u8]) -> bool
    ensures { result ≡ is_count_of (unsigned_of values.now) }
{
    match unsigned_in(values) {
        Some(number) => number > 0,
        None => false,
    }
}

/// Whether any object may have these values of a property.
fn are_fitting(number: u32, values: &[u8]) -> bool
    ensures { result ≡ are_fitting_in number values.now }
{
    match number {
        UNITS => kind_of(values) == Some(kinds::ENUMERATED),
        NUMBER_OF_STATES => is_count(values),
        _ => true,
    }
}

/// What the values of one of these properties have to be.
fn wanted_of(number: u32) -> Wanted
    ensures { result ≡ wanted_by number }
{
    if number == UNITS {
        Wanted::Kind(Kind::Enumerated)
    } else {
        Wanted::MultiState
    }
}

/// Checks that units are Enumerated, and that number-of-states is an Unsigned from 1 on.
pub(crate) fn fitting_values(
    number: u32,
    form: ValueForm,
    values: DataBuf,
) -> Result<DataBuf, Problem>
    ensures { ReadsAll (λ d. d.octets.items) result (fitting_values_of number form values.octets.items) }
{
    if !are_fitting(number, values.octets.as_slice()) {
        return Err(Problem {
            wanted: wanted_of(number),
            given: given_as(form),
        });
    }
    Ok(values)
}

/// The values of a property.
#[tactic(auto, using(crate::proofs::Numbers::values_next))]
pub(crate) fn values_of(number: u32, properties: &[Property]) -> Option<&[u8]>
    ensures { option_map (λ v. v.now) result ≡ values_in number (map property_view properties.now) }
{
    for property in properties {
        if property.number == number {
            return Some(property.values.octets.as_slice());
        }
    }
    None
}

/// Whether a value is none of so many states.
fn is_beyond(value: Option<u64>, states: Option<u64>) -> bool
    ensures { result ≡ is_beyond_of value states }
{
    match (value, states) {
        (Some(value), Some(states)) => value > states,
        _ => false,
    }
}

/// The number that values are, where there are any.
pub(crate) fn number_in(values: Option<&[u8]>) -> Option<u64>
    ensures { result ≡ number_of (option_map (λ v. v.now) values.entry) }
{
    match values {
        Some(values) => unsigned_in(values),
        None => None,
    }
}

/// What the present-value of an object of this type has to be. None where it may be left out.
pub(crate) fn wanted_present(kind: u16) -> Option<Wanted>
    ensures { result ≡ wanted_by_type kind }
{
    match kind {
        0..=2 => Some(Wanted::Kind(Kind::Real)),
        3..=5 => Some(Wanted::State),
        13 | 14 | 19 => Some(Wanted::MultiState),
        _ => None,
    }
}

/// That something which has to be there is not.
fn lacking(wanted: Option<Wanted>) -> Option<Problem>
    ensures { result ≡ lacking_of wanted }
{
    match wanted {
        Some(wanted) => Some(Problem {
            wanted,
            given: Given::Nothing,
        }),
        None => None,
    }
}

pub(crate) fn is_multi_state(kind: u16) -> bool
    ensures { result ≡ is_multi_state_of kind }
{
    matches!(kind, 13 | 14 | 19)
}

/// What is wrong with the present-value of an object of this type, which may be left out, beside its number of states.
fn present_flaw(kind: u16, value: Option<&[u8]>, states: Option<&[u8]>) -> Option<Problem>
    ensures { result ≡ present_flaw_of kind (option_map (λ v. v.now) value.entry) (option_map (λ v. v.now) states.entry) }
{
    let Some(value) = value else {
        return lacking(wanted_present(kind));
    };
    if is_multi_state(kind) && is_beyond(unsigned_in(value), number_in(states)) {
        Some(Problem {
            wanted: Wanted::NumberedState,
            given: Given::Other,
        })
    } else {
        None
    }
}

/// What is wrong with the present-value among these properties of an object of this type: where one has to be, there is none, or it is none of the states.
pub(crate) fn flaw_of(kind: u16, properties: &[Property]) -> Option<Problem>
    ensures { result ≡ flaw_in kind (map property_view properties.now) }
{
    let value = values_of(PRESENT_VALUE, properties);
    let states = values_of(NUMBER_OF_STATES, properties);
    present_flaw(kind, value, states)
}

/// The properties, where their present-value is right.
pub(crate) fn consistent(kind: u16, properties: Vec<Property>) -> Result<Vec<Property>, Problem>
    ensures { ReadsAll (λ v. map property_view v.items) result (consistent_of kind (map property_view properties.items)) }
{
    match flaw_of(kind, &properties) {
        Some(problem) => Err(problem),
        None => Ok(properties),
    }
}
