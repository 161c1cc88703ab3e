//! The objects that a store can contain.
ghost use Rattle.std.specs.Prelude.{◌≡◌, ◌≤◌, ◌↔◌, true, IsTrue, length};
ghost use Rattle.std.specs.List.{All};
ghost use Rattle.std.specs.Option.{option_map};
ghost use Rattle.bac_value.specs.Value.{characters};
ghost use Rattle.bac_value.specs.Views.{object_identifier_view};
ghost use Rattle.bac_value.specs.Writing.{value_spelling};
ghost use Rattle.bac_store.specs.Limits.{VALUE_LIMIT as VALUE_MOST};
ghost use Rattle.bac_store.specs.Objects.{are_right_values as values_in, is_right_file as file_in, is_id_by as id_in, is_type_by as type_in};
ghost use Rattle.bac_store.specs.Objects.{is_number_by as number_in, is_property_by as property_in};
ghost use Rattle.bac_store.specs.Views.{property_view, file_view};

use crate::allowing::are_right_limits;
use crate::description_fault::DescriptionFlaw;
use crate::kind::{is_of_kind, is_state_of};
use crate::limits::{
    ANALOG_INPUT, ANALOG_OUTPUT, ANALOG_VALUE, ANY_INSTANCE, BINARY_VALUE, DESCRIPTION, DEVICE,
    FILE, FILE_ACCESS_METHOD, FILE_LIMIT, FILE_SIZE, FIRST_VENDOR_PROPERTY, FIRST_VENDOR_TYPE,
    LAST_VENDOR_PROPERTY, LAST_VENDOR_TYPE, OBJECT_IDENTIFIER, OBJECT_NAME, OBJECT_TYPE,
    PRESENT_VALUE, VALUE_LIMIT,
};
use crate::object::{File, Property};
use crate::rule::Rule;
use bac_value::{ObjectIdentifier, kinds};

/// How many octets the spelling of a name takes beside the text: a tag, a long length and the character set.
const NAME_OVERHEAD: usize = 5;

/// Whether an object may have this type.
fn is_right_type(rule: Rule, kind: u16) -> bool
    ensures { result ≡ type_in rule kind }
{
    match rule {
        Rule::Profile => match kind {
            ANALOG_INPUT | ANALOG_VALUE | BINARY_VALUE | DEVICE | FILE => true,
            FIRST_VENDOR_TYPE..=LAST_VENDOR_TYPE => true,
            _ => false,
        },
        Rule::Described => true,
    }
}

/// Whether an object may have this identifier: a type of the rule, and an instance other than the wildcard.
pub(crate) fn is_right_id(rule: Rule, id: ObjectIdentifier) -> bool
    ensures { result ≡ id_in rule (object_identifier_view id) }
{
    is_right_type(rule, id.kind) && id.instance != ANY_INSTANCE
}

/// Whether a name is short enough.
pub(crate) fn is_right_name(name: &str) -> bool
    ensures { IsTrue result ↔ (length (value_spelling (characters 0 name.now)) ≤ VALUE_MOST) }
{
    name.len() <= VALUE_LIMIT - NAME_OVERHEAD
}

/// Whether an object of this type may have these values of a property. A description (28) is one CharacterString. A present-value (85) is one Real
/// for the analog types (0, 1, 2), and Enumerated 0 or 1 for the binary types (3, 4, 5). For the multi-state types (13, 14, 19) it is one Unsigned
/// from 1 on. All else is any data.
pub fn are_right_values(kind: u16, number: u32, values: &[u8]) -> bool
    ensures { result ≡ values_in kind number values.now }
{
    match (number, kind) {
        (DESCRIPTION, _) => is_of_kind(Some(kinds::CHARACTER_STRING), values),
        (PRESENT_VALUE, ANALOG_INPUT | ANALOG_OUTPUT | ANALOG_VALUE) => {
            is_of_kind(Some(kinds::REAL), values)
        }
        (PRESENT_VALUE, _) => is_state_of(kind, values),
        _ => true,
    }
}

/// Whether a property with this number can be listed, or is computed at construction.
fn is_right_number(rule: Rule, number: u32) -> bool
    ensures { result ≡ number_in rule number }
{
    match rule {
        Rule::Profile => match number {
            DESCRIPTION | PRESENT_VALUE | FIRST_VENDOR_PROPERTY..=LAST_VENDOR_PROPERTY => true,
            _ => false,
        },
        Rule::Described => match number {
            OBJECT_IDENTIFIER | OBJECT_NAME | OBJECT_TYPE | FILE_ACCESS_METHOD | FILE_SIZE => false,
            _ => number <= LAST_VENDOR_PROPERTY,
        },
    }
}

/// Whether an object of this type may have the property, with these values.
pub(crate) fn is_right_property(rule: Rule, kind: u16, property: &Property) -> bool
    ensures { result ≡ property_in rule kind (property_view property.now) }
{
    let values = property.values.octets.as_slice();
    is_right_number(rule, property.number)
        && values.len() <= VALUE_LIMIT
        && are_right_values(kind, property.number, values)
        && are_right_limits(&property.allowed, values)
}

/// Whether an object of this type may have all of these properties.
pub(crate) fn are_right_properties(rule: Rule, kind: u16, properties: &[Property]) -> bool
    ensures { IsTrue result ↔ All (λ p. IsTrue (property_in rule kind (property_view p))) properties.now }
{
    properties
        .iter()
        .all(|property| is_right_property(rule, kind, property))
}

/// Whether an object of this type may have these contents of a file, or none.
pub(crate) fn is_right_file(kind: u16, file: &Option<File>) -> bool
    ensures { result ≡ file_in kind (option_map file_view file.now) }
{
    match file {
        None => kind != FILE,
        Some(file) => kind == FILE && file.octets.len() <= FILE_LIMIT,
    }
}

/// What is wrong with a property that an object of this type can't have.
pub(crate) fn flaw_of(kind: u16, property: &Property) -> DescriptionFlaw {
    let values = property.values.octets.as_slice();
    if !is_right_number(Rule::Described, property.number) {
        DescriptionFlaw::Number
    } else if values.len() > VALUE_LIMIT || !are_right_values(kind, property.number, values) {
        DescriptionFlaw::Values
    } else {
        DescriptionFlaw::Limits
    }
}
