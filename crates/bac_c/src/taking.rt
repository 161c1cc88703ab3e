//! Which objects a plain start takes, and why it refuses the first that it does not take.
ghost use Rattle.std.specs.Prelude.{◌≡◌, ◌≤◌, None, Some, IfOk, MatchOption, length, map, nat_le};
ghost use Rattle.std.specs.List.{list_any};
ghost use Rattle.std.specs.Option.{option_map};
ghost use Rattle.bac_value.specs.Value.{characters};
ghost use Rattle.bac_value.specs.Views.{object_identifier_view};
ghost use Rattle.bac_value.specs.Writing.{value_spelling};
ghost use Rattle.bac_store.specs.Allowing.{are_right_limits};
ghost use Rattle.bac_store.specs.Limits.{VALUE_LIMIT as VALUE_MOST};
ghost use Rattle.bac_store.specs.Objects.{is_right_file, is_right_number, is_right_type};
ghost use Rattle.bac_store.specs.Stores.{is_number, is_object};
ghost use Rattle.bac_store.specs.Views.{allowed_view, file_view, object_view, property_view};
ghost use Rattle.bac_c.specs.Taking.{object_flaw as flaw_in_object, property_flaw as flaw_in_property, vendor_object as vendor};
ghost use Rattle.bac_c.specs.Taking.{AreTaken, HaveNoFlaw, IsFirstFlawed, IsFirstRefused, IsRefusedAfter, IsTakenAfter};

use crate::flaw::Flaw;
use crate::requests::FILE;
use bac_store::{
    Allowed, FILE_LIMIT, File, Object, Property, Store, StoreFault, VALUE_LIMIT, are_right_values,
};
use bac_value::{NoMemory, ObjectIdentifier};
use std::alloc::Global;

// object types (clause 21, BACnetObjectType); those of vendors are of clause 23.1

const ANALOG_INPUT: u16 = 0;

const ANALOG_VALUE: u16 = 2;

const BINARY_VALUE: u16 = 5;

const DEVICE: u16 = 8;

const FIRST_VENDOR_TYPE: u16 = 128;

const LAST_VENDOR_TYPE: u16 = 1023;

/// The greatest instance, a wildcard for any (clause 20.2.14).
const ANY_INSTANCE: u32 = 4_194_303;

// properties (clause 21, BACnetPropertyIdentifier); those of vendors are of clause 23.1

const DESCRIPTION: u32 = 28;

const PRESENT_VALUE: u32 = 85;

const FIRST_VENDOR_PROPERTY: u32 = 512;

const LAST_VENDOR_PROPERTY: u32 = 4_194_303;

/// How many octets the spelling of a name takes beside the text: a tag, a long length and the character set.
const NAME_OVERHEAD: usize = 5;

/// The first object that a plain start refuses.
#[derive(Clone, Copy, Debug, PartialEq, Eq)]
pub struct Refusal {
    /// Its place in the order in which the objects are listed, from 0.
    pub object: usize,
    /// The number of its first property that is refused; None where it is refused as a whole.
    pub property: Option<u32>,
    /// What is wrong.
    pub why: Flaw,
}

/// Whether a plain start takes objects of this type.
fn is_taken_type(kind: u16) -> bool
    ensures { result ≡ is_right_type kind }
{
    match kind {
        ANALOG_INPUT | ANALOG_VALUE | BINARY_VALUE | DEVICE | FILE => true,
        FIRST_VENDOR_TYPE..=LAST_VENDOR_TYPE => true,
        _ => false,
    }
}

/// Whether a plain start takes properties with this number.
fn is_taken_number(number: u32) -> bool
    ensures { result ≡ is_right_number number }
{
    match number {
        DESCRIPTION | PRESENT_VALUE | FIRST_VENDOR_PROPERTY..=LAST_VENDOR_PROPERTY => true,
        _ => false,
    }
}

/// Whether a name is short enough.
fn is_short_name(name: &str) -> bool
    ensures { result ≡ nat_le (length (value_spelling (characters 0 name.now))) VALUE_MOST }
{
    name.len() <= VALUE_LIMIT - NAME_OVERHEAD
}

/// Whether an object of this type may have these contents of a file, or none.
fn is_taken_file(kind: u16, file: &Option<File>) -> bool
    ensures { result ≡ is_right_file kind (option_map file_view file.now) }
{
    match file {
        None => kind != FILE,
        Some(file) => kind == FILE && file.octets.len() <= FILE_LIMIT,
    }
}

/// Whether a property has this number.
fn lists_number(properties: &[Property], number: u32) -> bool
    ensures { result ≡ list_any (is_number number) (map property_view properties.now) }
{
    for property in properties {
        if property.number == number {
            return true;
        }
    }
    false
}

/// Whether an object has this identifier.
fn lists_identifier(objects: &[Object], id: ObjectIdentifier) -> bool
    ensures { result ≡ list_any (is_object (object_identifier_view id)) (map object_view objects.now) }
{
    for object in objects {
        if id.kind == object.id.kind && id.instance == object.id.instance {
            return true;
        }
    }
    false
}

/// An object of a vendor's type that lists one property of a vendor, with these values and limits.
fn vendor_object(alloc: Global, property: &Property) -> Result<Object, NoMemory>
    ensures { IfOk result (λ o. object_view o ≡ vendor property.now.values.octets.items (allowed_view property.now.allowed)) }
{
    let values = property.values.as_data().to_owned(alloc)?;
    let allowed = property.allowed.copied(alloc)?;
    let mut properties = Vec::with_capacity(alloc, 1)?;
    properties.push(Property {
        number: FIRST_VENDOR_PROPERTY,
        values,
        writable: false,
        allowed,
    })?;
    Ok(Object {
        id: ObjectIdentifier {
            kind: FIRST_VENDOR_TYPE,
            instance: 0,
        },
        name: String::new(alloc),
        properties,
        file: None,
    })
}

/// Whether the limits of a property fit its values, which are not too long: a store says so of a vendor's property, which may have any values.
fn have_limits_that_fit(alloc: Global, property: &Property) -> Result<bool, NoMemory>
    requires { length property.now.values.octets.items ≤ VALUE_MOST }
    ensures { IfOk result (λ fit. fit ≡ are_right_limits (allowed_view property.now.allowed) property.now.values.octets.items) }
{
    let object = vendor_object(alloc, property)?;
    let mut objects = Vec::with_capacity(alloc, 1)?;
    objects.push(object)?;
    match Store::new(alloc, objects) {
        Ok(_) => Ok(true),
        Err(StoreFault::NoMemory) => Err(NoMemory),
        Err(StoreFault::BadObject) => Ok(false),
        // there is one object
        Err(StoreFault::Duplicate) => unreachable!(),
    }
}

/// What is wrong with a property of an object of this type, which lists others before it.
fn property_flaw(
    alloc: Global,
    kind: u16,
    before: &[Property],
    property: &Property,
) -> Result<Option<Flaw>, NoMemory>
    ensures { IfOk result (λ f. f ≡ flaw_in_property kind (map property_view before.now) (property_view property.now)) }
{
    let values = property.values.octets.as_slice();
    if !is_taken_number(property.number) {
        return Ok(Some(Flaw::Number));
    }
    if lists_number(before, property.number) {
        return Ok(Some(Flaw::Twice));
    }
    if values.len() > VALUE_LIMIT || !are_right_values(kind, property.number, values) {
        return Ok(Some(Flaw::Values));
    }
    let fit = have_limits_that_fit(alloc, property)?;
    Ok(if fit { None } else { Some(Flaw::Limits) })
}

/// The number of the first property that has a flaw, and the flaw.
fn first_flaw(
    alloc: Global,
    kind: u16,
    properties: &[Property],
) -> Result<Option<(u32, Flaw)>, NoMemory>
    ensures { IfOk result (λ f. MatchOption f (HaveNoFlaw kind (length (map property_view properties.now)) (map property_view properties.now))
        (λ w. IsFirstFlawed kind (map property_view properties.now) w.0 w.1)) }
{
    for at in 0..properties.len() {
        let property = &properties[at];
        if let Some(flaw) = property_flaw(alloc, kind, &properties[..at], property)? {
            return Ok(Some((property.number, flaw)));
        }
    }
    Ok(None)
}

/// What is wrong with an object apart from its properties, where others are listed before it.
fn object_flaw(before: &[Object], object: &Object) -> Option<Flaw>
    ensures { result ≡ flaw_in_object (map object_view before.now) (object_view object.now) }
{
    if !is_taken_type(object.id.kind) {
        Some(Flaw::Type)
    } else if object.id.instance == ANY_INSTANCE {
        Some(Flaw::Instance)
    } else if !is_short_name(&object.name) {
        Some(Flaw::Name)
    } else if !is_taken_file(object.id.kind, &object.file) {
        Some(Flaw::File)
    } else if lists_identifier(before, object.id) {
        Some(Flaw::SameIdentifier)
    } else {
        None
    }
}

/// Why an object is refused where others are listed before it: the number of a property, if it is one that is refused, and the flaw.
fn refusal_after(
    alloc: Global,
    before: &[Object],
    object: &Object,
) -> Result<Option<(Option<u32>, Flaw)>, NoMemory>
    ensures { IfOk result (λ r. MatchOption r (IsTakenAfter (map object_view before.now) (object_view object.now))
        (λ w. IsRefusedAfter (map object_view before.now) (object_view object.now) w.0 w.1)) }
{
    if let Some(flaw) = object_flaw(before, object) {
        return Ok(Some((None, flaw)));
    }
    match first_flaw(alloc, object.id.kind, &object.properties)? {
        Some((number, flaw)) => Ok(Some((Some(number), flaw))),
        None => Ok(None),
    }
}

/// The first object that a plain start refuses; None where it takes them all.
pub fn first_refusal(alloc: Global, objects: &[Object]) -> Result<Option<Refusal>, NoMemory>
    ensures { IfOk result (λ r. MatchOption r (AreTaken (map object_view objects.now)) (IsFirstRefused (map object_view objects.now))) }
{
    for at in 0..objects.len() {
        if let Some((property, why)) = refusal_after(alloc, &objects[..at], &objects[at])? {
            return Ok(Some(Refusal {
                object: at,
                property,
                why,
            }));
        }
    }
    Ok(None)
}
