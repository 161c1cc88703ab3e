//! Which object of a document differs in more than values and octets.
ghost use Rattle.std.specs.Prelude.{◌≡◌, map};
ghost use Rattle.std.specs.List.{list_any};
ghost use Rattle.std.specs.Option.{option_eq, option_map};
ghost use Rattle.std.specs.Cmp.Lexicographic.{pointwise};
ghost use Rattle.bac_value.specs.Views.{object_identifier_view};
ghost use Rattle.bac_store.specs.Allowing.{are_same as same};
ghost use Rattle.bac_store.specs.Kinds.{kind_of as kind_in};
ghost use Rattle.bac_store.specs.Views.{allowed_view, data_view, file_view, object_view, property_view};
ghost use Rattle.bac_follow.specs.Following.{are_like_properties as like_properties, are_same_limits as same_limits, first_unlike as first_unlike_in, is_like as like};
ghost use Rattle.bac_follow.specs.Following.{is_like_file as like_file, is_like_property as like_property, other_object as other_object_of};

use bac_store::{Allowed, File, Object, Property};
use bac_value::{Class, DataBuf, ObjectIdentifier, take_element};

fn are_same(octets: &[u8], others: &[u8]) -> bool
    ensures { result ≡ same octets.now others.now }
{
    octets == others
}

/// Whether two lists have the same data in the same order.
fn are_same_lists(listed: &[DataBuf], others: &[DataBuf]) -> bool
    ensures { result ≡ pointwise same (map data_view listed.now) (map data_view others.now) }
{
    let mut left = others;
    for data in listed {
        match left {
            [first, behind @ ..] if are_same(&data.octets, &first.octets) => left = behind,
            _ => return false,
        }
    }
    left.is_empty()
}

fn are_same_limits(allowed: &Allowed, other: &Allowed) -> bool
    ensures { result ≡ same_limits (allowed_view allowed.now) (allowed_view other.now) }
{
    match (allowed, other) {
        (Allowed::Any, Allowed::Any) => true,
        (
            Allowed::Between { least, greatest },
            Allowed::Between {
                least: low,
                greatest: high,
            },
        ) => are_same(&least.octets, &low.octets) && are_same(&greatest.octets, &high.octets),
        (Allowed::OneOf(listed), Allowed::OneOf(others)) => are_same_lists(listed, others),
        _ => false,
    }
}

/// The kind that a property with these values has.
fn kind_of(values: &[u8]) -> Option<u8>
    ensures { result ≡ kind_in values.now }
{
    match take_element(values) {
        Ok((element, rest)) if rest.is_empty() => match element.tag.class {
            Class::Application => Some(element.tag.number),
            Class::Context => None,
        },
        _ => None,
    }
}

/// Whether both are the same property, whatever their values.
fn is_like_property(property: &Property, other: &Property) -> bool
    ensures { result ≡ like_property (property_view property.now) (property_view other.now) }
{
    property.number == other.number
        && property.writable == other.writable
        && kind_of(&property.values.octets) == kind_of(&other.values.octets)
        && are_same_limits(&property.allowed, &other.allowed)
}

/// Whether one of the others is the same property.
fn has_like_property(others: &[Property], property: &Property) -> bool
    ensures { result ≡ list_any (like_property (property_view property.now)) (map property_view others.now) }
{
    for other in others {
        if is_like_property(property, other) {
            return true;
        }
    }
    false
}

/// Whether both are the same properties, in any order.
fn are_like_properties(properties: &[Property], others: &[Property]) -> bool
    ensures { result ≡ like_properties (map property_view properties.now) (map property_view others.now) }
{
    if properties.len() != others.len() {
        return false;
    }
    for property in properties {
        if !has_like_property(others, property) {
            return false;
        }
    }
    true
}

/// Whether neither is a file, or both are the same one, whatever their octets.
fn are_like_files(file: &Option<File>, other: &Option<File>) -> bool
    ensures { result ≡ option_eq like_file (option_map file_view file.now) (option_map file_view other.now) }
{
    match (file, other) {
        (None, None) => true,
        (Some(file), Some(other)) => file.writable == other.writable,
        _ => false,
    }
}

/// Whether both are the same object, whatever their values and octets.
fn is_like(object: &Object, other: &Object) -> bool
    ensures { result ≡ like (object_view object.now) (object_view other.now) }
{
    object.id.kind == other.id.kind
        && object.id.instance == other.id.instance
        && are_same(object.name.as_bytes(), other.name.as_bytes())
        && are_like_properties(&object.properties, &other.properties)
        && are_like_files(&object.file, &other.file)
}

/// Whether one of the others is the same object.
fn has_like(others: &[Object], object: &Object) -> bool
    ensures { result ≡ list_any (like (object_view object.now)) (map object_view others.now) }
{
    for other in others {
        if is_like(object, other) {
            return true;
        }
    }
    false
}

/// The first object that is like none of the others.
fn first_unlike(others: &[Object], objects: &[Object]) -> Option<ObjectIdentifier>
    ensures { option_map object_identifier_view result ≡ first_unlike_in (map object_view others.now) (map object_view objects.now) }
{
    for object in objects {
        if !has_like(others, object) {
            return Some(object.id);
        }
    }
    None
}

/// The first object that is new or differs; if there is none, the first one that is gone.
pub(crate) fn other_object(before: &[Object], now: &[Object]) -> Option<ObjectIdentifier>
    ensures { option_map object_identifier_view result ≡ other_object_of (map object_view before.now) (map object_view now.now) }
{
    match first_unlike(before, now) {
        Some(id) => Some(id),
        None => first_unlike(now, before),
    }
}
