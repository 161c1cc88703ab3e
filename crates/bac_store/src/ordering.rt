//! Sorting objects and their properties.
ghost use Rattle.std.specs.Prelude.{◌≡◌, ◌≢◌, ◌<◌, map, length, MatchBool};
ghost use Rattle.std.specs.List.{AllPairs};
ghost use Rattle.std.specs.List.Sorted.{IsNonDecreasingBy, IsPermutation};
ghost use Rattle.bac_value.specs.Views.{object_identifier_view};
ghost use Rattle.bac_store.specs.Kept.{object_number};
ghost use Rattle.bac_store.specs.Ordered.{SortsObject, SortsObjects};
ghost use Rattle.bac_store.specs.Views.{object_view};

use crate::checking::{are_right_properties, is_right_file, is_right_id, is_right_name};
use crate::lookups::number_of;
use crate::object::{Object, Property};
use crate::rule::Rule;

/// Sorts objects by identifier.
pub(crate) fn sort_objects(objects: &mut [Object])
    ensures same { IsPermutation objects.old objects.new }
    ensures sorted { IsNonDecreasingBy (λ o. object_number (object_identifier_view o.id)) objects.new }
{
    objects.sort_unstable_by_key(|object| number_of(object.id));
}

/// Whether sorted objects all have different identifiers.
pub(crate) fn are_distinct(objects: &[Object]) -> bool
    requires { IsNonDecreasingBy (λ o. object_number (object_identifier_view o.id)) objects.now }
    ensures { MatchBool result (AllPairs (λ a b. object_number (object_identifier_view a.id) < object_number (object_identifier_view b.id)) objects.now)
        (AllPairs (λ a b. object_number (object_identifier_view a.id) ≢ object_number (object_identifier_view b.id)) objects.now → ⊥) }
{
    for at in 1..objects.len() {
        if number_of(objects[at - 1].id) == number_of(objects[at].id) {
            return false;
        }
    }
    true
}

/// Sorts properties by number.
fn sort_properties(properties: &mut [Property])
    ensures same { IsPermutation properties.old properties.new }
    ensures sorted { IsNonDecreasingBy (λ p. p.number) properties.new }
{
    properties.sort_unstable_by_key(|property| property.number);
}

/// Whether sorted properties all have different numbers.
fn are_listed_once(properties: &[Property]) -> bool
    requires { IsNonDecreasingBy (λ p. p.number) properties.now }
    ensures { MatchBool result (AllPairs (λ p q. p.number < q.number) properties.now)
        (AllPairs (λ p q. p.number ≢ q.number) properties.now → ⊥) }
{
    for at in 1..properties.len() {
        if properties[at - 1].number == properties[at].number {
            return false;
        }
    }
    true
}

/// Sorts the properties of an object and checks whether a store can contain the object.
fn sort_and_check(rule: Rule, object: &mut Object) -> bool
    ensures { SortsObject rule result (object_view object.old) (object_view object.new) }
{
    sort_properties(&mut object.properties);
    if !is_right_id(rule, object.id) {
        return false;
    }
    if !is_right_name(&object.name) {
        return false;
    }
    if !is_right_file(object.id.kind, &object.file) {
        return false;
    }
    if !are_listed_once(&object.properties) {
        return false;
    }
    are_right_properties(rule, object.id.kind, &object.properties)
}

/// Sorts and checks each object, up to the first that a store can't contain. Returns whether a store can contain all of them.
pub(crate) fn sort_and_check_each(rule: Rule, objects: &mut [Object]) -> bool
    ensures { SortsObjects rule result objects.old objects.new }
{
    for object in objects.iter_mut() {
        if !sort_and_check(rule, object) {
            return false;
        }
    }
    true
}
