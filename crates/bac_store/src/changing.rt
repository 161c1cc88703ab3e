//! Changes of objects in place.
ghost use Rattle.std.specs.Prelude.{◌≡◌, ◌+◌, ◌<◌, ◌≤◌, map, length};
ghost use Rattle.std.specs.List.{AllPairs};
ghost use Rattle.bac_value.specs.Views.{object_identifier_view};
ghost use Rattle.bac_store.specs.Changes.{where_that, with_object, with_octets, with_own_values, with_values};
ghost use Rattle.bac_store.specs.Kept.{IsInOrder};
ghost use Rattle.bac_store.specs.Limits.{FILE_LIMIT};
ghost use Rattle.bac_store.specs.Replies.{overwritten};
ghost use Rattle.bac_store.specs.Stores.{is_number};
ghost use Rattle.bac_store.specs.Views.{entry_view, slot_view};

use crate::entry::{StoredObject, StoredProperty};
use crate::lookups::{place_of, slot_place};
use crate::splice::Splice;
use bac_value::{DataBuf, ObjectIdentifier};

/// Sets the values of a listed property.
fn set_slot(slots: &mut [StoredProperty], number: u32, values: DataBuf)
    requires { AllPairs (λ p q. p.number < q.number) (map slot_view slots.old) }
    ensures { map slot_view slots.new ≡ where_that (is_number number) (with_own_values values.octets.items) (map slot_view slots.old) }
{
    match slot_place(slots, number) {
        Some(at) => slots[at].values = values,
        None => {}
    }
}

/// Sets the values of a listed property of an object.
pub(crate) fn set_values(
    objects: &mut [StoredObject],
    object: ObjectIdentifier,
    property: u32,
    values: DataBuf,
)
    requires { IsInOrder (map entry_view objects.old) }
    ensures { map entry_view objects.new ≡ with_object (object_identifier_view object) (with_values property values.octets.items) (map entry_view objects.old) }
{
    match place_of(objects, object) {
        Some(at) => set_slot(&mut objects[at].slots, property, values),
        None => {}
    }
}

/// Writes new octets to a file.
pub(crate) fn set_octets(objects: &mut [StoredObject], object: ObjectIdentifier, splice: Splice)
    requires order { IsInOrder (map entry_view objects.old) }
    requires short { splice.at + length splice.new.items ≤ FILE_LIMIT }
    ensures { map entry_view objects.new
        ≡ with_object (object_identifier_view object) (with_octets (overwritten splice.at splice.new.items)) (map entry_view objects.old) }
{
    match place_of(objects, object) {
        Some(at) => match &mut objects[at].file {
            Some(file) => splice.write(&mut file.octets),
            None => {}
        },
        None => {}
    }
}

/// Replaces all octets of a file.
pub(crate) fn set_contents(objects: &mut [StoredObject], object: ObjectIdentifier, octets: Vec<u8>)
    requires { IsInOrder (map entry_view objects.old) }
    ensures { map entry_view objects.new
        ≡ with_object (object_identifier_view object) (with_octets (λ _. octets.items)) (map entry_view objects.old) }
{
    match place_of(objects, object) {
        Some(at) => match &mut objects[at].file {
            Some(file) => file.octets = octets,
            None => {}
        },
        None => {}
    }
}
