//! Look-ups of the listed properties and the files of a store.
ghost use Rattle.std.specs.Prelude.{◌≡◌, ◌<◌, ◌≤◌, IfSome, length, map};
ghost use Rattle.std.specs.List.{AllPairs};
ghost use Rattle.std.specs.Option.{option_map};
ghost use Rattle.bac_value.specs.Views.{object_identifier_view};
ghost use Rattle.bac_store.specs.Kept.{IsInOrder};
ghost use Rattle.bac_store.specs.Listed.{listed_view, values_and_flag};
ghost use Rattle.bac_store.specs.Limits.{FILE_LIMIT as FILE_MOST};
ghost use Rattle.bac_store.specs.Stores.{first_that, is_number};
ghost use Rattle.bac_store.specs.Views.{file_view, slot_view};
ghost use Rattle.bac_store.specs.Writes.{file_at, listed_at};

use crate::entry::StoredProperty;
use crate::lookups::{entry_of, slot_place};
use crate::object::File;
use crate::preparing::file_of;
use crate::store::Store;
use bac_value::ObjectIdentifier;

/// The values of a listed property.
#[derive(Clone, Copy, Debug)]
pub struct ListedValues<'a> {
    /// The values, encoded as data (clause 20.2).
    pub octets: &'a [u8],
    /// Whether WriteProperty may set the values (clause 15.9).
    pub writable: bool,
}

/// The listed property with this number.
pub(crate) fn slot_of(slots: &[StoredProperty], number: u32) -> Option<&StoredProperty>
    requires { AllPairs (λ p q. p.number < q.number) (map slot_view slots.now) }
    ensures { option_map (λ s. slot_view s.now) result ≡ first_that (is_number number) (map slot_view slots.now) }
{
    match slot_place(slots, number) {
        Some(at) => Some(&slots[at]),
        None => None,
    }
}

impl Store {
    /// The values of a listed property of an object. Returns None if no object has this identifier, or the object does not list the
    /// property; the computed properties are not listed.
    pub fn listed(&self, object: ObjectIdentifier, property: u32) -> Option<ListedValues<'_>>
        ensures { option_map listed_view result ≡ option_map values_and_flag (listed_at self.now (object_identifier_view object) property) }
    {
        let entry = entry_of(&self.objects, object)?;
        let slot = slot_of(&entry.slots, property)?;
        Some(ListedValues {
            octets: slot.values.octets.as_slice(),
            writable: slot.writable,
        })
    }

    /// The contents of a file. Returns None if no object has this identifier, or it is not a file.
    pub fn file(&self, object: ObjectIdentifier) -> Option<&File>
        ensures found { option_map (λ f. file_view f.now) result ≡ file_at self.now (object_identifier_view object) }
        ensures short { IfSome result (λ f. length f.now.octets.items ≤ FILE_MOST) }
    {
        file_of(&self.objects, object)
    }
}

/// The objects of a store are in ascending order, their properties too, and each has a number and octets within the limits.
pub fn stores_are_in_order(store: &Store)
    ensures { IsInOrder store.now }
{
    // the law depends on the invariant of the store's fields
    let _objects = &store.objects;
}
