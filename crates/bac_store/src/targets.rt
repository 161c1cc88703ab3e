//! The object that a read asks for (clause 15.5).
ghost use Rattle.std.specs.Prelude.{◌≡◌, ◌==◌, ◌&&◌, false, true, is_some, length, map, IfSome, MatchOption};
ghost use Rattle.std.specs.List.{All};
ghost use Rattle.std.specs.Option.{option_map};
ghost use Rattle.bac_value.specs.Views.{object_identifier_view};
ghost use Rattle.bac_store.specs.Kept.{IsInOrder, IsKept};
ghost use Rattle.bac_store.specs.Limits.{ANY_INSTANCE as ANY};
ghost use Rattle.bac_store.specs.Stores.{is_same};
ghost use Rattle.bac_store.specs.Targets.{described_device, device, is_lister, read_in, IsFirst};
ghost use Rattle.bac_store.specs.Views.{entry_view};

use crate::entry::StoredObject;
use crate::limits::{ANY_INSTANCE, DEVICE, OBJECT_LIST};
use crate::lookups::entry_of;
use crate::store_lookups::slot_of;
use bac_value::ObjectIdentifier;

/// Whether an object is the device of a described store: a device with an object-list.
fn is_described_device(entry: &StoredObject) -> bool
    requires { IsKept (entry_view entry.now) }
    ensures { result ≡ is_lister (entry_view entry.now) }
{
    entry.id.kind == DEVICE && slot_of(&entry.slots, OBJECT_LIST).is_some()
}

/// The place of the first device of a described store.
fn device_place(objects: &[StoredObject]) -> Option<usize>
    requires { IsInOrder (map entry_view objects.now) }
    ensures { MatchOption result (All (λ e. is_lister (entry_view e) ≡ false) objects.now) (IsFirst (λ e. is_lister (entry_view e)) objects.now) }
{
    for at in 0..objects.len() {
        if is_described_device(&objects[at]) {
            return Some(at);
        }
    }
    None
}

/// The device of a described store; None in a store of the profile's rule.
fn device_of(objects: &[StoredObject]) -> Option<&StoredObject>
    requires { IsInOrder (map entry_view objects.now) }
    ensures found { option_map (λ e. entry_view e.now) result ≡ described_device (map entry_view objects.now) }
    ensures kept { IfSome result (λ e. IsKept (entry_view e.now)) }
{
    match device_place(objects) {
        Some(at) => Some(&objects[at]),
        None => None,
    }
}

/// Whether an identifier is the wildcard that stands for the device, whatever its instance.
fn is_any_device(id: ObjectIdentifier) -> bool
    ensures { result ≡ is_same (object_identifier_view id) (device ANY) }
{
    id.kind == DEVICE && id.instance == ANY_INSTANCE
}

/// The object that a read of this identifier is answered from: by device 4,194,303 the device of a described store.
pub(crate) fn target_of(objects: &[StoredObject], id: ObjectIdentifier) -> Option<&StoredObject>
    requires { IsInOrder (map entry_view objects.now) }
    ensures found { option_map (λ e. entry_view e.now) result ≡ read_in (map entry_view objects.now) (object_identifier_view id) }
    ensures kept { IfSome result (λ e. IsKept (entry_view e.now)) }
{
    if !is_any_device(id) {
        return entry_of(objects, id);
    }
    match device_of(objects) {
        Some(entry) => Some(entry),
        None => entry_of(objects, id),
    }
}
