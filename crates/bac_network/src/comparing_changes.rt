//! Whether two changes at nodes themselves are the same.
ghost use Rattle.std.specs.Prelude.{◌≡◌, ◌↔◌, IsTrue};
ghost use Rattle.bac_store.specs.Views.{change_view};

use bac_service::same_object;
use bac_store::Change;

/// Whether contracts see one change in both.
pub fn same_change(one: &Change, other: &Change) -> bool
    ensures { IsTrue result ↔ (change_view one.now ≡ change_view other.now) }
{
    match one {
        Change::Value {
            object,
            property,
            octets,
        } => match other {
            Change::Value {
                object: thing,
                property: number,
                octets: values,
            } => same_object(*object, *thing) && property == number && octets == values,
            Change::File { .. } => false,
        },
        Change::File { object, octets } => match other {
            Change::File {
                object: file,
                octets: contents,
            } => same_object(*object, *file) && octets == contents,
            Change::Value { .. } => false,
        },
    }
}
