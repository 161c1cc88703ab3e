//! Lists of the values that the network may write.
ghost use Rattle.std.specs.Prelude.{◌≡◌, ◌≢◌, ◌↔◌, ◌∷◌, [], false, map, IfSome, IsErrOf, IsTrue, OnErr, OnOk};
ghost use Rattle.bac_store.specs.Views.{allowed_view, data_view, object_view};
ghost use Rattle.bac_c.specs.Devices.{Holds, IsIdle};
ghost use Rattle.bac_c.specs.Listing.{allowing as allowing_object, can_allow, lists_property, one_more as one_more_of, ChangesOnlyObjects, HasListed, IsLastChanged, IsListFault, IsListStatus, StaysListed};
ghost use Rattle.bac_c.specs.Starting.{listed_in};
ghost use Rattle.bac_c.specs.Statuses.{is_one_of, status_of, BAD_OBJECT, DONE, LISTING, NO_MEMORY};

use crate::device::Device;
use crate::fault::{Fault, status};
use crate::handle::Handle;
use crate::ranges::whole_data;
use bac_store::{Allowed, Object};
use bac_value::DataBuf;
use std::alloc::Global;

/// A list of one value; None where memory is refused.
fn list_of(alloc: Global, value: DataBuf) -> Option<Vec<DataBuf>>
    ensures { IfSome result (λ v. map data_view v.items ≡ value.octets.items ∷ []) }
{
    let mut listed = Vec::new(alloc);
    if listed.push(value).is_err() {
        return None;
    }
    Some(listed)
}

/// A list with one more value, in place of other limits, and whether there was memory for it; the limits as they were otherwise.
fn one_more(alloc: Global, allowed: Allowed, value: DataBuf) -> (Allowed, bool)
    ensures more { IsTrue result.1 → allowed_view result.0 ≡ one_more_of value.octets.items (allowed_view allowed) }
    ensures same { (IsTrue result.1 → ⊥) → allowed_view result.0 ≡ allowed_view allowed }
{
    match allowed {
        Allowed::OneOf(mut listed) => {
            let done = listed.push(value).is_ok();
            (Allowed::OneOf(listed), done)
        }
        Allowed::Any => match list_of(alloc, value) {
            Some(listed) => (Allowed::OneOf(listed), true),
            None => (Allowed::Any, false),
        },
        Allowed::Between { least, greatest } => match list_of(alloc, value) {
            Some(listed) => (Allowed::OneOf(listed), true),
            None => (Allowed::Between { least, greatest }, false),
        },
    }
}

/// An object whose last property takes one more value; the object as it was otherwise. `BadObject` exactly where it has no property.
#[tactic(auto, using(crate::proofs::Limits::last_some, crate::proofs::Limits::none_limited))]
fn allowing(alloc: Global, object: Object, value: DataBuf) -> (Object, Result<(), Fault>)
    ensures allowed { OnOk result.1 (object_view result.0 ≡ allowing_object value.octets.items (object_view object)) }
    ensures bad { IsErrOf result.1 Fault.BadObject ↔ (lists_property (object_view object) ≡ false) }
    ensures few { IsTrue (is_one_of LISTING (status_of result.1)) }
    ensures started { IsErrOf result.1 Fault.AlreadyStarted → ⊥ }
    ensures open { IsErrOf result.1 Fault.NotOpen → ⊥ }
    ensures same { OnErr result.1 (object_view result.0 ≡ object_view object) }
{
    let mut object = object;
    let Some(mut property) = object.properties.pop() else {
        return (object, Err(Fault::BadObject));
    };
    let (allowed, done) = one_more(alloc, property.allowed, value);
    property.allowed = allowed;
    // it was taken out above, so there is room
    object.properties.push_reserved(property);
    if done {
        (object, Ok(()))
    } else {
        (object, Err(Fault::NoMemory))
    }
}

impl Device {
    /// Adds a value, as octets of data, to the list of those that the network may write to the property that was listed last.
    #[tactic(auto, using(crate::proofs::Lists::last_changed, crate::proofs::Lists::last_kept, crate::proofs::Limits::last_has))]
    pub fn allow(&mut self, alloc: Global, octets: &[u8]) -> Result<(), Fault>
        ensures listed { OnOk result (IsLastChanged (allowing_object octets.now) (listed_in self.old) (listed_in self.new)) }
        ensures fault { IsListFault self.old result }
        ensures bad { (IsErrOf result Fault.NoMemory → ⊥)
            → (IsErrOf result Fault.BadObject ↔ IsIdle self.old × (can_allow octets.now (listed_in self.old) ≡ false)) }
        ensures rest { ChangesOnlyObjects self.old self.new }
        ensures err { OnErr result (listed_in self.new ≡ listed_in self.old) }
    {
        if self.node.is_some() {
            return Err(Fault::AlreadyStarted);
        }
        let Some(data) = whole_data(octets) else {
            return Err(Fault::BadObject);
        };
        let value = data.to_owned(alloc)?;
        let Some(object) = self.listed.pop() else {
            return Err(Fault::BadObject);
        };
        let (object, done) = allowing(alloc, object, value);
        // it was taken out above, so there is room
        self.listed.push_reserved(object);
        done
    }
}

/// Adds a value to the list of those that the network may write to the property that was listed last.
#[unsafe(no_mangle)]
pub extern "C" fn bac_allow(alloc: Global, handle: &mut Handle, octets: &[u8]) -> u32
    ensures went { result ≡ DONE → HasListed (IsLastChanged (allowing_object octets.now)) handle.old.parked.device handle.new.parked.device }
    ensures status { IsListStatus handle.old.parked.device result }
    ensures bad { result ≢ NO_MEMORY
        → ((result ≡ BAD_OBJECT) ↔ Holds (λ d. IsIdle d × (can_allow octets.now (listed_in d) ≡ false)) handle.old.parked.device) }
    ensures err { result ≢ DONE → StaysListed handle.old.parked.device handle.new.parked.device }
{
    let Some(mut device) = handle.take(alloc) else {
        return status(Err(Fault::NotOpen));
    };
    let done = device.allow(alloc, octets);
    handle.put(device);
    status(done)
}
