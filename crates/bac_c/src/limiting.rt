//! Limits of a property that the network may write.
ghost use Rattle.std.specs.Prelude.{◌≡◌, ◌≢◌, ◌↔◌, false, IsErrOf, IsTrue, OnErr, OnOk};
ghost use Rattle.bac_store.specs.Views.{object_view};
ghost use Rattle.bac_c.specs.Devices.{Holds, IsIdle};
ghost use Rattle.bac_c.specs.Listing.{can_limit, limited as limited_object, lists_property, ChangesOnlyObjects, HasListed, IsLastChanged, IsListFault, IsListStatus, StaysListed};
ghost use Rattle.bac_c.specs.Starting.{listed_in};
ghost use Rattle.bac_c.specs.Statuses.{BAD_OBJECT, DONE, NO_MEMORY};

use crate::device::Device;
use crate::fault::{Fault, status};
use crate::handle::Handle;
use crate::ranges::whole_data;
use bac_store::{Allowed, Object};
use bac_value::DataBuf;
use std::alloc::Global;

/// An object whose last property has these limits, and whether it has a property.
#[tactic(auto, using(crate::proofs::Limits::last_some, crate::proofs::Limits::none_limited))]
fn limited(object: Object, least: DataBuf, greatest: DataBuf) -> (Object, bool)
    ensures done { result.1 ≡ lists_property (object_view object) }
    ensures limits { IsTrue result.1 → object_view result.0 ≡ limited_object least.octets.items greatest.octets.items (object_view object) }
    ensures same { (IsTrue result.1 → ⊥) → object_view result.0 ≡ object_view object }
{
    let mut object = object;
    let Some(mut property) = object.properties.pop() else {
        return (object, false);
    };
    property.allowed = Allowed::Between { least, greatest };
    // it was taken out above, so there is room
    object.properties.push_reserved(property);
    (object, true)
}

impl Device {
    /// Sets the limits of the property that was listed last: values as octets of data.
    #[tactic(auto, using(crate::proofs::Lists::last_changed, crate::proofs::Lists::last_kept, crate::proofs::Limits::last_has))]
    pub fn limit(&mut self, alloc: Global, least: &[u8], greatest: &[u8]) -> Result<(), Fault>
        ensures listed { OnOk result (IsLastChanged (limited_object least.now greatest.now) (listed_in self.old) (listed_in self.new)) }
        ensures fault { IsListFault self.old result }
        ensures bad { (IsErrOf result Fault.NoMemory → ⊥)
            → (IsErrOf result Fault.BadObject ↔ IsIdle self.old × (can_limit least.now greatest.now (listed_in self.old) ≡ false)) }
        ensures rest { ChangesOnlyObjects self.old self.new }
        ensures err { OnErr result (listed_in self.new ≡ listed_in self.old) }
    {
        if self.node.is_some() {
            return Err(Fault::AlreadyStarted);
        }
        let Some(least) = whole_data(least) else {
            return Err(Fault::BadObject);
        };
        let Some(greatest) = whole_data(greatest) else {
            return Err(Fault::BadObject);
        };
        let least = least.to_owned(alloc)?;
        let greatest = greatest.to_owned(alloc)?;
        let Some(object) = self.listed.pop() else {
            return Err(Fault::BadObject);
        };
        let (object, done) = limited(object, least, greatest);
        // it was taken out above, so there is room
        self.listed.push_reserved(object);
        if done { Ok(()) } else { Err(Fault::BadObject) }
    }
}

/// Sets the limits of the property that was listed last.
#[unsafe(no_mangle)]
pub extern "C" fn bac_limit(
    alloc: Global,
    handle: &mut Handle,
    least: &[u8],
    greatest: &[u8],
) -> u32
    ensures went { result ≡ DONE → HasListed (IsLastChanged (limited_object least.now greatest.now)) handle.old.parked.device handle.new.parked.device }
    ensures status { IsListStatus handle.old.parked.device result }
    ensures bad { result ≢ NO_MEMORY
        → ((result ≡ BAD_OBJECT) ↔ Holds (λ d. IsIdle d × (can_limit least.now greatest.now (listed_in d) ≡ false)) handle.old.parked.device) }
    ensures err { result ≢ DONE → StaysListed handle.old.parked.device handle.new.parked.device }
{
    let Some(mut device) = handle.take(alloc) else {
        return status(Err(Fault::NotOpen));
    };
    let done = device.limit(alloc, least, greatest);
    handle.put(device);
    status(done)
}
