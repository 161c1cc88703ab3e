//! The objects of a node that is to be started.
ghost use Rattle.std.specs.Prelude.{◌≡◌, ◌≢◌, ◌↔◌, ◌++◌, ◌∷◌, [], false, IfOk, IsErrOf, IsTrue, OnErr, OnOk};
ghost use Rattle.bac_store.specs.Views.{object_view, property_view};
ghost use Rattle.bac_c.specs.Devices.{Holds, IsIdle};
ghost use Rattle.bac_c.specs.Listing.{bare, can_add, with_file, with_property, ChangesOnlyObjects, HasListed, IsLastChanged, IsListFault, IsListStatus, StaysListed};
ghost use Rattle.bac_c.specs.Ranges.{can_list};
ghost use Rattle.bac_c.specs.Starting.{listed_in};
ghost use Rattle.bac_c.specs.Statuses.{is_one_of, status_of, BAD_OBJECT, DONE, LISTING};

use crate::copying::copied_octets;
use crate::device::Device;
use crate::fault::{Fault, status};
use crate::handle::Handle;
use crate::ranges::{identifier_of, whole_data};
use bac_store::{Allowed, File, Object, Property};
use std::alloc::Global;

/// An object of that name, in UTF-8, without properties and without a file.
#[tactic(auto, using(crate::proofs::Texts::text_is, crate::proofs::Texts::text_is_not))]
fn bare_object(alloc: Global, object_type: u16, instance: u32, name: &[u8]) -> Result<Object, Fault>
    ensures bare { IfOk result (λ o. object_view o ≡ bare object_type instance name.now) }
    ensures bad { IsErrOf result Fault.BadObject ↔ (can_list object_type instance name.now ≡ false) }
    ensures few { IsTrue (is_one_of LISTING (status_of result)) }
    ensures started { IsErrOf result Fault.AlreadyStarted → ⊥ }
    ensures open { IsErrOf result Fault.NotOpen → ⊥ }
{
    let Some(id) = identifier_of(object_type, instance) else {
        return Err(Fault::BadObject);
    };
    let Ok(text) = std::str::from_utf8(name) else {
        return Err(Fault::BadObject);
    };
    let Ok(name) = String::from_str(alloc, text) else {
        return Err(Fault::NoMemory);
    };
    Ok(Object {
        id,
        name,
        properties: Vec::new(alloc),
        file: None,
    })
}

/// An object with one more property, and whether there was memory for it; the object as it was otherwise.
fn one_more(object: Object, property: Property) -> (Object, bool)
    ensures more { IsTrue result.1 → object_view result.0
        ≡ record (object_view object) { properties = (object_view object).properties ++ property_view property ∷ [] } }
    ensures same { (IsTrue result.1 → ⊥) → object_view result.0 ≡ object_view object }
{
    let mut object = object;
    let done = object.properties.push(property).is_ok();
    (object, done)
}

impl Device {
    /// Lists an object.
    #[tactic(auto, using(crate::proofs::Lists::one_added))]
    pub fn add_object(
        &mut self,
        alloc: Global,
        object_type: u16,
        instance: u32,
        name: &[u8],
    ) -> Result<(), Fault>
        ensures listed { OnOk result (listed_in self.new ≡ listed_in self.old ++ bare object_type instance name.now ∷ []) }
        ensures fault { IsListFault self.old result }
        ensures bad { IsErrOf result Fault.BadObject ↔ IsIdle self.old × (can_list object_type instance name.now ≡ false) }
        ensures rest { ChangesOnlyObjects self.old self.new }
        ensures err { OnErr result (listed_in self.new ≡ listed_in self.old) }
    {
        if self.node.is_some() {
            return Err(Fault::AlreadyStarted);
        }
        let object = bare_object(alloc, object_type, instance, name)?;
        match self.listed.push(object) {
            Ok(()) => Ok(()),
            Err(_) => Err(Fault::NoMemory),
        }
    }

    /// Lists a property of the object that was listed last, with values as octets of data.
    #[tactic(auto, using(crate::proofs::Lists::last_changed, crate::proofs::Lists::last_kept))]
    pub fn add_property(
        &mut self,
        alloc: Global,
        number: u32,
        octets: &[u8],
        writable: bool,
    ) -> Result<(), Fault>
        ensures listed { OnOk result (IsLastChanged (with_property number octets.now writable) (listed_in self.old) (listed_in self.new)) }
        ensures fault { IsListFault self.old result }
        ensures bad { IsErrOf result Fault.BadObject ↔ IsIdle self.old × (can_add octets.now (listed_in self.old) ≡ false) }
        ensures rest { ChangesOnlyObjects self.old self.new }
        ensures err { OnErr result (listed_in self.new ≡ listed_in self.old) }
    {
        if self.node.is_some() {
            return Err(Fault::AlreadyStarted);
        }
        if self.listed.is_empty() {
            return Err(Fault::BadObject);
        }
        let Some(data) = whole_data(octets) else {
            return Err(Fault::BadObject);
        };
        let values = data.to_owned(alloc)?;
        let Some(object) = self.listed.pop() else {
            return Err(Fault::BadObject);
        };
        let (object, done) = one_more(
            object,
            Property {
                number,
                values,
                writable,
                allowed: Allowed::Any,
            },
        );
        // it was taken out above, so there is room
        self.listed.push_reserved(object);
        if done { Ok(()) } else { Err(Fault::NoMemory) }
    }

    /// Gives the object that was listed last octets of a file.
    #[tactic(auto, using(crate::proofs::Lists::last_changed))]
    pub fn add_file(&mut self, alloc: Global, octets: &[u8], writable: bool) -> Result<(), Fault>
        ensures listed { OnOk result (IsLastChanged (with_file octets.now writable) (listed_in self.old) (listed_in self.new)) }
        ensures fault { IsListFault self.old result }
        ensures bad { IsErrOf result Fault.BadObject ↔ IsIdle self.old × (listed_in self.old ≡ []) }
        ensures rest { ChangesOnlyObjects self.old self.new }
        ensures err { OnErr result (listed_in self.new ≡ listed_in self.old) }
    {
        if self.node.is_some() {
            return Err(Fault::AlreadyStarted);
        }
        if self.listed.is_empty() {
            return Err(Fault::BadObject);
        }
        let octets = copied_octets(alloc, octets)?;
        let Some(mut object) = self.listed.pop() else {
            return Err(Fault::BadObject);
        };
        object.file = Some(File { octets, writable });
        // it was taken out above, so there is room
        self.listed.push_reserved(object);
        Ok(())
    }
}

/// Lists an object.
#[unsafe(no_mangle)]
pub extern "C" fn bac_add_object(
    alloc: Global,
    handle: &mut Handle,
    object_type: u16,
    instance: u32,
    name: &[u8],
) -> u32
    ensures went { result ≡ DONE → HasListed (λ a b. b ≡ a ++ bare object_type instance name.now ∷ []) handle.old.parked.device handle.new.parked.device }
    ensures status { IsListStatus handle.old.parked.device result }
    ensures bad { (result ≡ BAD_OBJECT) ↔ Holds (λ d. IsIdle d × (can_list object_type instance name.now ≡ false)) handle.old.parked.device }
    ensures err { result ≢ DONE → StaysListed handle.old.parked.device handle.new.parked.device }
{
    let Some(mut device) = handle.take(alloc) else {
        return status(Err(Fault::NotOpen));
    };
    let done = device.add_object(alloc, object_type, instance, name);
    handle.put(device);
    status(done)
}

/// Lists a property of the object that was listed last.
#[unsafe(no_mangle)]
pub extern "C" fn bac_add_property(
    alloc: Global,
    handle: &mut Handle,
    number: u32,
    octets: &[u8],
    writable: bool,
) -> u32
    ensures went { result ≡ DONE → HasListed (IsLastChanged (with_property number octets.now writable)) handle.old.parked.device handle.new.parked.device }
    ensures status { IsListStatus handle.old.parked.device result }
    ensures bad { (result ≡ BAD_OBJECT) ↔ Holds (λ d. IsIdle d × (can_add octets.now (listed_in d) ≡ false)) handle.old.parked.device }
    ensures err { result ≢ DONE → StaysListed handle.old.parked.device handle.new.parked.device }
{
    let Some(mut device) = handle.take(alloc) else {
        return status(Err(Fault::NotOpen));
    };
    let done = device.add_property(alloc, number, octets, writable);
    handle.put(device);
    status(done)
}

/// Gives the object that was listed last octets of a file.
#[unsafe(no_mangle)]
pub extern "C" fn bac_add_file(
    alloc: Global,
    handle: &mut Handle,
    octets: &[u8],
    writable: bool,
) -> u32
    ensures went { result ≡ DONE → HasListed (IsLastChanged (with_file octets.now writable)) handle.old.parked.device handle.new.parked.device }
    ensures status { IsListStatus handle.old.parked.device result }
    ensures bad { (result ≡ BAD_OBJECT) ↔ Holds (λ d. IsIdle d × (listed_in d ≡ [])) handle.old.parked.device }
    ensures err { result ≢ DONE → StaysListed handle.old.parked.device handle.new.parked.device }
{
    let Some(mut device) = handle.take(alloc) else {
        return status(Err(Fault::NotOpen));
    };
    let done = device.add_file(alloc, octets, writable);
    handle.put(device);
    status(done)
}
