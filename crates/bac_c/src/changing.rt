//! Changes of the node's own store.
ghost use Rattle.std.specs.Prelude.{◌≡◌, ◌≢◌, ◌↔◌, ◌≤◌, false, true, length, IfErr, IfOk, IsErrOf, IsTrue, OnErr, OnOk};
ghost use Rattle.bac_store.specs.AtNode.{octets_of};
ghost use Rattle.bac_store.specs.Views.{change_view};
ghost use Rattle.bac_c.specs.Changing.{change_for, contents_of, fault_for_change, value_of, ChangeRefused, Changes, HasChanged, IsChangeStatus};
ghost use Rattle.bac_c.specs.Devices.{IsIdle, Runs};
ghost use Rattle.bac_c.specs.Ranges.{is_identifier, is_instance, is_setting, IsUnready};
ghost use Rattle.bac_c.specs.Statuses.{is_one_of, status_of, CHANGING, DONE};

use crate::copying::copied_octets;
use crate::device::Device;
use crate::fault::{Fault, status};
use crate::handle::Handle;
use crate::ranges::identifier_of;
use crate::requests::FILE;
use crate::setting::Setting;
use bac_store::{Change, ChangeFault};
use std::alloc::Global;

/// The fault of a change.
fn fault_of(fault: ChangeFault) -> Fault
    ensures { result ≡ fault_for_change fault }
{
    match fault {
        ChangeFault::NoSuchObject => Fault::NoSuchObject,
        ChangeFault::NoSuchProperty => Fault::NoSuchProperty,
        ChangeFault::BadValue => Fault::BadValue,
        ChangeFault::TooLong => Fault::TooLong,
        ChangeFault::NoMemory => Fault::NoMemory,
    }
}

/// The change that a C program means; `BadRequest` exactly where a number is out of range, otherwise `NoMemory` where that was refused for its octets.
fn change_of(alloc: Global, setting: &Setting<'_>) -> Result<Change, Fault>
    ensures same { IfOk result (λ c. change_view c ≡ change_for setting.now) }
    ensures may { OnOk result (is_setting setting.now ≡ true) }
    ensures why { IfErr result (IsUnready (is_setting setting.now)) }
    ensures held { IsErrOf result Fault.NoMemory → 1 ≤ length (octets_of (change_for setting.now)) }
{
    match setting {
        Setting::Value {
            object_type,
            instance,
            property,
            octets,
        } => {
            let Some(object) = identifier_of(*object_type, *instance) else {
                return Err(Fault::BadRequest);
            };
            let property = *property;
            let octets = copied_octets(alloc, octets)?;
            Ok(Change::Value {
                object,
                property,
                octets,
            })
        }
        Setting::File { instance, octets } => {
            let Some(object) = identifier_of(FILE, *instance) else {
                return Err(Fault::BadRequest);
            };
            let octets = copied_octets(alloc, octets)?;
            Ok(Change::File { object, octets })
        }
    }
}

impl Device {
    /// Makes a change of the store at the node itself.
    pub fn change(&mut self, alloc: Global, setting: &Setting<'_>) -> Result<(), Fault>
        ensures made { OnOk result (Changes (change_for setting.now) self.old self.new) }
        ensures idle { IsErrOf result Fault.NotStarted ↔ IsIdle self.old }
        ensures bad { IsErrOf result Fault.BadRequest ↔ Runs (λ n. is_setting setting.now ≡ false) self.old }
        ensures few { IsTrue (is_one_of CHANGING (status_of result)) }
        ensures open { IsErrOf result Fault.NotOpen → ⊥ }
        ensures refused { IfErr result (λ e. ChangeRefused e (is_setting setting.now) (change_for setting.now) self.old) }
        ensures err { OnErr result (self.new ≡ self.old) }
    {
        let Some(node) = &mut self.node else {
            return Err(Fault::NotStarted);
        };
        let change = change_of(alloc, setting)?;
        match node.change(&change) {
            Ok(()) => Ok(()),
            Err(fault) => Err(fault_of(fault)),
        }
    }
}

/// Makes a change of the store of the node.
#[tactic(auto, using(crate::proofs::Refusals::done_keeps, crate::proofs::Refusals::keeps))]
fn change_by(alloc: Global, handle: &mut Handle, setting: &Setting<'_>) -> u32
    ensures went { result ≡ DONE → HasChanged (change_for setting.now) handle.old.parked.device handle.new.parked.device }
    ensures status { IsChangeStatus (is_setting setting.now) (change_for setting.now) handle.old.parked.device result }
    ensures few { IsTrue (is_one_of CHANGING result) }
    ensures err { result ≢ DONE → handle.new.parked.device ≡ handle.old.parked.device }
{
    let Some(mut device) = handle.take(alloc) else {
        return status(Err(Fault::NotOpen));
    };
    let done = device.change(alloc, setting);
    handle.put(device);
    match done {
        Ok(()) => status(Ok(())),
        Err(fault) => status(Err(fault)),
    }
}

/// Sets the values of a property of the node's own store, as octets of data.
#[unsafe(no_mangle)]
pub extern "C" fn bac_set_value(
    alloc: Global,
    handle: &mut Handle,
    object_type: u16,
    instance: u32,
    property: u32,
    octets: &[u8],
) -> u32
    ensures went { result ≡ DONE → HasChanged (value_of object_type instance property octets.now) handle.old.parked.device handle.new.parked.device }
    ensures status { IsChangeStatus (is_identifier object_type instance) (value_of object_type instance property octets.now) handle.old.parked.device result }
    ensures few { IsTrue (is_one_of CHANGING result) }
    ensures err { result ≢ DONE → handle.new.parked.device ≡ handle.old.parked.device }
{
    let setting = Setting::Value {
        object_type,
        instance,
        property,
        octets,
    };
    change_by(alloc, handle, &setting)
}

/// Sets all octets of a file of the node's own store.
#[unsafe(no_mangle)]
pub extern "C" fn bac_set_file(alloc: Global, handle: &mut Handle, file: u32, octets: &[u8]) -> u32
    ensures went { result ≡ DONE → HasChanged (contents_of file octets.now) handle.old.parked.device handle.new.parked.device }
    ensures status { IsChangeStatus (is_instance file) (contents_of file octets.now) handle.old.parked.device result }
    ensures few { IsTrue (is_one_of CHANGING result) }
    ensures err { result ≢ DONE → handle.new.parked.device ≡ handle.old.parked.device }
{
    let setting = Setting::File {
        instance: file,
        octets,
    };
    change_by(alloc, handle, &setting)
}
