//! The kept cells of a node that is to be started.
ghost use Rattle.std.specs.Prelude.{◌≡◌, ◌≢◌, ◌↔◌, false, IsErrOf, OnErr, OnOk};
ghost use Rattle.bac_c.specs.Devices.{Holds, IsIdle};
ghost use Rattle.bac_c.specs.Keeping.{HasPut, IsPut};
ghost use Rattle.bac_c.specs.Kept.{is_place};
ghost use Rattle.bac_c.specs.Listing.{IsListFault, IsListStatus};
ghost use Rattle.bac_c.specs.Statuses.{BAD_OBJECT, DONE};

use crate::device::Device;
use crate::fault::{Fault, status};
use crate::handle::Handle;
use crate::places::part_of;
use std::alloc::Global;

impl Device {
    /// Lists a cell, instead of the one that is listed at its place.
    pub fn add_kept(&mut self, alloc: Global, place: u64, octets: &[u8]) -> Result<(), Fault>
        ensures put { OnOk result (IsPut place octets.now self.old self.new) }
        ensures fault { IsListFault self.old result }
        ensures bad { IsErrOf result Fault.BadObject ↔ IsIdle self.old × (is_place place ≡ false) }
        ensures err { OnErr result (self.new ≡ self.old) }
    {
        if self.node.is_some() {
            return Err(Fault::AlreadyStarted);
        }
        if part_of(place).is_none() {
            return Err(Fault::BadObject);
        }
        self.kept.put(alloc, place, octets)?;
        Ok(())
    }
}

/// Lists a cell that was kept of an earlier life of the node, instead of the one that is listed at its place.
#[unsafe(no_mangle)]
pub extern "C" fn bac_add_kept(alloc: Global, handle: &mut Handle, place: u64, octets: &[u8]) -> u32
    ensures went { result ≡ DONE → HasPut place octets.now handle.old.parked.device handle.new.parked.device }
    ensures status { IsListStatus handle.old.parked.device result }
    ensures bad { (result ≡ BAD_OBJECT) ↔ Holds (λ d. IsIdle d × (is_place place ≡ false)) handle.old.parked.device }
    ensures err { result ≢ DONE → handle.new.parked.device ≡ handle.old.parked.device }
{
    let Some(mut device) = handle.take(alloc) else {
        return status(Err(Fault::NotOpen));
    };
    let done = device.add_kept(alloc, place, octets);
    handle.put(device);
    status(done)
}
