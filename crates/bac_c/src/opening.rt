//! Open and close.
ghost use Rattle.std.specs.Prelude.{◌≡◌, ◌≢◌, ◌↔◌, [], None, IsTrue};
ghost use Rattle.bac_c.specs.Devices.{Holds, IsIdle, IsQuiet};
ghost use Rattle.bac_c.specs.Statuses.{is_one_of, ALREADY_OPEN, DONE, OPENING};

use crate::device::Device;
use crate::fault::{Fault, status};
use crate::handle::Handle;
use std::alloc::Global;

/// Puts a device without objects into a handle that holds nothing.
#[unsafe(no_mangle)]
pub extern "C" fn bac_open(alloc: Global, handle: &mut Handle) -> u32
    ensures opened { result ≡ DONE → Holds (λ d. (d.listed.items ≡ []) × IsIdle d) handle.new.parked.device }
    ensures quiet { result ≡ DONE → Holds IsQuiet handle.new.parked.device }
    ensures open { (result ≡ ALREADY_OPEN) ↔ (handle.old.parked.device ≢ None) }
    ensures few { IsTrue (is_one_of OPENING result) }
    ensures err { result ≢ DONE → handle.new.parked.device ≡ handle.old.parked.device }
{
    if handle.is_open() {
        return status(Err(Fault::AlreadyOpen));
    }
    let Ok(device) = Box::new(alloc, Device::new(alloc)) else {
        return status(Err(Fault::NoMemory));
    };
    handle.put(device);
    status(Ok(()))
}

/// Frees what a handle holds, if anything: it holds nothing from then on.
#[unsafe(no_mangle)]
pub extern "C" fn bac_release(alloc: Global, handle: &mut Handle)
    ensures { handle.new.parked.device ≡ None }
{
    // dropped at the end of the call, which frees it
    let _device = handle.take(alloc);
}
