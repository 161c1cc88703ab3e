//! The address of a box, as a C program can hold it. The only raw pointers are here.
ghost use Rattle.std.specs.Prelude.{◌≡◌, ◌≢◌, Option, None, Some};
ghost use Rattle.bac_c.specs.declared.device.Device.{Device};

use crate::device::Device;
use std::alloc::Global;
use std::marker::Model;

/// The address of the box of a device, or null. It cannot be dropped, so no box is lost: `fetch` takes the box back, `vacate` ends one that has none.
#[repr(C)]
pub struct Parked {
    at: *mut u8,
    pub ghost device: { Option Device },
}

impl Model for Parked {
    ghost use Rattle.bac_c.specs.Parking.{parks};

    ghost also_owns = { λ p. parks p.at p.device };
}

/// Ends a place without a device.
pub(crate) fn vacate(parked: Parked)
    requires { parked.device ≡ None }
{
    // taken apart, as it cannot be dropped
    let Parked { at: _ } = parked;
}

/// No device, at null.
pub(crate) fn vacant() -> Parked
    ensures { result.device ≡ None }
{
    Parked {
        at: std::ptr::null_mut(),
    }
}

/// The box of a device, as its address.
pub(crate) fn park(boxed: Box<Device>) -> Parked
    ensures { result.device ≡ Some boxed.value }
{
    Parked {
        at: Box::into_raw(boxed) as *mut u8,
    }
}

/// The box of what is parked.
pub(crate) fn fetch(alloc: Global, parked: Parked) -> Box<Device>
    requires { parked.device ≢ None }
    ensures { parked.device ≡ Some result.value }
{
    let Parked { at } = parked;
    // the address is that of a box that `park` gave away, and is used this once
    unsafe { Box::from_raw(alloc, at as *mut Device) }
}
