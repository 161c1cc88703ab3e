//! What a C program holds.
ghost use Rattle.std.specs.Prelude.{◌≡◌, ◌≢◌, ◌↔◌, None, Some, MatchOption, IsTrue};

use crate::device::Device;
use crate::parked::{Parked, fetch, park, vacant, vacate};
use std::alloc::Global;

/// What a C program holds: nothing where it is zeroed, or a device. It cannot be dropped or overwritten, so no device is lost.
#[repr(C)]
pub struct Handle {
    pub held: bool,
    pub parked: Parked,
    pub ghost told: { IsTrue held ↔ (parked.device ≢ None) },
}

impl Handle {
    /// A handle that holds nothing.
    pub fn none() -> Handle
        ensures { result.parked.device ≡ None }
    {
        Handle {
            held: false,
            parked: vacant(),
        }
    }

    /// A handle that holds a device.
    pub fn of(boxed: Box<Device>) -> Handle
        ensures { result.parked.device ≡ Some boxed.value }
    {
        Handle {
            held: true,
            parked: park(boxed),
        }
    }

    /// Whether it holds a device.
    pub fn is_open(&self) -> bool
        ensures { IsTrue result ↔ (self.now.parked.device ≢ None) }
    {
        self.held
    }

    /// Takes the device out, if there is one: the handle holds nothing then.
    pub fn take(&mut self, alloc: Global) -> Option<Box<Device>>
        ensures left { self.new.parked.device ≡ None }
        ensures was { MatchOption result (self.old.parked.device ≡ None) (λ b. self.old.parked.device ≡ Some b.value) }
    {
        // an empty handle takes its place, as none may be dropped or moved out of
        let Handle { held, parked } = std::mem::replace(self, Handle::none());
        if !held {
            // nothing was in it
            vacate(parked);
            return None;
        }
        Some(fetch(alloc, parked))
    }

    /// Puts a device into the handle, which holds none.
    pub fn put(&mut self, boxed: Box<Device>)
        requires { self.old.parked.device ≡ None }
        ensures { self.new.parked.device ≡ Some boxed.value }
    {
        let Handle { held: _, parked } = std::mem::replace(self, Handle::of(boxed));
        // nothing was in it
        vacate(parked);
    }
}
