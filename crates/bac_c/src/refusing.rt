//! What is wrong with the objects that are listed for a plain start.
ghost use Rattle.std.specs.Prelude.{◌≡◌, ◌≢◌, ◌↔◌, None, IfOk, IsErrOf, IsTrue};
ghost use Rattle.bac_c.specs.Devices.{Holds};
ghost use Rattle.bac_c.specs.Refusing.{refusal_told, HasToldRefusal, TellsRefusal};
ghost use Rattle.bac_c.specs.Starting.{listed_in};
ghost use Rattle.bac_c.specs.Statuses.{is_one_of, status_of, TELLING};
ghost use Rattle.bac_c.specs.Statuses.{ALREADY_STARTED, DONE, NOT_OPEN};
ghost use Rattle.bac_c.specs.Taking.{AreTaken};

use crate::device::Device;
use crate::fault::{Fault, status};
use crate::handle::Handle;
use crate::records::Refused;
use crate::taking::{Refusal, first_refusal};
use std::alloc::Global;

/// What a C program is told of the first object that is refused.
fn told(refusal: Option<Refusal>) -> Refused
    ensures { result ≡ refusal_told refusal }
{
    match refusal {
        Some(refusal) => Refused {
            object: refusal.object as u64,
            property: refusal.property.unwrap_or(u32::MAX),
            flaw: u32::from(refusal.why.number()),
        },
        None => Refused {
            object: u64::MAX,
            property: u32::MAX,
            flaw: 0,
        },
    }
}

impl Device {
    /// What is wrong with the objects that are listed, as a plain start finds it.
    #[tactic(auto, using(crate::proofs::Tells::refusal_of, crate::proofs::Tells::none_told))]
    pub fn start_refused(&self, alloc: Global) -> Result<Refused, Fault>
        ensures told { IfOk result (TellsRefusal (listed_in self.now)) }
        ensures taken { IfOk result (λ r. (r.flaw ≡ 0) ↔ AreTaken (listed_in self.now)) }
        ensures again { IsErrOf result Fault.AlreadyStarted ↔ (self.now.node ≢ None) }
        ensures few { IsTrue (is_one_of TELLING (status_of result)) }
        ensures open { IsErrOf result Fault.NotOpen → ⊥ }
    {
        if self.node.is_some() {
            return Err(Fault::AlreadyStarted);
        }
        let refusal = first_refusal(alloc, &self.listed)?;
        Ok(told(refusal))
    }
}

/// Puts out the first of the listed objects that a plain start refuses, and why; 0 as the flaw exactly where it takes them all.
#[unsafe(no_mangle)]
pub extern "C" fn bac_start_problem(
    alloc: Global,
    handle: &mut Handle,
    refused: &mut Refused,
) -> u32
    ensures told { result ≡ DONE → HasToldRefusal handle.old.parked.device refused.new }
    ensures taken { result ≡ DONE → Holds (λ d. (refused.new.flaw ≡ 0) ↔ AreTaken (listed_in d)) handle.old.parked.device }
    ensures closed { (result ≡ NOT_OPEN) ↔ (handle.old.parked.device ≡ None) }
    ensures again { (result ≡ ALREADY_STARTED) ↔ Holds (λ d. d.node ≢ None) handle.old.parked.device }
    ensures few { IsTrue (is_one_of TELLING result) }
    ensures kept { result ≢ DONE → refused.new ≡ refused.old }
    ensures same { handle.new.parked.device ≡ handle.old.parked.device }
{
    let Some(device) = handle.take(alloc) else {
        return status(Err(Fault::NotOpen));
    };
    let done = match device.start_refused(alloc) {
        Ok(told) => {
            *refused = told;
            Ok(())
        }
        Err(fault) => Err(fault),
    };
    handle.put(device);
    status(done)
}
