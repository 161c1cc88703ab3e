//! What is wrong with the objects that are listed, as a start of a described node finds it.
ghost use Rattle.std.specs.Prelude.{◌≡◌, ◌≢◌, ◌↔◌, map, IfOk, IsErrOf, IsTrue, MatchOption, None, OnErr};
ghost use Rattle.bac_store.specs.Described.{AreDescribed, IsDescriptionFault};
ghost use Rattle.bac_store.specs.Views.{object_view};
ghost use Rattle.bac_c.specs.Describing.{flaw_number, refused_told, HasTold, TellsRefused};
ghost use Rattle.bac_c.specs.Devices.{Holds};
ghost use Rattle.bac_c.specs.Starting.{listed_in};
ghost use Rattle.bac_c.specs.Statuses.{is_one_of, status_of, ALREADY_STARTED, DONE, NOT_OPEN, TELLING};

use crate::device::Device;
use crate::fault::{Fault, status};
use crate::handle::Handle;
use crate::listed::copied_objects;
use crate::records::Refused;
use bac_store::{DescriptionFault, DescriptionFlaw, Object, Store};
use std::alloc::Global;

/// Why some objects describe no store; None where they do.
#[tactic(auto, using(crate::proofs::Describes::describes))]
fn fault_of(alloc: Global, objects: Vec<Object>) -> Result<Option<DescriptionFault>, Fault>
    ensures fault { IfOk result (λ f. MatchOption f (AreDescribed (map object_view objects.items)) (IsDescriptionFault (map object_view objects.items))) }
    ensures memory { OnErr result (IsErrOf result Fault.NoMemory) }
{
    match Store::describing(alloc, objects) {
        Ok(_) => Ok(None),
        Err(fault) => match fault.why {
            DescriptionFlaw::NoMemory => Err(Fault::NoMemory),
            _ => Ok(Some(fault)),
        },
    }
}

/// The number of a flaw, 1 to 12; 0 where memory was refused, as nothing is wrong with the objects then.
fn number_of(flaw: DescriptionFlaw) -> u32
    ensures { result ≡ flaw_number flaw }
{
    match flaw {
        DescriptionFlaw::Instance => 1,
        DescriptionFlaw::Name => 2,
        DescriptionFlaw::File => 3,
        DescriptionFlaw::Number => 4,
        DescriptionFlaw::Twice => 5,
        DescriptionFlaw::Values => 6,
        DescriptionFlaw::Limits => 7,
        DescriptionFlaw::SameIdentifier => 8,
        DescriptionFlaw::SameName => 9,
        DescriptionFlaw::SecondDevice => 10,
        DescriptionFlaw::TooManyObjects => 11,
        DescriptionFlaw::NoDevice => 12,
        DescriptionFlaw::NoMemory => 0,
    }
}

/// What a C program is told of a fault.
fn told(fault: Option<DescriptionFault>) -> Refused
    ensures { result ≡ refused_told fault }
{
    let Some(fault) = fault else {
        return Refused {
            object: u64::MAX,
            property: u32::MAX,
            flaw: 0,
        };
    };
    Refused {
        object: match fault.object {
            Some(object) => object as u64,
            None => u64::MAX,
        },
        property: fault.property.unwrap_or(u32::MAX),
        flaw: number_of(fault.why),
    }
}

impl Device {
    /// What is wrong with the objects that are listed, as a start of a described node finds it.
    #[tactic(auto, using(crate::proofs::Describes::told_of))]
    pub fn refused(&self, alloc: Global) -> Result<Refused, Fault>
        ensures told { IfOk result (TellsRefused (listed_in self.now)) }
        ensures again { IsErrOf result Fault.AlreadyStarted ↔ (self.now.node ≢ None) }
        ensures few { IsTrue (is_one_of TELLING (status_of result)) }
        ensures open { IsErrOf result Fault.NotOpen → ⊥ }
    {
        if self.node.is_some() {
            return Err(Fault::AlreadyStarted);
        }
        let Ok(objects) = copied_objects(alloc, &self.listed) else {
            return Err(Fault::NoMemory);
        };
        let fault = fault_of(alloc, objects)?;
        Ok(told(fault))
    }
}

/// Puts out what is wrong with the objects that are listed, as a start of a described node finds it.
#[unsafe(no_mangle)]
pub extern "C" fn bac_problem(alloc: Global, handle: &mut Handle, refused: &mut Refused) -> u32
    ensures told { result ≡ DONE → HasTold handle.old.parked.device refused.new }
    ensures closed { (result ≡ NOT_OPEN) ↔ (handle.old.parked.device ≡ None) }
    ensures again { (result ≡ ALREADY_STARTED) ↔ Holds (λ d. d.node ≢ None) handle.old.parked.device }
    ensures few { IsTrue (is_one_of TELLING result) }
    ensures kept { result ≢ DONE → refused.new ≡ refused.old }
    ensures same { handle.new.parked.device ≡ handle.old.parked.device }
{
    let Some(device) = handle.take(alloc) else {
        return status(Err(Fault::NotOpen));
    };
    let done = match device.refused(alloc) {
        Ok(told) => {
            *refused = told;
            Ok(())
        }
        Err(fault) => Err(fault),
    };
    handle.put(device);
    status(done)
}
