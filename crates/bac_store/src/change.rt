//! Local changes, which the node makes itself.
ghost use Rattle.std.specs.Prelude.{◌≡◌, IfOk};
ghost use Rattle.bac_store.specs.Views.{change_view};

use crate::copying::copied_octets;
use bac_value::{NoMemory, ObjectIdentifier};
use std::alloc::Global;

/// A local change, made by the node itself and not by a request: for example a sensor has a new reading. It ignores the flags
/// that say what may be written over the network.
#[derive(Debug, Drop)]
pub enum Change {
    /// A listed property gets new values.
    Value {
        /// The object.
        object: ObjectIdentifier,
        /// The number of the property (clause 21, BACnetPropertyIdentifier).
        property: u32,
        /// The new values, encoded as data (clause 20.2).
        octets: Vec<u8>,
    },
    /// A file gets new contents, which replace all of its octets.
    File {
        /// The file.
        object: ObjectIdentifier,
        /// The new contents.
        octets: Vec<u8>,
    },
}

impl Change {
    /// Copies the change, including its octets.
    pub fn copy(&self, alloc: Global) -> Result<Change, NoMemory>
        ensures { IfOk result (λ c. change_view c ≡ change_view self.now) }
    {
        match self {
            Change::Value {
                object,
                property,
                octets,
            } => Ok(Change::Value {
                object: *object,
                property: *property,
                octets: copied_octets(alloc, octets)?,
            }),
            Change::File { object, octets } => Ok(Change::File {
                object: *object,
                octets: copied_octets(alloc, octets)?,
            }),
        }
    }
}
