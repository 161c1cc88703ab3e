//! Why a node cannot follow a document.
ghost use Rattle.std.specs.Prelude.{◌≡◌};
ghost use Rattle.bac_store.specs.Views.{change_view};
ghost use Rattle.bac_follow.specs.Following.{IsRefusedAs};
ghost use Rattle.bac_follow.specs.declared.fault.FollowFault.TheVariants as fault;

use bac_store::{Change, ChangeFault};
use bac_value::{NoMemory, ObjectIdentifier};
use std::alloc::{AllocError, AllocFailed};
use thiserror::Error;

/// Why a node that serves the objects of a document cannot follow it.
#[derive(Clone, Copy, Debug, PartialEq, Eq, Error)]
pub enum FollowFault {
    /// The served objects cannot have what the document says now: there is no such object or property, or its values are of another kind.
    #[error("{fault}")]
    Cannot {
        /// The object.
        object: ObjectIdentifier,
        /// The number of the property; None for the octets of a file.
        property: Option<u32>,
        /// Why it cannot.
        fault: ChangeFault,
    },
    /// The document differs in more than values and octets of files: in its objects, their names or properties, or in what may be written.
    #[error("objects, names, properties, flags or limits differ from those served")]
    Other {
        /// The first object that is new or differs, in the order that the document has now; if there is none, the first one that is gone, in the order that
        /// it had before. None if each object of either list is like one of the other.
        object: Option<ObjectIdentifier>,
    },
    /// An allocation failed.
    #[error("no memory")]
    NoMemory,
}

impl FollowFault {
    /// The fault of a change.
    pub(crate) fn of(change: &Change, fault: ChangeFault) -> FollowFault
        ensures { IsRefusedAs (change_view change.now) fault result }
    {
        match (change, fault) {
            (_, ChangeFault::NoMemory) => FollowFault::NoMemory,
            (
                Change::Value {
                    object,
                    property,
                    ..
                },
                fault,
            ) => FollowFault::Cannot {
                object: *object,
                property: Some(*property),
                fault,
            },
            (Change::File { object, .. }, fault) => FollowFault::Cannot {
                object: *object,
                property: None,
                fault,
            },
        }
    }
}

impl From<NoMemory> for FollowFault {
    ghost from_gives = { λ _ f. f ≡ fault.NoMemory };

    fn from(_error: NoMemory) -> FollowFault {
        FollowFault::NoMemory
    }
}
