//! What WriteProperty may set a property to.
ghost use Rattle.std.specs.Prelude.{◌≡◌, map, IfOk};
ghost use Rattle.bac_store.specs.Views.{allowed_view, data_view};

use bac_value::{DataBuf, NoMemory};
use std::alloc::Global;

/// Which values WriteProperty may set, among those of the property's kind: its limits.
///
/// They bind requests alone. A local change ([`Store::set_value`](crate::Store::set_value)) sets any value of the kind.
#[derive(Debug, Drop)]
pub enum Allowed {
    /// All of them.
    Any,
    /// The numbers from the least to the greatest, both included. Each is one value, encoded as data (clause 20.2), of the kinds Unsigned,
    /// Signed, Real or Enumerated.
    ///
    /// Reals are compared as IEEE 754 says: -0.0 equals 0.0, and the infinities are below and above all others. A NaN is never allowed.
    Between {
        /// The least number.
        least: DataBuf,
        /// The greatest number.
        greatest: DataBuf,
    },
    /// The values of a list, each encoded as data (clause 20.2). A value is compared by its octets, so -0.0 is another value than 0.0.
    OneOf(Vec<DataBuf>),
}

impl Allowed {
    /// Copies the limits. Returns `NoMemory` if an allocation fails.
    pub fn copied(&self, alloc: Global) -> Result<Allowed, NoMemory>
        ensures { IfOk result (λ a. allowed_view a ≡ allowed_view self.now) }
    {
        match self {
            Allowed::Any => Ok(Allowed::Any),
            Allowed::Between { least, greatest } => {
                let least = least.as_data().to_owned(alloc)?;
                let greatest = greatest.as_data().to_owned(alloc)?;
                Ok(Allowed::Between { least, greatest })
            }
            Allowed::OneOf(listed) => Ok(Allowed::OneOf(copied_list(alloc, listed)?)),
        }
    }
}

/// Copies a list of values, in their order.
fn copied_list(alloc: Global, listed: &[DataBuf]) -> Result<Vec<DataBuf>, NoMemory>
    ensures { IfOk result (λ v. map data_view v.items ≡ map data_view listed.now) }
{
    let mut copies = Vec::with_capacity(alloc, listed.len())?;
    for data in listed {
        copies.push(data.as_data().to_owned(alloc)?)?;
    }
    Ok(copies)
}
