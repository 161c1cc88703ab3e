//! Encoded data, borrowed (`Data`) or owned (`DataBuf`).
ghost use Rattle.std.specs.Prelude.{◌≡◌, ◌<◌, length, IfOk, OnErr};
ghost use Rattle.bac_value.specs.Data.{IsData};

use crate::data_elements::DataElements;
use crate::memory::NoMemory;
use crate::octets::{Octets, copy_of};
use std::alloc::Global;

/// Borrowed data: whole elements, where each opening tag is closed by its own number and at most 8 are open at once. May be empty.
#[derive(Clone, Copy, Debug)]
pub struct Data<'a> {
    /// The encoded elements, one after the other.
    pub octets: &'a [u8],
    pub ghost whole: { ∥ IsData octets.now ∥₁ },
}

/// Data that own their octets.
#[derive(Debug, Drop)]
pub struct DataBuf {
    /// The encoded elements, one after the other.
    pub octets: Vec<u8>,
    pub ghost whole: { ∥ IsData octets.items ∥₁ },
}

impl DataBuf {
    /// Copies data, in one allocation if there are octets and in none otherwise. Returns `NoMemory` if that allocation fails.
    pub fn copied<O: Octets>(alloc: Global, octets: O) -> Result<DataBuf, NoMemory>
        requires { ∥ IsData (O.octets octets) ∥₁ }
        ensures same { IfOk result (λ copy. copy.octets.items ≡ O.octets octets) }
        ensures full { OnErr result (0 < length (O.octets octets)) }
    {
        let octets = copy_of(alloc, octets)?;
        Ok(DataBuf { octets })
    }

    /// Borrows the data.
    pub fn as_data(&self) -> Data<'_>
        ensures { result.octets.now ≡ self.now.octets.items }
    {
        Data {
            octets: self.octets.as_slice(),
        }
    }

    /// The encoded octets, borrowed; it does not allocate.
    pub fn into_vec(self) -> Vec<u8>
        ensures { result ≡ self.octets }
    {
        self.octets
    }
}

impl<'a> Data<'a> {
    /// The elements in order, starting at the first.
    pub fn elements(self) -> DataElements<'a>
        ensures { result.octets.now ≡ self.entry.octets.now }
    {
        DataElements {
            octets: self.octets,
        }
    }

    /// Copies the data, in one allocation if there are octets and in none otherwise. Returns `NoMemory` if that allocation fails.
    pub fn to_owned(self, alloc: Global) -> Result<DataBuf, NoMemory>
        ensures same { IfOk result (λ copy. copy.octets.items ≡ self.entry.octets.now) }
        ensures full { OnErr result (0 < length self.entry.octets.now) }
    {
        DataBuf::copied(alloc, self.octets)
    }
}
