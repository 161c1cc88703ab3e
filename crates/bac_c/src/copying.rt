//! Octets that are copied, in from a C program and out to it.
ghost use Rattle.std.specs.Prelude.{◌≡◌, ◌≤◌, length, IfOk, OnErr};
ghost use Rattle.bac_c.specs.Results.{IsCopied};

use bac_value::NoMemory;
use std::alloc::Global;

/// A copy of octets, in one allocation where there are any, otherwise in none.
pub fn copied_octets(alloc: Global, octets: &[u8]) -> Result<Vec<u8>, NoMemory>
    ensures same { IfOk result (λ v. v.items ≡ octets.now) }
    ensures held { OnErr result (1 ≤ length octets.now) }
{
    let mut copy = Vec::new(alloc);
    copy.extend_from_slice(octets)?;
    Ok(copy)
}

/// Copies octets to the front of a buffer where they fit, and none otherwise: how many they are.
pub fn copy_out(octets: &[u8], out: &mut [u8]) -> usize
    ensures { IsCopied octets.now out.old result out.new }
{
    let len = octets.len();
    if len <= out.len() {
        let (front, _) = out.split_at_mut(len);
        front.copy_from_slice(octets);
    }
    len
}
