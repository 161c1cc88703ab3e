//! Reading a text character by character.
ghost use Rattle.std.specs.Prelude.{◌≡◌, Ok, IfOk, IfErr};
ghost use Rattle.bac_forms.specs.Reading.{IsMisfit, octets_of};
ghost use Rattle.bac_forms.specs.Scans.{scanned_whole};

use crate::fault::ScanFault;
use crate::gathered::Gathered;
use crate::scan::Scan;
use std::alloc::Global;

/// The datagrams of a text, before which that stands.
pub(crate) fn scan_text(alloc: Global, begun: Scan, text: &[u8]) -> Result<Vec<Vec<u8>>, ScanFault>
    ensures datagrams { IfOk result (λ d. scanned_whole begun text.now ≡ Ok (octets_of d.items)) }
    ensures misfit { IfErr result (IsMisfit (scanned_whole begun text.now)) }
{
    let mut gathered = Gathered::new(alloc);
    let mut scan = begun;
    let mut rest = text;
    while let Some((octet, others)) = rest.split_first() {
        let Some((next, event)) = scan.step(*octet) else {
            return Err(ScanFault::At(text.len() - rest.len()));
        };
        if gathered.add(alloc, event).is_err() {
            return Err(ScanFault::NoMemory);
        }
        scan = next;
        rest = others;
    }
    let Some(event) = scan.end() else {
        return Err(ScanFault::At(text.len()));
    };
    if gathered.add(alloc, event).is_err() {
        return Err(ScanFault::NoMemory);
    }
    Ok(gathered.whole)
}
