//! All that is wrong with a document, each with its line.
ghost use Rattle.std.specs.Prelude.{◌≡◌};
ghost use Rattle.bac_text.specs.declared.status.Status.TheVariants as status;

use crate::extent::has_too_many_keys;
use bac_objects::{DocumentFault, Finding, document_findings};
use bac_text::Status;
use std::alloc::Global;
use std::io::Write;

/// All faults of a document that is refused, as far as they can be told one by one. None where there is only the refusal itself, or the document may have so many keys
/// that to look at each takes too long.
fn findings_of(alloc: Global, octets: &[u8], fault: &DocumentFault) -> Option<Vec<Finding>> {
    match fault {
        DocumentFault::NoMemory => None,
        _ if has_too_many_keys(octets) => None,
        _ => document_findings(alloc, octets).ok(),
    }
}

/// Tells all faults of a document, each with its line; the refusal alone where there is no more to tell, or memory is refused.
pub(crate) fn print_document_fault<E: Write>(
    alloc: Global,
    path: &str,
    octets: &[u8],
    fault: &DocumentFault,
    err: &mut E,
) -> Status
    ensures { result ≡ status.CommandLine }
{
    let findings = findings_of(alloc, octets, fault).unwrap_or(Vec::new(alloc));
    if findings.is_empty() {
        // if that fails too, only the status is left
        let _ = writeln!(err, "{path}: {fault}");
    }
    for finding in &findings {
        let _ = writeln!(err, "{path}: {finding}");
    }
    drop(findings);
    Status::CommandLine
}
