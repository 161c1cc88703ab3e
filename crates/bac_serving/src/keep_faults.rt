//! Why a store is no longer kept.
use bac_keep::KeepFault;
use std::io::Write;

/// Tells behind `keep fault` which file it is about, and why.
pub(crate) fn print_keep_fault<E: Write>(path: &str, fault: Option<KeepFault>, err: &mut E) {
    if let Some(fault) = fault {
        // if that fails too, only the status is left
        let _ = writeln!(err, "{path}: {fault}");
    }
}
