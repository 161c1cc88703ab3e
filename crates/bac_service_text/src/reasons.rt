//! Errors, Rejects and Aborts in words.
ghost use Rattle.std.specs.Prelude.{◌≡◌, IfOk};
ghost use Rattle.bac_service_text.specs.Reasons.{abort_words, aborted_words, error_words, rejected_words};

use bac_value_text::{abort_text, error_text, reject_text};
use std::alloc::{AllocError, Global};

/// An Error, as `error property unknown-property (2:32)`: its class and code by their names in the standard, and by number. An Err is out of memory.
pub fn error_words(alloc: Global, class: u32, code: u32) -> Result<Vec<u8>, AllocError>
    ensures { IfOk result (λ t. t.items ≡ error_words class code) }
{
    let error = error_text(alloc, class, code)?;
    let words = format!(in alloc; "error {error}")?;
    Ok(words.into_bytes())
}

/// An Abort, as `abort out-of-resources (9)`. An Err is out of memory.
pub fn abort_words(alloc: Global, reason: u8) -> Result<Vec<u8>, AllocError>
    ensures { IfOk result (λ t. t.items ≡ abort_words reason) }
{
    let reason = abort_text(alloc, reason)?;
    let words = format!(in alloc; "abort {reason}")?;
    Ok(words.into_bytes())
}

/// An ask that ended with a Reject, as `rejected invalid-tag (4)`. An Err is out of memory.
pub fn rejected_words(alloc: Global, reason: u8) -> Result<Vec<u8>, AllocError>
    ensures { IfOk result (λ t. t.items ≡ rejected_words reason) }
{
    let reason = reject_text(alloc, reason)?;
    let words = format!(in alloc; "rejected {reason}")?;
    Ok(words.into_bytes())
}

/// An ask that ended with an Abort, as `aborted out-of-resources (9)`. An Err is out of memory.
pub fn aborted_words(alloc: Global, reason: u8) -> Result<Vec<u8>, AllocError>
    ensures { IfOk result (λ t. t.items ≡ aborted_words reason) }
{
    let reason = abort_text(alloc, reason)?;
    let words = format!(in alloc; "aborted {reason}")?;
    Ok(words.into_bytes())
}
