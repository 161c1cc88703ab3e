//! Printing errors and the reasons of Rejects and Aborts: by their names in the standard, and by number.
ghost use Rattle.std.specs.Prelude.{◌≡◌, IfOk, string_bytes};
ghost use Rattle.bac_value_text.specs.Reasons.{abort_text, aborting_text, class_text, code_text, error_text, reject_text, rejection_text};

use crate::{abort_reason_name, error_class_name, error_code_name, reject_reason_name};
use std::alloc::{AllocError, Global};

fn class_text(alloc: Global, number: u32) -> Result<String, AllocError>
    ensures { IfOk result (λ t. string_bytes t ≡ class_text number) }
{
    match error_class_name(number) {
        Some(name) => String::from_str(alloc, name),
        None => format!(in alloc; "{number}"),
    }
}

fn code_text(alloc: Global, number: u32) -> Result<String, AllocError>
    ensures { IfOk result (λ t. string_bytes t ≡ code_text number) }
{
    match error_code_name(number) {
        Some(name) => String::from_str(alloc, name),
        None => format!(in alloc; "{number}"),
    }
}

fn rejection_text(alloc: Global, number: u32) -> Result<String, AllocError>
    ensures { IfOk result (λ t. string_bytes t ≡ rejection_text number) }
{
    match reject_reason_name(number) {
        Some(name) => String::from_str(alloc, name),
        None => format!(in alloc; "{number}"),
    }
}

fn aborting_text(alloc: Global, number: u32) -> Result<String, AllocError>
    ensures { IfOk result (λ t. string_bytes t ≡ aborting_text number) }
{
    match abort_reason_name(number) {
        Some(name) => String::from_str(alloc, name),
        None => format!(in alloc; "{number}"),
    }
}

/// An error, for example `object unknown-object (1:31)`: class and code by name (by number if the standard has no name), and by number.
pub fn error_text(alloc: Global, class: u32, code: u32) -> Result<String, AllocError>
    ensures { IfOk result (λ t. string_bytes t ≡ error_text class code) }
{
    let class_name = class_text(alloc, class)?;
    let code_name = code_text(alloc, code)?;
    format!(in alloc; "{class_name} {code_name} ({class}:{code})")
}

/// A Reject reason, for example `unrecognized-service (9)`.
pub fn reject_text(alloc: Global, reason: u8) -> Result<String, AllocError>
    ensures { IfOk result (λ t. string_bytes t ≡ reject_text reason) }
{
    let name = rejection_text(alloc, u32::from(reason))?;
    format!(in alloc; "{name} ({reason})")
}

/// An Abort reason, for example `segmentation-not-supported (4)`.
pub fn abort_text(alloc: Global, reason: u8) -> Result<String, AllocError>
    ensures { IfOk result (λ t. string_bytes t ≡ abort_text reason) }
{
    let name = aborting_text(alloc, u32::from(reason))?;
    format!(in alloc; "{name} ({reason})")
}
