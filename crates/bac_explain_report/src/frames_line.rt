//! The frames of a transaction.
ghost use Rattle.std.specs.Prelude.{◌≡◌, IfOk, string_bytes};
ghost use Rattle.bac_explain_report.specs.FramesLines.{frames_line, more_numbers, next_number, numbers};

use bac_explain::Step;
use std::alloc::{AllocError, Global};

/// The number of a frame, behind a comma.
fn next_number(alloc: Global, frame: u64) -> Result<String, AllocError>
    ensures { IfOk result (λ t. string_bytes t ≡ next_number frame) }
{
    format!(in alloc; ",{frame}")
}

/// The numbers of frames, each behind a comma.
fn more_numbers(alloc: Global, steps: &[Step]) -> Result<Vec<u8>, AllocError>
    ensures { IfOk result (λ t. t.items ≡ more_numbers steps.now) }
{
    let mut text = Vec::new(alloc);
    for step in steps {
        let number = next_number(alloc, step.frame)?;
        text.extend_from_slice(number.as_bytes())?;
    }
    Ok(text)
}

/// The numbers of frames, with commas between them.
fn numbers(alloc: Global, steps: &[Step]) -> Result<Vec<u8>, AllocError>
    ensures { IfOk result (λ t. t.items ≡ numbers steps.now) }
{
    let Some((first, others)) = steps.split_first() else {
        return Ok(Vec::new(alloc));
    };
    let frame = first.frame;
    let more = more_numbers(alloc, others)?;
    let mut text = format!(in alloc; "{frame}")?.into_bytes();
    text.extend_from_slice(&more)?;
    Ok(text)
}

/// The line with the numbers of the frames of a transaction.
pub(crate) fn frames_line(alloc: Global, steps: &[Step]) -> Result<Vec<u8>, AllocError>
    ensures { IfOk result (λ t. t.items ≡ frames_line steps.now) }
{
    let numbers = numbers(alloc, steps)?;
    let mut text = Vec::from_slice(alloc, b"  frames=")?;
    text.extend_from_slice(&numbers)?;
    text.push(b'\n')?;
    Ok(text)
}
