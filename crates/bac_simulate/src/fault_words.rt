//! Why an event did not happen, or a change was refused, in words.
ghost use Rattle.std.specs.Prelude.{◌≡◌, IfOk};
ghost use Rattle.bac_simulate.specs.FaultWords.{change_fault_words, fault_words, fault_words_line};

use bac_store::ChangeFault;
use std::alloc::{AllocError, Global};

/// Why a change was refused.
pub(crate) fn change_fault_words(fault: ChangeFault) -> &'static str
    ensures { result.now ≡ change_fault_words fault }
{
    match fault {
        ChangeFault::NoSuchObject => "no such object",
        ChangeFault::NoSuchProperty => "no such property",
        ChangeFault::BadValue => "a value that the property cannot have",
        ChangeFault::TooLong => "too many octets",
        ChangeFault::NoMemory => "no memory",
    }
}

/// Why an event did not happen, by the number of the fault.
pub(crate) fn fault_words(fault: u8) -> &'static str
    ensures { result.now ≡ fault_words fault }
{
    match fault {
        1 => "no such node",
        2 => "no such datagram",
        3 => "the clock would overflow",
        10 => "the link belongs to a node",
        11 => "the pace is out of range",
        12 => "the node may not begin now",
        _ => "no memory",
    }
}

/// The line that says which fault ended a script at that line, counted from 1: its number, and why in words.
pub(crate) fn fault_words_line(alloc: Global, line: u64, fault: u8) -> Result<Vec<u8>, AllocError>
    ensures { IfOk result (λ t. t.items ≡ fault_words_line line fault) }
{
    let why = fault_words(fault);
    let text = format!(in alloc; "line {line}: fault {fault}: {why}\n")?;
    Ok(text.into_bytes())
}
